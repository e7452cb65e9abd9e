// Lists that are shared in pieces.
ghost use Rattle.std.specs.Prelude.{◌≡◌, ◌↔◌, ◌+◌, ◌≤◌, ◌++◌, ◌<◌, ◌^◌, ◌∷◌, [], length, map, drop, IfOk, IsTrue, OnOk, OnErr, Some, slice_get, slice_set};
ghost use Rattle.std.specs.Arc.{arc_value};
ghost use Rattle.kq_store_shared_lists.specs.Standing.{StandsAt};

use crate::Memory;
use crate::parts::{Part, part_at, seal, shared_parts};
use crate::piece::shared_handles;
use std::alloc::{AllocError, Global};
use std::marker::Model;
use std::sync::Arc;

// How many items the tail has when it becomes a piece.
const LEAF: usize = 32;

// The greatest length, as a vector's. No memory holds more handles.
const MOST: usize = 0x7fff_ffff_ffff_ffff;

/// Items in order. Two lists share what they have in common, so that a second list of the same items costs little.
#[derive(Drop)]
pub struct SharedList<T> {
    parts: Vec<Part<T>>,
    tail: Vec<Arc<T, Global>>,
    len: usize,
}

impl<T> Model for SharedList<T> {
    ghost use Rattle.std.specs.Prelude.{List, ◌++◌, map};
    ghost use Rattle.std.specs.Arc.{arc_value};

    ghost Value = { List T };

    ghost use Rattle.kq_store_shared_lists.specs.Pieces.{items_in, IsWhole};

    ghost view = { λ l. items_in l.parts.items ++ map arc_value l.tail.items };

    ghost invariant = { λ l. IsWhole l.parts.items (map arc_value l.tail.items) l.len };
}

impl<T: Drop> SharedList<T> {
    pub fn new(alloc: Global) -> SharedList<T>
        ensures { result ≡ [] }
    {
        SharedList {
            parts: Vec::new(alloc),
            tail: Vec::new(alloc),
            len: 0,
        }
    }

    pub fn len(&self) -> usize
        ensures count { result ≡ length self.now }
        ensures small { result < 2 ^ 63 }
    {
        self.len
    }

    pub fn is_empty(&self) -> bool
        ensures { IsTrue result ↔ (self.now ≡ []) }
    {
        self.len == 0
    }

    pub fn get(&self, at: usize) -> &T
        requires { at < length self.now }
        ensures { slice_get self.now at ≡ Some result.now }
    {
        &self.part_from(at)[0]
    }

    /// Some items in a row, from a place on: a walk takes them, and goes on behind them.
    pub fn part_from(&self, at: usize) -> &[Arc<T, Global>]
        requires { at < length self.now }
        ensures some { 0 < length result.now }
        ensures items { StandsAt self.now at (map arc_value result.now) }
    {
        let (index, rest) = part_at(self.parts.as_slice(), at);
        if index < self.parts.len() {
            self.parts[index].piece.slice_from(rest)
        } else {
            self.tail.as_slice().split_at(rest).1
        }
    }

    /// Puts an item last.
    pub fn push(&mut self, item: Arc<T, Global>) -> Result<(), Memory>
        ensures ok { OnOk result (self.new ≡ self.old ++ arc_value item ∷ []) }
        ensures err { OnErr result (self.new ≡ self.old) }
    {
        room(self.len)?;
        if self.tail.len() >= LEAF {
            let alloc = *self.tail.allocator();
            seal(alloc, &mut self.parts, &mut self.tail)?;
        }
        self.tail.reserve(1)?;
        self.tail.push_reserved(item);
        self.len += 1;
        Ok(())
    }

    /// Puts another item in the place of one.
    pub fn set(&mut self, at: usize, item: Arc<T, Global>) -> Result<(), Memory>
        requires { at < length self.old }
        ensures ok { OnOk result (self.new ≡ slice_set self.old at (arc_value item)) }
        ensures err { OnErr result (self.new ≡ self.old) }
    {
        let (index, rest) = part_at(self.parts.as_slice(), at);
        if index < self.parts.len() {
            let alloc = *self.tail.allocator();
            let part = &self.parts[index];
            let len = part.len;
            let piece = part.piece.with_item(alloc, rest, item)?;
            self.parts[index] = Part { piece, len };
        } else {
            self.tail[rest] = item;
        }
        Ok(())
    }

    // Lets go of the first piece where its items are all among the first so many, and tells how many it had.
    pub(crate) fn shed(&mut self, most: usize) -> usize
        ensures within { result ≤ most }
        ensures items { self.new ≡ drop result self.old }
    {
        if self.parts.is_empty() || self.parts[0].len > most {
            return 0;
        }
        let first = self.parts.remove(0);
        self.len -= first.len;
        first.len
    }

    /// A second list of the same items. Few handles are copied.
    pub fn share(&self) -> Result<SharedList<T>, Memory>
        ensures { IfOk result (λ l. l ≡ self.now) }
    {
        let alloc = *self.tail.allocator();
        Ok(SharedList {
            parts: shared_parts(alloc, self.parts.as_slice())?,
            tail: shared_handles(alloc, self.tail.as_slice(), LEAF)?,
            len: self.len,
        })
    }
}

// Whether one item more may stand in a list.
fn room(len: usize) -> Result<(), Memory>
    ensures ok { OnOk result (len + 1 < 2 ^ 63) }
    ensures err { OnErr result (2 ^ 63 ≤ len + 1) }
{
    if len >= MOST {
        return Err(AllocError);
    }
    Ok(())
}
