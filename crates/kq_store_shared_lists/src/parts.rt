// The pieces of a list, and its tail.
ghost use Rattle.std.specs.Prelude.{◌≡◌, ◌≤◌, ◌++◌, ◌<◌, ◌^◌, ◌+◌, ◌-◌, ◌∷◌, [], length, map, take, drop, IfOk, OnOk, OnErr, vec_len, vec_capacity};
ghost use Rattle.std.specs.Arc.{arc_value};
ghost use Rattle.kq_store_shared_lists.specs.Pieces.{piece_items, HasCounts, items_in, AreCounted, LeadsTo};

use crate::Memory;
use crate::piece::{Piece, leaf, pair, shared_handles};
use std::alloc::Global;
use std::sync::Arc;

// A piece, with the number of its items.
#[derive(Drop)]
pub(crate) struct Part<T> {
    pub piece: Arc<Piece<T>, Global>,
    pub len: usize,
}

// The same parts again.
pub(crate) fn shared_parts<T: Drop>(
    alloc: Global,
    parts: &[Part<T>],
) -> Result<Vec<Part<T>>, Memory>
    requires { AreCounted parts.now }
    ensures items { IfOk result (λ v. items_in v.items ≡ items_in parts.now) }
    ensures counts { IfOk result (λ v. AreCounted v.items) }
{
    let mut all = Vec::with_capacity(alloc, parts.len())?;
    for part in parts {
        all.push(Part {
            piece: Arc::try_clone(&part.piece)?,
            len: part.len,
        })?;
    }
    Ok(all)
}

// The part in which a place lies, and how far in it.
pub(crate) fn part_at<T: Drop>(parts: &[Part<T>], at: usize) -> (usize, usize)
    requires { AreCounted parts.now }
    ensures { LeadsTo parts.now at result.0 result.1 }
{
    let mut rest = at;
    for i in 0..parts.len() {
        if rest < parts[i].len {
            return (i, rest);
        }
        rest -= parts[i].len;
    }
    (parts.len(), rest)
}

// Makes one part of the last two.
fn join_last<T: Drop>(alloc: Global, parts: &mut Vec<Part<T>>) -> Result<(), Memory>
    requires two { 2 ≤ length parts.old.items }
    requires counted { AreCounted parts.old.items }
    requires small { length (items_in parts.old.items) < 2 ^ 63 }
    ensures counted { AreCounted parts.new.items }
    ensures items { items_in parts.new.items ≡ items_in parts.old.items }
    ensures fewer { OnOk result (length parts.new.items + 1 ≡ length parts.old.items) }
{
    let last = parts.len() - 1;
    let left = &parts[last - 1];
    let right = &parts[last];
    let len = left.len + right.len;
    let first = Arc::try_clone(&left.piece)?;
    let second = Arc::try_clone(&right.piece)?;
    let piece = pair(alloc, first, left.len, second)?;
    parts.truncate(last);
    parts[last - 1] = Part { piece, len };
    Ok(())
}

// Joins the last parts while they are about equally long, so that each part is at least twice as long as the next.
fn join_equal<T: Drop>(alloc: Global, parts: &mut Vec<Part<T>>) -> Result<(), Memory>
    requires counted { AreCounted parts.old.items }
    requires small { length (items_in parts.old.items) < 2 ^ 63 }
    ensures counted { AreCounted parts.new.items }
    ensures items { items_in parts.new.items ≡ items_in parts.old.items }
{
    while parts.len() >= 2 {
        let last = parts.len() - 1;
        if parts[last - 1].len / 2 >= parts[last].len {
            break;
        }
        join_last(alloc, parts)?;
    }
    Ok(())
}

// Makes a part of the tail, which is empty then.
pub(crate) fn seal<T: Drop>(
    alloc: Global,
    parts: &mut Vec<Part<T>>,
    tail: &mut Vec<Arc<T, Global>>,
) -> Result<(), Memory>
    requires counted { AreCounted parts.old.items }
    requires small { length (items_in parts.old.items ++ map arc_value tail.old.items) < 2 ^ 63 }
    ensures counted { AreCounted parts.new.items }
    ensures items { items_in parts.new.items ++ map arc_value tail.new.items ≡ items_in parts.old.items ++ map arc_value tail.old.items }
{
    let len = tail.len();
    let piece = leaf(alloc, shared_handles(alloc, tail.as_slice(), 0)?)?;
    parts.push(Part { piece, len })?;
    tail.clear();
    join_equal(alloc, parts)
}
