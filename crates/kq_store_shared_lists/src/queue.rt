// Lists that lose items at the front.
ghost use Rattle.std.specs.Prelude.{◌≡◌, ◌↔◌, ◌≤◌, ◌<◌, ◌++◌, ◌∷◌, ◌^◌, [], length, map, drop, IfOk, IsTrue, OnOk, OnErr, Some, slice_get};
ghost use Rattle.std.specs.Arc.{arc_value};
ghost use Rattle.kq_store_shared_lists.specs.Standing.{StandsAt};

use crate::Memory;
use crate::list::SharedList;
use std::alloc::Global;
use std::marker::Model;
use std::sync::Arc;

/// Items in order, of which the first may be let go. Copies share what they have in common.
#[derive(Drop)]
pub struct SharedQueue<T> {
    list: SharedList<T>,
    gone: usize,
}

impl<T> Model for SharedQueue<T> {
    ghost use Rattle.std.specs.Prelude.{List, ◌≤◌, length, drop};

    ghost Value = { List T };

    ghost view = { λ q. drop q.gone q.list };

    ghost invariant = { λ q. q.gone ≤ length q.list };
}

impl<T: Drop> SharedQueue<T> {
    pub fn new(alloc: Global) -> SharedQueue<T>
        ensures { result ≡ [] }
    {
        SharedQueue {
            list: SharedList::new(alloc),
            gone: 0,
        }
    }

    pub fn len(&self) -> usize
        ensures count { result ≡ length self.now }
        ensures small { result < 2 ^ 63 }
    {
        self.list.len() - self.gone
    }

    pub fn is_empty(&self) -> bool
        ensures { IsTrue result ↔ (self.now ≡ []) }
    {
        self.len() == 0
    }

    pub fn get(&self, at: usize) -> &T
        requires { at < length self.now }
        ensures { slice_get self.now at ≡ Some result.now }
    {
        &self.part_from(at)[0]
    }

    /// Some items in a row, from a place on: a walk takes them, and goes on behind them.
    pub fn part_from(&self, at: usize) -> &[Arc<T, Global>]
        requires { at < length self.now }
        ensures some { 0 < length result.now }
        ensures items { StandsAt self.now at (map arc_value result.now) }
    {
        // the list's length bounds the place
        let _len = self.list.len();
        self.list.part_from(self.gone + at)
    }

    /// Puts an item last.
    pub fn push(&mut self, item: Arc<T, Global>) -> Result<(), Memory>
        ensures ok { OnOk result (self.new ≡ self.old ++ arc_value item ∷ []) }
        ensures err { OnErr result (self.new ≡ self.old) }
    {
        self.list.push(item)
    }

    /// Lets go of the first items, and of the first piece where all its items are gone. It takes no memory.
    pub fn drop_front(&mut self, count: usize)
        requires { count ≤ length self.old }
        ensures { self.new ≡ drop count self.old }
    {
        // the list's length bounds the sum
        let _len = self.list.len();
        let gone = self.gone + count;
        let shed = self.list.shed(gone);
        self.gone = gone - shed;
    }

    /// Lets go of the first items, and puts one last.
    pub fn replace_front(&mut self, count: usize, item: Arc<T, Global>) -> Result<(), Memory>
        requires { count ≤ length self.old }
        ensures ok { OnOk result (self.new ≡ drop count self.old ++ arc_value item ∷ []) }
        ensures err { OnErr result (self.new ≡ self.old) }
    {
        self.push(item)?;
        self.drop_front(count);
        Ok(())
    }

    /// A second queue of the same items. Few handles are copied.
    pub fn share(&self) -> Result<SharedQueue<T>, Memory>
        ensures { IfOk result (λ q. q ≡ self.now) }
    {
        Ok(SharedQueue {
            list: self.list.share()?,
            gone: self.gone,
        })
    }
}
