// Dynamics.
ghost use Rattle.std.specs.Prelude.{◌≡◌, ◌↔◌, ◌≤◌, ◌<◌, ◌+◌, ◌++◌, [], ◌∷◌, IfOk, IsTrue, OnOk, OnErr, Some, None, length, option_map};
ghost use Rattle.kq_value.specs.Tree.{no_items, no_entries, items_of, keys_of, tree_depth, trees_depth, entries_depth};
ghost use Rattle.kq_value.specs.Seen.{tree_of, trees_of, entries_of};
ghost use Rattle.kq_value.specs.Bags.{IsAfter, IsBag, value_at, push_entry};
ghost use Rattle.kq_value.specs.TreeOrder.{tree_kind, tree_cmp, trees_cmp, entries_cmp};
ghost use Rattle.kq_value.specs.Hash.{tree_hash, trees_hash, entries_hash};

use crate::Memory;
use crate::hash::{step, step_bytes};
use crate::items::{room_for, room_for_first};
use crate::text::Text;
use std::alloc::Global;
use std::cmp::Ordering;
use std::marker::Model;

/// A dynamic: JSON whose numbers are whole and of 64 signed bits. Contracts see its tree by `tree_of`.
#[cycle(dynamic)]
#[derive(Drop)]
pub enum Dyn {
    Null,
    Bool(bool),
    Long(i64),
    Text(Text),
    List(DynList),
    Bag(DynBag),
}

/// An array, which nests at most 127 levels with itself. Contracts see the trees of its items.
#[cycle(dynamic)]
#[derive(Drop)]
pub struct DynList {
    items: Vec<Dyn>,
}

/// An entry of a bag.
#[cycle(dynamic)]
#[derive(Drop)]
pub struct Member {
    pub key: Text,
    pub value: Dyn,
}

/// A bag: values by key, in byte order of the keys, which nests at most 127 levels with itself. Contracts see its entries.
#[cycle(dynamic)]
#[derive(Drop)]
pub struct DynBag {
    members: Vec<Member>,
}

impl Model for DynList {
    ghost use Rattle.std.specs.Prelude.{◌<◌};
    ghost use Rattle.kq_value.specs.Tree.{Trees, trees_size, trees_depth};
    ghost use Rattle.kq_value.specs.Codes.{trees_code};

    ghost Value = { Trees };

    ghost coded = { trees_code };

    ghost use Rattle.kq_value.specs.Seen.{trees_of};

    ghost view = { λ a. trees_of a.items.items };

    ghost invariant = { λ a. trees_depth (trees_of a.items.items) < 127 };

    ghost size = { trees_size };

    ghost use Rattle.kq_value.specs.Falls.{list_falls};

    ghost size_decreases = { λ a h. list_falls a.items.items };
}

impl Model for DynBag {
    ghost use Rattle.kq_value.specs.Tree.{Entries, entries_size};
    ghost use Rattle.kq_value.specs.Codes.{entries_code};

    ghost Value = { Entries };

    ghost coded = { entries_code };

    ghost use Rattle.kq_value.specs.Seen.{entries_of};
    ghost use Rattle.kq_value.specs.Bags.{IsBag};

    ghost view = { λ a. entries_of a.members.items };

    ghost invariant = { λ a. IsBag (entries_of a.members.items) };

    ghost size = { entries_size };

    ghost use Rattle.kq_value.specs.Falls.{bag_falls};

    ghost size_decreases = { λ a h. bag_falls a.members.items };
}

impl Dyn {
    fn kind(&self) -> u8
        ensures { result ≡ tree_kind (tree_of self.now) }
    {
        match self {
            Dyn::Null => 0,
            Dyn::Bool(_) => 1,
            Dyn::Long(_) => 2,
            Dyn::Text(_) => 3,
            Dyn::List(_) => 4,
            Dyn::Bag(_) => 5,
        }
    }

    /// How deep arrays and bags nest: a scalar is 0 deep, and an empty array 1.
    #[cycle(depth)]
    pub fn depth(&self) -> u8
        ensures depth { result ≡ tree_depth (tree_of self.now) }
        ensures bound { result ≤ 127 }
    {
        match self {
            Dyn::List(items) => items.depth(),
            Dyn::Bag(members) => members.depth(),
            _ => 0,
        }
    }

    /// The total order: null, bool, number, string, array, bag; arrays item by item and a prefix first; bags as arrays of key and value.
    #[cycle(compare)]
    pub fn cmp(&self, other: &Dyn) -> Ordering
        ensures { result ≡ tree_cmp (tree_of self.now) (tree_of other.now) }
    {
        match (self, other) {
            (Dyn::Bool(a), Dyn::Bool(b)) => a.cmp(b),
            (Dyn::Long(a), Dyn::Long(b)) => a.cmp(b),
            (Dyn::Text(a), Dyn::Text(b)) => a.cmp(b),
            (Dyn::List(a), Dyn::List(b)) => a.cmp(b),
            (Dyn::Bag(a), Dyn::Bag(b)) => a.cmp(b),
            _ => self.kind().cmp(&other.kind()),
        }
    }

    #[cycle(hash)]
    pub(crate) fn hash_into(&self, state: u64) -> u64
        ensures { result ≡ tree_hash state (tree_of self.now) }
    {
        match self {
            Dyn::Null => step(state, 0),
            Dyn::Bool(b) => step(step(state, 1), *b as u64),
            Dyn::Long(n) => step(step(state, 2), n.cast_unsigned()),
            Dyn::Text(text) => step_bytes(step(state, 3), text.as_str().as_bytes()),
            Dyn::List(items) => items.hash_into(step(state, 4)),
            Dyn::Bag(members) => members.hash_into(step(state, 5)),
        }
    }

    #[cycle(copy)]
    pub fn clone_in(&self) -> Result<Dyn, Memory>
        ensures { IfOk result (λ d. d ≡ self.now) }
    {
        match self {
            Dyn::Null => Ok(Dyn::Null),
            Dyn::Bool(b) => Ok(Dyn::Bool(*b)),
            Dyn::Long(n) => Ok(Dyn::Long(*n)),
            Dyn::Text(t) => Ok(Dyn::Text(t.clone_in()?)),
            Dyn::List(items) => Ok(Dyn::List(items.clone_in()?)),
            Dyn::Bag(members) => Ok(Dyn::Bag(members.clone_in()?)),
        }
    }
}

impl DynList {
    pub fn new(alloc: Global) -> DynList
        ensures { result ≡ no_items }
    {
        DynList {
            items: Vec::new(alloc),
        }
    }

    pub fn from_vec(items: Vec<Dyn>) -> DynList
        requires { trees_depth (trees_of items.items) < 127 }
        ensures { result ≡ trees_of items.items }
    {
        DynList { items }
    }

    pub fn into_vec(self) -> Vec<Dyn>
        ensures items { trees_of result.items ≡ self }
        ensures shallow { trees_depth self < 127 }
    {
        self.items
    }

    pub fn as_slice(&self) -> &[Dyn]
        ensures items { trees_of result.now ≡ self.now }
        ensures shallow { trees_depth self.now < 127 }
    {
        self.items.as_slice()
    }

    pub fn len(&self) -> usize
        ensures { result ≡ length (items_of self.now) }
    {
        self.items.len()
    }

    pub fn is_empty(&self) -> bool
        ensures { IsTrue result ↔ (length (items_of self.now) ≡ 0) }
    {
        self.len() == 0
    }

    pub fn push(&mut self, item: Dyn) -> Result<(), Memory>
        requires { tree_depth (tree_of item) < 127 }
        ensures ok { OnOk result (items_of self.new ≡ items_of self.old ++ tree_of item ∷ []) }
        ensures err { OnErr result (self.new ≡ self.old) }
    {
        self.items.push(item)?;
        Ok(())
    }

    #[cycle(depth)]
    fn depth(&self) -> u8
        ensures depth { result ≡ trees_depth self.now + 1 }
        ensures bound { result ≤ 127 }
    {
        let mut deepest = 0;
        for item in &self.items {
            deepest = deepest.max(item.depth());
        }
        deepest + 1
    }

    #[cycle(compare)]
    fn cmp(&self, other: &DynList) -> Ordering
        ensures { result ≡ trees_cmp self.now other.now }
    {
        let shorter = self.items.len().min(other.items.len());
        for i in 0..shorter {
            let order = self.items[i].cmp(&other.items[i]);
            if order != Ordering::Equal {
                return order;
            }
        }
        self.items.len().cmp(&other.items.len())
    }

    #[cycle(hash)]
    fn hash_into(&self, state: u64) -> u64
        ensures { result ≡ trees_hash state self.now }
    {
        let mut state = state;
        for item in &self.items {
            state = item.hash_into(state);
        }
        step(state, 6)
    }

    #[cycle(copy)]
    pub fn clone_in(&self) -> Result<DynList, Memory>
        ensures { IfOk result (λ d. d ≡ self.now) }
    {
        let mut items = room_for(&self.items)?;
        for item in &self.items {
            items.push_reserved(item.clone_in()?);
        }
        Ok(DynList { items })
    }
}

impl Member {
    #[cycle(copy)]
    fn clone_in(&self) -> Result<Member, Memory>
        ensures { IfOk result (λ m. m ≡ self.now) }
    {
        Ok(Member {
            key: self.key.clone_in()?,
            value: self.value.clone_in()?,
        })
    }
}

impl DynBag {
    pub fn new(alloc: Global) -> DynBag
        ensures { result ≡ no_entries }
    {
        DynBag {
            members: Vec::new(alloc),
        }
    }

    pub fn from_vec(members: Vec<Member>) -> DynBag
        requires { IsBag (entries_of members.items) }
        ensures { result ≡ entries_of members.items }
    {
        DynBag { members }
    }

    pub fn into_vec(self) -> Vec<Member>
        ensures members { entries_of result.items ≡ self }
        ensures bag { IsBag self }
    {
        self.members
    }

    pub fn as_slice(&self) -> &[Member]
        ensures members { entries_of result.now ≡ self.now }
        ensures bag { IsBag self.now }
    {
        self.members.as_slice()
    }

    pub fn len(&self) -> usize
        ensures { result ≡ length (keys_of self.now) }
    {
        self.members.len()
    }

    pub fn is_empty(&self) -> bool
        ensures { IsTrue result ↔ (length (keys_of self.now) ≡ 0) }
    {
        self.len() == 0
    }

    pub fn get(&self, key: &str) -> Option<&Dyn>
        ensures { option_map (λ d. tree_of d.now) result ≡ value_at key.now self.now }
    {
        for member in &self.members {
            if member.key.as_str() == key {
                return Some(&member.value);
            }
        }
        None
    }

    /// Adds an entry whose key comes after all others.
    pub fn push(&mut self, member: Member) -> Result<(), Memory>
        requires after { IsAfter member.key self.old }
        requires shallow { tree_depth (tree_of member.value) < 127 }
        ensures ok { OnOk result (self.new ≡ push_entry self.old member.key (tree_of member.value)) }
        ensures err { OnErr result (self.new ≡ self.old) }
    {
        room_for_first(&mut self.members)?;
        self.members.push(member)?;
        Ok(())
    }

    #[cycle(depth)]
    fn depth(&self) -> u8
        ensures depth { result ≡ entries_depth self.now + 1 }
        ensures bound { result ≤ 127 }
    {
        let mut deepest = 0;
        for member in &self.members {
            deepest = deepest.max(member.value.depth());
        }
        deepest + 1
    }

    #[cycle(compare)]
    fn cmp(&self, other: &DynBag) -> Ordering
        ensures { result ≡ entries_cmp self.now other.now }
    {
        let shorter = self.members.len().min(other.members.len());
        for i in 0..shorter {
            let (a, b) = (&self.members[i], &other.members[i]);
            let mut order = a.key.cmp(&b.key);
            if order == Ordering::Equal {
                order = a.value.cmp(&b.value);
            }
            if order != Ordering::Equal {
                return order;
            }
        }
        self.members.len().cmp(&other.members.len())
    }

    #[cycle(hash)]
    fn hash_into(&self, state: u64) -> u64
        ensures { result ≡ entries_hash state self.now }
    {
        let mut state = state;
        for member in &self.members {
            let key = step_bytes(step(state, 3), member.key.as_str().as_bytes());
            state = member.value.hash_into(key);
        }
        step(state, 6)
    }

    #[cycle(copy)]
    pub fn clone_in(&self) -> Result<DynBag, Memory>
        ensures { IfOk result (λ d. d ≡ self.now) }
    {
        let mut members = room_for(&self.members)?;
        for member in &self.members {
            members.push_reserved(member.clone_in()?);
        }
        Ok(DynBag { members })
    }
}
