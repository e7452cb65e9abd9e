// Names and their numbers.
ghost use Rattle.std.specs.Prelude.{◌≡◌, ◌↔◌, ◌<◌, ◌^◌, ◌++◌, ◌∷◌, [], length, IfOk, IsTrue, None, Some, slice_get};
ghost use Rattle.kq_catalog_indexes.specs.Places.{place_of};

use crate::entry::{Entry, gap_for, search, with_entry};
use kq_value::{Memory, Text};
use std::alloc::Global;
use std::marker::Model;

/// Names, no two of them the same. Contracts see their list, in which the number of a name is its place.
#[derive(Drop)]
pub struct Names {
    names: Vec<Text>,
    entries: Vec<Entry>,
}

impl Model for Names {
    ghost use Rattle.std.specs.Prelude.{ℕ, List};
    ghost use Rattle.std.specs.Coded.{coded_ℕ, coded_list};
    ghost use Rattle.kq_catalog_indexes.specs.Index.{IsIndex};

    ghost Value = { List (List ℕ) };

    ghost coded = { coded_list (coded_list coded_ℕ) };

    ghost view = { λ n. n.names.items };

    ghost invariant = { λ n. IsIndex n.names.items n.entries.items };
}

// The same names and one more.
fn with_name(alloc: Global, names: &[Text], name: &Text) -> Result<Vec<Text>, Memory>
    ensures { IfOk result (λ v. v.items ≡ names.now ++ name.now ∷ []) }
{
    let mut all = Vec::with_capacity(alloc, names.len() + 1)?;
    for held in names {
        all.push(held.clone_in()?)?;
    }
    all.push(name.clone_in()?)?;
    Ok(all)
}

impl Names {
    pub fn new(alloc: Global) -> Names
        ensures { result ≡ [] }
    {
        Names {
            names: Vec::new(alloc),
            entries: Vec::new(alloc),
        }
    }

    pub fn len(&self) -> usize
        ensures { result ≡ length self.now }
    {
        self.names.len()
    }

    pub fn is_empty(&self) -> bool
        ensures { IsTrue result ↔ (self.now ≡ []) }
    {
        self.names.is_empty()
    }

    /// The name of a number.
    pub fn get(&self, number: u32) -> &Text
        requires { number < length self.now }
        ensures { slice_get self.now number ≡ Some result.now }
    {
        &self.names[number as usize]
    }

    /// The number of a name, if it has one.
    pub fn find(&self, name: &Text) -> Option<u32>
        ensures { result ≡ place_of name.now self.now }
    {
        match search(self.entries.as_slice(), name) {
            Ok(at) => Some(self.entries[at].number),
            Err(_) => None,
        }
    }

    /// These names and a new one, which gets the next number. The texts are shared.
    pub fn with(&self, name: &Text) -> Result<Names, Memory>
        requires new { place_of name.now self.now ≡ None }
        requires few { length self.now < 2 ^ 32 }
        ensures { IfOk result (λ names. names ≡ self.now ++ name.now ∷ []) }
    {
        let alloc = *self.names.allocator();
        let number = self.names.len() as u32;
        let at = gap_for(self.entries.as_slice(), name);
        let entry = Entry {
            name: name.clone_in()?,
            number,
        };
        let entries = with_entry(alloc, self.entries.as_slice(), at, entry)?;
        let names = with_name(alloc, self.names.as_slice(), name)?;
        Ok(Names { names, entries })
    }
}
