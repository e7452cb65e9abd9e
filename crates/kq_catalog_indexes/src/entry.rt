// Entries in the order of their names.
ghost use Rattle.std.specs.Prelude.{◌≡◌, ◌≢◌, ◌≤◌, length, IfOk, IfErr};
ghost use Rattle.std.specs.List.{All, insert};
ghost use Rattle.kq_catalog_indexes.specs.Index.{AreSorted, HasNameAt, IsGapFor};

use kq_value::{Memory, Text};
use std::alloc::Global;

// A name and its number.
#[derive(Drop)]
pub(crate) struct Entry {
    pub name: Text,
    pub number: u32,
}

// Where the entry of a name stands, or else where it would go.
pub(crate) fn search(entries: &[Entry], name: &Text) -> Result<usize, usize>
    requires { AreSorted entries.now }
    ensures found { IfOk result (HasNameAt name.now entries.now) }
    ensures gap { IfErr result (IsGapFor name.now entries.now) }
{
    entries.binary_search_by(|entry| entry.name.cmp(name))
}

// Where the entry of a name would go that has none.
pub(crate) fn gap_for(entries: &[Entry], name: &Text) -> usize
    requires sorted { AreSorted entries.now }
    requires absent { All (λ e. e.name ≢ name.now) entries.now }
    ensures { IsGapFor name.now entries.now result }
{
    match search(entries, name) {
        Ok(_) => unreachable!(),
        Err(at) => at,
    }
}

// The same entries and one more, which comes at a place.
pub(crate) fn with_entry(
    alloc: Global,
    entries: &[Entry],
    at: usize,
    entry: Entry,
) -> Result<Vec<Entry>, Memory>
    requires { at ≤ length entries.now }
    ensures { IfOk result (λ v. v.items ≡ insert entries.now at entry) }
{
    let mut all = Vec::with_capacity(alloc, entries.len() + 1)?;
    for held in entries {
        let name = held.name.clone_in()?;
        let number = held.number;
        all.push(Entry { name, number })?;
    }
    all.insert(at, entry)?;
    Ok(all)
}
