// Entries of an index.
ghost use Rattle.std.specs.Prelude.{◌≡◌, ◌++◌, ◌∷◌, [], ◌<◌, IfOk, not};
ghost use Rattle.std.specs.List.{filter};
ghost use Rattle.kq_catalog_indexes.specs.Tags.{cursor_at, key_hash};
ghost use Rattle.kq_catalog_indexes.specs.TagTrees.{goes_right, is_right};

use kq_value::{Memory, Text};
use std::alloc::Global;

// A tag of a table, and its cursor.
#[derive(Drop)]
pub(crate) struct Entry {
    pub table: u32,
    pub tag: Text,
    pub cursor: u64,
}

impl Entry {
    // The same entry, whose text is shared.
    pub(crate) fn clone_in(&self) -> Result<Entry, Memory>
        ensures { IfOk result (λ e. e ≡ self.now) }
    {
        let tag = self.tag.clone_in()?;
        Ok(Entry {
            table: self.table,
            tag,
            cursor: self.cursor,
        })
    }
}

// FNV-1a over the table's number and the tag's bytes, the upper half put into the lower.
pub(crate) fn key_hash(table: u32, tag: &Text) -> u64
    ensures { result ≡ key_hash table tag.now }
{
    let mut state = (0xcbf2_9ce4_8422_2325 ^ table as u64).wrapping_mul(0x100_0000_01b3);
    for byte in tag.as_str().as_bytes() {
        state = (state ^ *byte as u64).wrapping_mul(0x100_0000_01b3);
    }
    state ^ state >> 32
}

// Whether a hash goes to the right at a level.
pub(crate) fn goes_right(hash: u64, level: u32) -> bool
    requires { level < 64 }
    ensures { result ≡ goes_right level hash }
{
    (hash >> level) % 2 == 1
}

// The cursor of a tag of a table among some entries: that of the first.
pub(crate) fn find_among(entries: &[Entry], table: u32, tag: &Text) -> Option<u64>
    ensures { result ≡ cursor_at entries.now table tag.now }
{
    for entry in entries {
        if entry.table == table && entry.tag.same(tag) {
            return Some(entry.cursor);
        }
    }
    None
}

// The entries and one more, which comes last.
pub(crate) fn with_last(alloc: Global, entries: &[Entry], last: Entry) -> Result<Vec<Entry>, Memory>
    ensures { IfOk result (λ v. v.items ≡ entries.now ++ last ∷ []) }
{
    let mut all = Vec::with_capacity(alloc, entries.len() + 1)?;
    for entry in entries {
        all.push(entry.clone_in()?)?;
    }
    all.push(last)?;
    Ok(all)
}

// The entries that go to the left at a level, and those that go to the right.
pub(crate) fn parted(
    alloc: Global,
    level: u32,
    entries: Vec<Entry>,
) -> Result<(Vec<Entry>, Vec<Entry>), Memory>
    requires { level < 64 }
    ensures left { IfOk result (λ sides. sides.0.items ≡ filter (λ e. not (is_right level e)) entries.items) }
    ensures right { IfOk result (λ sides. sides.1.items ≡ filter (is_right level) entries.items) }
{
    let mut left = Vec::new(alloc);
    let mut right = Vec::new(alloc);
    for entry in entries {
        if goes_right(key_hash(entry.table, &entry.tag), level) {
            right.push(entry)?;
        } else {
            left.push(entry)?;
        }
    }
    Ok((left, right))
}
