// Trees of entries, which nothing changes once they stand.
ghost use Rattle.std.specs.Prelude.{◌≡◌, ◌≤◌, ◌<◌, IfOk};
ghost use Rattle.std.specs.Arc.{arc_value};
ghost use Rattle.kq_catalog_indexes.specs.Tags.{AddsTags, cursor_at, key_hash, is_key};
ghost use Rattle.kq_catalog_indexes.specs.TagTrees.{ArePlaced, FindAlike, entries_of};

use crate::tag_entry::{Entry, find_among, goes_right, parted, with_last};
use kq_value::{Memory, Text};
use std::alloc::Global;
use std::sync::Arc;

// How many entries a leaf has before it is cut in two.
const FEW: usize = 8;

// How many bits a hash has, and so the greatest number of forks above a leaf.
const LEVELS: u32 = 64;

// Some entries, or those whose hashes go to the left and those whose go to the right, by the bit of the level.
#[derive(Drop)]
pub(crate) enum Tree {
    Leaf(Vec<Entry>),
    Fork(Arc<Tree, Global>, Arc<Tree, Global>),
}

impl Tree {
    // The cursor of a tag of a table, whose hash is given.
    pub(crate) fn find(&self, level: u32, hash: u64, table: u32, tag: &Text) -> Option<u64>
        requires placed { ArePlaced level self.now }
        requires hash { hash ≡ key_hash table tag.now }
        ensures { result ≡ cursor_at (entries_of self.now) table tag.now }
    {
        match self {
            Tree::Leaf(entries) => find_among(entries.as_slice(), table, tag),
            Tree::Fork(left, right) => {
                if goes_right(hash, level) {
                    right.find(level + 1, hash, table, tag)
                } else {
                    left.find(level + 1, hash, table, tag)
                }
            }
        }
    }

    // A tree with one entry more, whose hash is given. It shares all that it can.
    pub(crate) fn with(
        &self,
        alloc: Global,
        level: u32,
        hash: u64,
        entry: Entry,
    ) -> Result<Arc<Tree, Global>, Memory>
        requires placed { ArePlaced level self.now }
        requires hash { hash ≡ key_hash entry.table entry.tag }
        ensures placed { IfOk result (λ t. ArePlaced level (arc_value t)) }
        ensures adds { IfOk result (λ t. AddsTags (entries_of self.now) (is_key entry.table entry.tag) entry.cursor (entries_of (arc_value t))) }
    {
        match self {
            Tree::Leaf(entries) => {
                let all = with_last(alloc, entries.as_slice(), entry)?;
                Ok(leaf_or_fork(alloc, level, all)?)
            }
            Tree::Fork(left, right) => {
                if goes_right(hash, level) {
                    let left = Arc::try_clone(left)?;
                    let right = right.with(alloc, level + 1, hash, entry)?;
                    Ok(Arc::new(alloc, Tree::Fork(left, right))?)
                } else {
                    let left = left.with(alloc, level + 1, hash, entry)?;
                    let right = Arc::try_clone(right)?;
                    Ok(Arc::new(alloc, Tree::Fork(left, right))?)
                }
            }
        }
    }
}

// A leaf of the entries, or a fork of two where they are many and bits are left.
fn leaf_or_fork(alloc: Global, level: u32, entries: Vec<Entry>) -> Result<Arc<Tree, Global>, Memory>
    ensures placed { IfOk result (λ t. ArePlaced level (arc_value t)) }
    ensures alike { IfOk result (λ t. FindAlike entries.items (entries_of (arc_value t))) }
{
    if entries.len() <= FEW || level >= LEVELS {
        return Ok(Arc::new(alloc, Tree::Leaf(entries))?);
    }
    let (left, right) = parted(alloc, level, entries)?;
    let left = Arc::new(alloc, Tree::Leaf(left))?;
    let right = Arc::new(alloc, Tree::Leaf(right))?;
    Ok(Arc::new(alloc, Tree::Fork(left, right))?)
}
