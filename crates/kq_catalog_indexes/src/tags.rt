// Indexes.
ghost use Rattle.std.specs.Prelude.{◌≡◌, [], IfOk};
ghost use Rattle.kq_catalog_indexes.specs.Tags.{AddsTags, cursor_at, is_key};

use crate::tag_entry::{Entry, key_hash};
use crate::tag_tree::Tree;
use kq_value::{Memory, Text};
use std::alloc::Global;
use std::marker::Model;
use std::sync::Arc;

/// Tags of tables with their cursors. Contracts see the entries, in an order that tells nothing.
#[derive(Drop)]
pub struct TagIndex {
    alloc: Global,
    root: Arc<Tree, Global>,
}

impl Model for TagIndex {
    ghost use Rattle.std.specs.Prelude.{List};
    ghost use Rattle.std.specs.Arc.{arc_value};
    ghost use Rattle.std.specs.Coded.{coded_list};
    ghost use Rattle.kq_catalog_indexes.specs.declared.tag_entry.Entry.{Entry as Seen};
    ghost use Rattle.kq_catalog_indexes.specs.contracts.tag_entry.Entry as entry;
    ghost use Rattle.kq_catalog_indexes.specs.TagTrees.{ArePlaced, entries_of};

    ghost Value = { List Seen };

    ghost coded = { coded_list entry.the_row.coded };

    ghost view = { λ i. entries_of (arc_value i.root) };

    // each entry stands where its hash goes
    ghost invariant = { λ i. ArePlaced 0 (arc_value i.root) };
}

impl TagIndex {
    pub fn new(alloc: Global) -> Result<TagIndex, Memory>
        ensures { IfOk result (λ index. index ≡ []) }
    {
        let root = Arc::new(alloc, Tree::Leaf(Vec::new(alloc)))?;
        Ok(TagIndex { alloc, root })
    }

    /// The cursor of a tag of a table, by its number. As far as hashes differ it looks at few entries, however many there are.
    pub fn find(&self, table: u32, tag: &Text) -> Option<u64>
        ensures { result ≡ cursor_at self.now table tag.now }
    {
        self.root.find(0, key_hash(table, tag), table, tag)
    }

    /// An index in which a tag of a table has the cursor, unless it had one here. This one doesn't change.
    pub fn with(&self, table: u32, tag: &Text, cursor: u64) -> Result<TagIndex, Memory>
        ensures { IfOk result (AddsTags self.now (is_key table tag.now) cursor) }
    {
        if self.find(table, tag).is_some() {
            return self.share();
        }
        let entry = Entry {
            table,
            tag: tag.clone_in()?,
            cursor,
        };
        let root = self.root.with(self.alloc, 0, key_hash(table, tag), entry)?;
        Ok(TagIndex {
            alloc: self.alloc,
            root,
        })
    }

    /// A second handle of the same index.
    pub fn share(&self) -> Result<TagIndex, Memory>
        ensures { IfOk result (λ index. index ≡ self.now) }
    {
        let root = Arc::try_clone(&self.root)?;
        Ok(TagIndex {
            alloc: self.alloc,
            root,
        })
    }
}
