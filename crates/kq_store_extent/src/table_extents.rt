// The extents of a table.
ghost use Rattle.std.specs.Prelude.{◌≡◌, ◌↔◌, ◌<◌, ◌≤◌, ◌++◌, ◌∷◌, ◌^◌, [], List, length, map, IfOk, IsTrue, OnOk, OnErr};
ghost use Rattle.std.specs.Arc.{arc_value};
ghost use Rattle.kq_store_shared_lists.specs.Standing.{StandsAt};
ghost use Rattle.kq_store_rows.specs.Chunks.{same_width};
ghost use Rattle.kq_store_extent.specs.Seen.{ExtentView, held_extents, held_records, row_of};
ghost use Rattle.kq_store_extent.specs.Wide.{wide_held};
ghost use Rattle.kq_store_extent.specs.Split.{AreSplit, is_small, put, without, without_first};

use crate::extent::Extent;
use crate::walk::{add_rows, count_records};
use kq_store_rows::Rows;
use kq_store_shared_lists::{SharedList, SharedQueue};
use kq_value::{Field, Memory};
use std::alloc::Global;
use std::marker::Model;
use std::sync::Arc;

// An extent of fewer records is small.
const SMALL: usize = 4096;

/// The extents of a table, the small ones apart: a merge takes them from the front. Copies share the extents.
#[derive(Drop)]
pub struct TableExtents {
    small: SharedQueue<Extent>,
    big: SharedList<Extent>,
}

impl Model for TableExtents {
    ghost use Rattle.std.specs.Coded.{codes};
    ghost use Rattle.kq_value.specs.contracts.record.Record as held;
    ghost use Rattle.kq_store_extent.specs.Seen.{HeldExtents};

    ghost Value = { HeldExtents };

    ghost coded = { Prim.hlevel (codes, held.the_row.coded) };

    ghost view = { λ t. record { small = t.small; big = t.big } };
}

impl TableExtents {
    pub fn new(alloc: Global) -> TableExtents
        ensures { result ≡ record { small = []; big = [] } }
    {
        TableExtents {
            small: SharedQueue::new(alloc),
            big: SharedList::new(alloc),
        }
    }

    /// The extents of fewer than 4096 records.
    pub fn small(&self) -> &SharedQueue<Extent>
        ensures { result.now ≡ self.now.small }
    {
        &self.small
    }

    /// The others.
    pub fn big(&self) -> &SharedList<Extent>
        ensures { result.now ≡ self.now.big }
    {
        &self.big
    }

    /// The number of extents.
    pub fn len(&self) -> usize
        ensures { result ≡ length (held_extents self.now) }
    {
        let small = self.small.len();
        let big = self.big.len();
        small + big
    }

    pub fn is_empty(&self) -> bool
        ensures { IsTrue result ↔ (held_extents self.now ≡ []) }
    {
        self.len() == 0
    }

    /// Some extents in a row, from a place on, the small ones first: a walk takes them, and goes on behind them.
    pub fn part_from(&self, at: usize) -> &[Arc<Extent, Global>]
        requires { at < length (held_extents self.now) }
        ensures some { 0 < length result.now }
        ensures items { StandsAt (held_extents self.now) at (map arc_value result.now) }
    {
        let small = self.small.len();
        if at < small {
            self.small.part_from(at)
        } else {
            self.big.part_from(at - small)
        }
    }

    /// Puts an extent last among those of its size.
    pub fn push(&mut self, extent: Arc<Extent, Global>) -> Result<(), Memory>
        ensures ok { OnOk result (self.new ≡ put self.old (arc_value extent)) }
        ensures split { OnOk result ((all : List ExtentView) → AreSplit all self.old → AreSplit (all ++ arc_value extent ∷ []) self.new) }
        ensures err { OnErr result (self.new ≡ self.old) }
    {
        if extent.len() < SMALL {
            self.small.push(extent)
        } else {
            self.big.push(extent)
        }
    }

    /// Replaces the first so many small extents by one that comes last among those of its size.
    pub fn merge(&mut self, count: usize, merged: Arc<Extent, Global>) -> Result<(), Memory>
        requires { count ≤ length self.old.small }
        ensures ok { OnOk result (self.new ≡ put (without_first count self.old) (arc_value merged)) }
        ensures split { OnOk result ((all : List ExtentView) → AreSplit all self.old → AreSplit (without count is_small all ++ arc_value merged ∷ []) self.new) }
        ensures err { OnErr result (self.new ≡ self.old) }
    {
        if merged.len() < SMALL {
            self.small.replace_front(count, merged)
        } else {
            self.big.push(merged)?;
            self.small.drop_front(count);
            Ok(())
        }
    }

    /// A second one of the same extents. Few handles are copied.
    pub fn share(&self) -> Result<TableExtents, Memory>
        ensures { IfOk result (λ t. t ≡ self.now) }
    {
        let small = self.small.share()?;
        let big = self.big.share()?;
        Ok(TableExtents { small, big })
    }

    /// The number of records of all extents.
    pub fn count_records(&self) -> u64
        requires { length (held_records self.now) < 2 ^ 63 }
        ensures { result ≡ length (held_records self.now) }
    {
        let len = self.len();
        let mut count = 0;
        let mut at = 0;
        while at < len {
            let part = self.part_from(at);
            count += count_records(part);
            at += part.len();
        }
        count
    }

    /// The rows of all records, widened to the columns.
    pub fn all_rows(&self, alloc: Global, fields: &[Field]) -> Result<Rows, Memory>
        requires { same_width (map row_of (held_records (wide_held fields.now self.now))) }
        ensures { IfOk result (λ rows. rows ≡ map row_of (held_records (wide_held fields.now self.now))) }
    {
        let len = self.len();
        let mut rows = Rows::new(alloc);
        let mut at = 0;
        while at < len {
            let part = self.part_from(at);
            add_rows(part, fields, &mut rows)?;
            at += part.len();
        }
        Ok(rows)
    }
}
