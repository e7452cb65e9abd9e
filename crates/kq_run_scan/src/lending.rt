// The extents of a table under its columns.
ghost use Rattle.std.specs.Prelude.{◌≡◌, ◌<◌, ◌^◌, IfOk, Some, length, map, slice_get};
ghost use Rattle.kq_store_rows.specs.Chunks.{same_width};
ghost use Rattle.kq_store_extent.specs.Seen.{held_extents, held_records, row_of};
ghost use Rattle.kq_store_extent.specs.Wide.{wide_held};
ghost use Rattle.kq_run_scan.specs.Lent.{extent_of};

use crate::records::Records;
use kq_store_extent::TableExtents;
use kq_store_rows::Rows;
use kq_value::{Memory, Schema};
use std::alloc::Global;
use std::marker::Model;

// Extents and the columns under which their records are read. Contracts see the extents with their records widened to the columns.
#[derive(Drop)]
pub(crate) struct Lending {
    extents: TableExtents,
    schema: Schema,
}

impl Model for Lending {
    ghost use Rattle.std.specs.Coded.{codes};
    ghost use Rattle.kq_value.specs.contracts.record.Record as held;
    ghost use Rattle.kq_store_extent.specs.Seen.{HeldExtents};
    ghost use Rattle.kq_store_extent.specs.Wide.{wide_held};

    ghost Value = { HeldExtents };

    ghost coded = { Prim.hlevel (codes, held.the_row.coded) };

    ghost view = { λ l. wide_held l.schema l.extents };
}

impl Lending {
    pub fn new(extents: TableExtents, schema: Schema) -> Lending
        ensures { result ≡ wide_held schema extents }
    {
        Lending { extents, schema }
    }

    /// A second one of the same extents, which are shared.
    pub fn share(&self) -> Result<Lending, Memory>
        ensures { IfOk result (λ l. l ≡ self.now) }
    {
        let extents = self.extents.share()?;
        let schema = self.schema.clone_in()?;
        Ok(Lending { extents, schema })
    }

    /// The number of extents.
    pub fn len(&self) -> usize
        ensures { result ≡ length (held_extents self.now) }
    {
        self.extents.len()
    }

    /// The records of an extent.
    pub fn records_at(&self, at: usize) -> Records<'_>
        requires { at < length (held_extents self.now) }
        ensures { slice_get (held_extents self.now) at ≡ Some (extent_of result) }
    {
        Records {
            extent: &self.extents.part_from(at)[0],
            fields: self.schema.as_slice(),
        }
    }

    /// The number of records of all extents.
    pub fn count_records(&self) -> u64
        requires { length (held_records self.now) < 2 ^ 63 }
        ensures { result ≡ length (held_records self.now) }
    {
        self.extents.count_records()
    }

    /// The rows of all records.
    pub fn all_rows(&self, alloc: Global) -> Result<Rows, Memory>
        requires { same_width (map row_of (held_records self.now)) }
        ensures { IfOk result (λ rows. rows ≡ map row_of (held_records self.now)) }
    {
        self.extents.all_rows(alloc, self.schema.as_slice())
    }
}
