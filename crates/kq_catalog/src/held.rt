// Tables with their extents.
ghost use Rattle.std.specs.Prelude.{◌≡◌, ◌≤◌, IfOk, length};
ghost use Rattle.std.specs.Arc.{arc_value};
ghost use Rattle.kq_catalog.specs.Edits.{empty_table, with_extent, with_merged, wider_table};

use kq_catalog_journal::Table;
use kq_store_extent::{Extent, TableExtents};
use kq_store_rows::with_columns;
use kq_value::{Memory, Schema};
use std::alloc::Global;
use std::marker::Model;
use std::sync::Arc;

// A table with its extents. Copies share both.
#[derive(Drop)]
pub(crate) struct HeldTable {
    table: Arc<Table, Global>,
    extents: TableExtents,
}

impl Model for HeldTable {
    ghost use Rattle.std.specs.Arc.{arc_value};
    ghost use Rattle.std.specs.Coded.{codes};
    ghost use Rattle.kq_value.specs.contracts.value.Value as cell;
    ghost use Rattle.kq_catalog.specs.Held.{HeldTable as Seen};

    ghost Value = { Seen };

    ghost coded = { Prim.hlevel (codes, cell.the_row.coded) };

    ghost view = { λ h. record { table = arc_value h.table; extents = h.extents } };
}

impl HeldTable {
    pub(crate) fn new(alloc: Global, table: Arc<Table, Global>) -> HeldTable
        ensures { result ≡ empty_table (arc_value table) }
    {
        HeldTable {
            table,
            extents: TableExtents::new(alloc),
        }
    }

    pub(crate) fn table(&self) -> &Table
        ensures { result.now ≡ self.now.table }
    {
        &self.table
    }

    pub(crate) fn extents(&self) -> &TableExtents
        ensures { result.now ≡ self.now.extents }
    {
        &self.extents
    }

    // The table with further columns, set at a cursor. Its extents stay as they are.
    pub(crate) fn with_columns(
        &self,
        alloc: Global,
        cursor: u64,
        columns: Schema,
    ) -> Result<HeldTable, Memory>
        ensures { IfOk result (λ h. h ≡ wider_table cursor columns self.now) }
    {
        let table = Table {
            name: self.table.name.clone_in()?,
            schema: with_columns(&self.table.schema, columns)?,
            made: self.table.made,
            widened: cursor,
        };
        Ok(HeldTable {
            table: Arc::new(alloc, table)?,
            extents: self.extents.share()?,
        })
    }

    // The table with an extent more.
    pub(crate) fn with_extent(&self, extent: Arc<Extent, Global>) -> Result<HeldTable, Memory>
        ensures { IfOk result (λ h. h ≡ with_extent (arc_value extent) self.now) }
    {
        let mut extents = self.extents.share()?;
        extents.push(extent)?;
        let table = Arc::try_clone(&self.table)?;
        Ok(HeldTable { table, extents })
    }

    // The table with so many of its first small extents replaced by one.
    pub(crate) fn with_merged(
        &self,
        count: usize,
        extent: Arc<Extent, Global>,
    ) -> Result<HeldTable, Memory>
        requires { count ≤ length self.now.extents.small }
        ensures { IfOk result (λ h. h ≡ with_merged count (arc_value extent) self.now) }
    {
        let mut extents = self.extents.share()?;
        extents.merge(count, extent)?;
        let table = Arc::try_clone(&self.table)?;
        Ok(HeldTable { table, extents })
    }
}
