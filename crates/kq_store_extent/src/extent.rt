// Extents.
ghost use Rattle.std.specs.Prelude.{◌≡◌, ◌↔◌, ◌<◌, ◌≤◌, ◌-◌, ◌++◌, ◌^◌, [], IfOk, IfSome, IsNone, IsTrue, OnOk, OnErr, Some, length, map, slice_get, take, drop};
ghost use Rattle.kq_store_rows.specs.Chunks.{row_at, same_width};
ghost use Rattle.kq_store_column.specs.Bounds.{AreBounds};
ghost use Rattle.kq_store_column.specs.Cells.{IsAtMost};
ghost use Rattle.kq_store_extent.specs.Cells.{cells_at, cursors_of};
ghost use Rattle.kq_store_extent.specs.Wide.{wide};
ghost use Rattle.kq_store_column_view.specs.Vectors.{cell_of, cells_of};

use crate::columns::Columns;
use crate::runs::Runs;
use kq_store_column_view::Vector;
use kq_store_rows::Rows;
use kq_value::{Field, Memory, RecordId, Tags, Value};
use std::marker::Model;

/// Records that were put in together, column by column. None of it changes.
#[derive(Drop)]
pub struct Extent {
    id: u64,
    runs: Runs,
    columns: Columns,
    tags: Tags,
}

impl Model for Extent {
    ghost use Rattle.std.specs.Prelude.{◌≡◌, length};
    ghost use Rattle.std.specs.Coded.{codes};
    ghost use Rattle.kq_value.specs.contracts.record.Record as held;
    ghost use Rattle.kq_store_extent.specs.Seen.{ExtentView};
    ghost use Rattle.kq_store_extent.specs.Runs.{named};

    ghost Value = { ExtentView };

    ghost coded = { Prim.hlevel (codes, held.the_row.coded) };

    ghost view = { λ e. record { id = e.id; records = named e.runs e.columns; tags = e.tags } };

    ghost invariant = { λ e. length e.runs ≡ length e.columns };
}

impl Extent {
    ghost use Rattle.kq_store_extent.specs.Seen.{row_of, id_of};
    ghost use Rattle.kq_store_extent.specs.Runs.{named};

    pub(crate) fn from_parts(id: u64, runs: Runs, columns: Columns, tags: Tags) -> Extent
        requires { length runs ≡ length columns }
        ensures { result ≡ record { id = id; records = named runs columns; tags = tags } }
    {
        Extent {
            id,
            runs,
            columns,
            tags,
        }
    }

    /// The same records and tags under another id. It takes no memory.
    pub fn with_id(self, id: u64) -> Extent
        ensures { result ≡ record { id = id; records = self.records; tags = self.tags } }
    {
        Extent { id, ..self }
    }

    pub fn id(&self) -> u64
        ensures { result ≡ self.now.id }
    {
        self.id
    }

    /// The number of records.
    pub fn len(&self) -> usize
        ensures count { result ≡ length self.now.records }
        ensures small { result < 2 ^ 63 }
    {
        self.columns.len()
    }

    pub fn is_empty(&self) -> bool
        ensures { IsTrue result ↔ (self.now.records ≡ []) }
    {
        self.len() == 0
    }

    /// The id of a record.
    pub fn id_of(&self, index: usize) -> RecordId
        requires { index < length self.now.records }
        ensures { slice_get (map id_of self.now.records) index ≡ Some result }
    {
        self.runs.id_of(index)
    }

    pub fn tags(&self) -> &Tags
        ensures { result.now ≡ self.now.tags }
    {
        &self.tags
    }

    /// The cell of a record in a column, or what stands there under these columns where the record has none.
    pub fn cell_under(
        &self,
        fields: &[Field],
        index: usize,
        column: usize,
    ) -> Result<Option<Value>, Memory>
        requires { index < length self.now.records }
        ensures { IfOk result (λ cell. cell ≡ slice_get (row_at (map row_of (wide fields.now self.now).records) index) column) }
    {
        self.columns.cell_under(fields, index, column)
    }

    /// The cells that the records from a place on, up to another, have in a column under these columns; lent where they lie so.
    pub fn lend(
        &self,
        fields: &[Field],
        column: usize,
        from: usize,
        to: usize,
    ) -> Result<Vector<'_>, Memory>
        requires { (from ≤ to) × (to ≤ length self.now.records) }
        ensures { IfOk result (λ v. cells_of v ≡ map (λ r. cell_of r column) (take (to - from) (drop from (map row_of (wide fields.now self.now).records)))) }
    {
        self.columns.lend(fields, column, from, to)
    }

    /// Adds the rows of all records, widened to the columns, behind others.
    pub fn add_rows(&self, fields: &[Field], rows: &mut Rows) -> Result<(), Memory>
        requires { same_width (rows.old ++ map row_of (wide fields.now self.now).records) }
        ensures ok { OnOk result (rows.new ≡ rows.old ++ map row_of (wide fields.now self.now).records) }
        ensures err { OnErr result (rows.new ≡ rows.old) }
    {
        self.columns.add_rows(fields, rows)
    }

    // Adds the ids of all records behind others.
    pub(crate) fn add_ids(&self, runs: &mut Runs) -> Result<(), Memory>
        ensures { OnOk result (runs.new ≡ runs.old ++ map id_of self.now.records) }
    {
        runs.extend(&self.runs)
    }

    /// The least and the greatest cell of a column, nulls aside. It was found as the extent was built.
    pub fn zone(&self, column: usize) -> Option<(&Value, &Value)>
        ensures none { IsNone result ↔ (cells_at column self.now.records ≡ []) }
        ensures bounds { IfSome result (λ zone. AreBounds IsAtMost (cells_at column self.now.records) zone.0.now zone.1.now) }
    {
        self.columns.zone(column)
    }

    /// The least and the greatest cursor of the records.
    pub fn cursors(&self) -> Option<(u64, u64)>
        ensures none { IsNone result ↔ (self.now.records ≡ []) }
        ensures bounds { IfSome result (λ cursors. AreBounds ◌≤◌ (cursors_of self.now.records) cursors.0 cursors.1) }
    {
        self.runs.cursors()
    }
}
