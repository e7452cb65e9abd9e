// Rows that are kept column by column.
ghost use Rattle.std.specs.Prelude.{◌≡◌, ◌↔◌, ◌<◌, ◌≤◌, ◌-◌, ◌++◌, ◌^◌, [], IfOk, IfSome, IsNone, OnOk, OnErr, Some, length, map, slice_get, take, drop, unwrap_or};
ghost use Rattle.std.specs.List.{All, range_with_len};
ghost use Rattle.kq_value.specs.Typed.{HasTypes};
ghost use Rattle.kq_store_rows.specs.Chunks.{row_at, same_width};
ghost use Rattle.kq_store_column.specs.Bounds.{AreBounds};
ghost use Rattle.kq_store_column.specs.Cells.{column_of, IsAtMost};
ghost use Rattle.kq_store_extent.specs.Cells.{cells_of};
ghost use Rattle.kq_store_extent.specs.Columns.{missing, rows_across, AreWhole};
ghost use Rattle.kq_store_rows.specs.Widened.{missing_at, widened};
ghost use Rattle.kq_store_column_view.specs.Vectors.{cell_of, cells_of as cells_seen};

use kq_store_column::Column;
use kq_store_column_view::Vector;
use kq_store_rows::{Rows, missing_cell, widen};
use kq_value::{Field, Memory, Schema, Ty, Value};
use std::alloc::Global;
use std::marker::Model;

/// Rows in columns. Contracts see the list of the rows.
#[derive(Drop)]
pub struct Columns {
    columns: Vec<Column>,
    count: usize,
}

impl Model for Columns {
    ghost use Rattle.std.specs.Prelude.{List};
    ghost use Rattle.kq_value.specs.declared.value.Value.{Value as Cell};
    ghost use Rattle.std.specs.Coded.{coded_list};
    ghost use Rattle.kq_value.specs.contracts.value.Value as cell;
    ghost use Rattle.kq_store_extent.specs.Columns.{rows_across, AreWhole};

    ghost Value = { List (List Cell) };

    ghost coded = { coded_list (coded_list cell.the_row.coded) };

    ghost view = { λ c. rows_across c.columns.items c.count };

    ghost invariant = { λ c. AreWhole c.columns.items c.count };
}

fn columns_of(alloc: Global, schema: &Schema, rows: &Rows) -> Result<Vec<Column>, Memory>
    requires { All (HasTypes schema.now) rows.now }
    ensures { IfOk result (λ cs. cs.items ≡ map (λ j. column_of j rows.now) (range_with_len 0 (length schema.now))) }
{
    let mut columns = Vec::new(alloc);
    let fields = schema.as_slice();
    for j in 0..fields.len() {
        let column = Column::build(alloc, fields[j].ty, rows, j)?;
        columns.push(column)?;
    }
    Ok(columns)
}

// What stands in a column that rows lack, and a null where there is no such column.
fn missing_or_null(alloc: Global, fields: &[Field], column: usize) -> Result<Value, Memory>
    ensures { IfOk result (λ v. v ≡ unwrap_or (missing_at fields.now column) missing) }
{
    match missing_cell(alloc, fields, column)? {
        Some(cell) => Ok(cell),
        None => Ok(Value::Null(Ty::Long)),
    }
}

impl Columns {
    /// The rows that have these cells.
    pub(crate) fn from_parts(columns: Vec<Column>, count: usize) -> Columns
        requires { AreWhole columns.items count }
        ensures { result ≡ rows_across columns.items count }
    {
        Columns { columns, count }
    }

    pub(crate) fn build(alloc: Global, schema: &Schema, rows: &Rows) -> Result<Columns, Memory>
        requires { All (HasTypes schema.now) rows.now }
        ensures { IfOk result (λ c. c ≡ rows.now) }
    {
        let columns = columns_of(alloc, schema, rows)?;
        Ok(Columns {
            columns,
            count: rows.len(),
        })
    }

    pub fn len(&self) -> usize
        ensures count { result ≡ length self.now }
        ensures small { result < 2 ^ 63 }
    {
        self.count
    }

    /// The least and the greatest cell of a column, nulls aside.
    pub(crate) fn zone(&self, column: usize) -> Option<(&Value, &Value)>
        ensures none { IsNone result ↔ (cells_of column self.now ≡ []) }
        ensures bounds { IfSome result (λ zone. AreBounds IsAtMost (cells_of column self.now) zone.0.now zone.1.now) }
    {
        if column < self.columns.len() {
            self.columns[column].zone()
        } else {
            None
        }
    }

    /// The cell of a row in a column, or none where there is no such column.
    pub(crate) fn cell(&self, index: usize, column: usize) -> Result<Option<Value>, Memory>
        requires { index < length self.now }
        ensures { IfOk result (λ cell. cell ≡ slice_get (row_at self.now index) column) }
    {
        if column < self.columns.len() {
            Ok(Some(self.columns[column].cell(index)?))
        } else {
            Ok(None)
        }
    }

    /// The cell of a row in a column, or what stands there under these columns where the row has none.
    pub(crate) fn cell_under(
        &self,
        fields: &[Field],
        index: usize,
        column: usize,
    ) -> Result<Option<Value>, Memory>
        requires { index < length self.now }
        ensures { IfOk result (λ cell. cell ≡ slice_get (widened fields.now (row_at self.now index)) column) }
    {
        match self.cell(index, column)? {
            Some(cell) => Ok(Some(cell)),
            None => missing_cell(*self.columns.allocator(), fields, column),
        }
    }

    /// The cells that the rows from a place on, up to another, have in a column under these columns; lent where they lie so.
    pub(crate) fn lend(
        &self,
        fields: &[Field],
        column: usize,
        from: usize,
        to: usize,
    ) -> Result<Vector<'_>, Memory>
        requires { (from ≤ to) × (to ≤ length self.now) }
        ensures { IfOk result (λ v. cells_seen v ≡ map (λ r. cell_of r column) (take (to - from) (drop from (map (widened fields.now) self.now)))) }
    {
        if column < self.columns.len() {
            let cells = self.columns[column].lend(from, to)?;
            Ok(cells)
        } else {
            let cell = missing_or_null(*self.columns.allocator(), fields, column)?;
            Ok(Vector::Same(cell, to - from))
        }
    }

    // Fills a row that is empty with the cells of one row.
    fn fill(&self, index: usize, row: &mut Vec<Value>) -> Result<(), Memory>
        requires place { index < length self.now }
        requires empty { row.old.items ≡ [] }
        ensures { OnOk result (slice_get self.now index ≡ Some row.new.items) }
    {
        for column in &self.columns {
            let cell = column.cell(index)?;
            row.push(cell)?;
        }
        Ok(())
    }

    // Adds all rows, widened to the columns, behind others, or some of them where memory is refused.
    fn push_rows(&self, fields: &[Field], rows: &mut Rows) -> Result<(), Memory>
        requires { same_width (rows.old ++ map (widened fields.now) self.now) }
        ensures ok { OnOk result (rows.new ≡ rows.old ++ map (widened fields.now) self.now) }
        ensures kept { OnErr result (take (length rows.old) rows.new ≡ rows.old) }
    {
        let mut row = Vec::new(*self.columns.allocator());
        for index in 0..self.len() {
            self.fill(index, &mut row)?;
            widen(fields, &mut row)?;
            rows.push_from(&mut row)?;
        }
        Ok(())
    }

    /// The rows, side by side.
    pub fn to_rows(&self) -> Result<Rows, Memory>
        requires { same_width self.now }
        ensures { IfOk result (λ rows. rows ≡ self.now) }
    {
        let mut rows = Rows::new(*self.columns.allocator());
        self.push_rows(&[], &mut rows)?;
        Ok(rows)
    }

    /// Adds all rows, widened to the columns, behind others.
    pub(crate) fn add_rows(&self, fields: &[Field], rows: &mut Rows) -> Result<(), Memory>
        requires { same_width (rows.old ++ map (widened fields.now) self.now) }
        ensures ok { OnOk result (rows.new ≡ rows.old ++ map (widened fields.now) self.now) }
        ensures err { OnErr result (rows.new ≡ rows.old) }
    {
        let before = rows.len();
        match self.push_rows(fields, rows) {
            Ok(()) => Ok(()),
            Err(memory) => {
                rows.truncate(before);
                Err(memory)
            }
        }
    }
}
