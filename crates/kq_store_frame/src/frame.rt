// Rows in columns of their own.
ghost use Rattle.std.specs.Prelude.{◌≡◌, ◌<◌, ◌≤◌, ◌-◌, ◌^◌, [], IfOk, IfSome, OnOk, drop, length, map, slice_get, take};
ghost use Rattle.std.specs.List.{All};
ghost use Rattle.kq_store_frame.specs.Frames.{AreWhole, rows_across};
ghost use Rattle.kq_store_frame.specs.Series.{cells_in};
ghost use Rattle.kq_store_rows.specs.Chunks.{HasWidth, row_at};
ghost use Rattle.kq_store_column_view.specs.Vectors.{cell_of, cells_of};

use crate::columns::{columns_of, width_of};
use crate::series::Series;
use kq_store_column_view::Vector;
use kq_store_rows::Rows;
use kq_value::{Memory, Value};
use std::alloc::Global;
use std::marker::Model;

/// Rows in columns of their own. Contracts see the list of the rows.
#[derive(Drop)]
pub struct Frame {
    columns: Vec<Series>,
    count: usize,
}

impl Model for Frame {
    ghost use Rattle.std.specs.Prelude.{List, map};
    ghost use Rattle.kq_value.specs.declared.value.Value.{Value as Cell};
    ghost use Rattle.std.specs.Coded.{coded_list};
    ghost use Rattle.kq_value.specs.contracts.value.Value as cell;
    ghost use Rattle.kq_store_frame.specs.Frames.{AreWhole, rows_across};
    ghost use Rattle.kq_store_frame.specs.Series.{cells_in};

    ghost Value = { List (List Cell) };

    ghost coded = { coded_list (coded_list cell.the_row.coded) };

    ghost view = { λ f. rows_across (map cells_in f.columns.items) f.count };

    ghost invariant = { λ f. AreWhole (map cells_in f.columns.items) f.count };
}

impl Frame {
    /// The rows that have these cells, so many.
    pub fn of(columns: Vec<Series>, count: usize) -> Frame
        requires { AreWhole (map cells_in columns.items) count }
        ensures { result ≡ rows_across (map cells_in columns.items) count }
    {
        Frame { columns, count }
    }

    /// The rows in columns, with copies of their cells. Where there is no row there is no column.
    pub fn of_rows(alloc: Global, rows: &Rows) -> Result<Frame, Memory>
        ensures { IfOk result (λ frame. frame ≡ rows.now) }
    {
        let width = width_of(rows);
        let columns = columns_of(alloc, rows, width)?;
        Ok(Frame::of(columns, rows.len()))
    }

    pub fn len(&self) -> usize
        ensures count { result ≡ length self.now }
        ensures small { result < 2 ^ 63 }
    {
        self.count
    }

    /// The number of cells of each row.
    pub fn width(&self) -> usize
        ensures { All (HasWidth result) self.now }
    {
        self.columns.len()
    }

    /// A copy of the cell of a row in a column, or none where there is no such column.
    pub fn cell(&self, index: usize, column: usize) -> Result<Option<Value>, Memory>
        requires { index < length self.now }
        ensures { IfOk result (λ cell. cell ≡ slice_get (row_at self.now index) column) }
    {
        if column < self.columns.len() {
            Ok(Some(self.columns[column].cell(index)?))
        } else {
            Ok(None)
        }
    }

    /// A column of the rows from a place on, up to another, lent. None where there is no such column.
    pub fn lend(&self, column: usize, from: usize, to: usize) -> Option<Vector<'_>>
        requires { (from ≤ to) × (to ≤ length self.now) }
        ensures { IfSome result (λ v. cells_of v ≡ map (λ r. cell_of r column) (take (to - from) (drop from self.now))) }
    {
        if column < self.columns.len() {
            Some(self.columns[column].lend(from, to))
        } else {
            None
        }
    }

    /// Copies of the first rows, so many or all.
    pub fn first(&self, alloc: Global, count: u64) -> Result<Frame, Memory>
        ensures { IfOk result (λ few. few ≡ take count self.now) }
    {
        let end = count.min(self.len() as u64) as usize;
        let columns = self.first_cells(alloc, end)?;
        Ok(Frame {
            columns,
            count: end,
        })
    }

    // Copies of the first cells of each column.
    fn first_cells(&self, alloc: Global, count: usize) -> Result<Vec<Series>, Memory>
        requires { count ≤ length self.now }
        ensures rows { IfOk result (λ columns. rows_across (map cells_in columns.items) count ≡ take count self.now) }
        ensures whole { IfOk result (λ columns. AreWhole (map cells_in columns.items) count) }
    {
        let mut few = Vec::with_capacity(alloc, self.columns.len())?;
        for column in &self.columns {
            few.push(column.first(alloc, count)?)?;
        }
        Ok(few)
    }

    /// The rows, side by side.
    pub fn to_rows(&self, alloc: Global) -> Result<Rows, Memory>
        ensures { IfOk result (λ rows. rows ≡ self.now) }
    {
        let width = self.width();
        let mut rows = Rows::new(alloc);
        let mut row = Vec::with_capacity(alloc, width)?;
        for index in 0..self.len() {
            self.fill(index, &mut row)?;
            rows.push_from(&mut row)?;
        }
        Ok(rows)
    }

    // Fills a row that is empty with copies of the cells of one row.
    fn fill(&self, index: usize, row: &mut Vec<Value>) -> Result<(), Memory>
        requires place { index < length self.now }
        requires empty { row.old.items ≡ [] }
        ensures { OnOk result (row.new.items ≡ row_at self.now index) }
    {
        for column in &self.columns {
            row.push(column.cell(index)?)?;
        }
        Ok(())
    }
}
