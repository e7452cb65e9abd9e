// Rows taken apart into columns.
ghost use Rattle.std.specs.Prelude.{◌≡◌, ◌<◌, IfOk, length, map};
ghost use Rattle.std.specs.List.{All};
ghost use Rattle.kq_store_frame.specs.Frames.{column_in, columns_in};
ghost use Rattle.kq_store_frame.specs.Series.{cells_in};
ghost use Rattle.kq_store_rows.specs.Chunks.{HasWidth, row_at};
ghost use Rattle.kq_store_column_view.specs.Vectors.{cell_of};

use crate::series::Series;
use kq_store_rows::Rows;
use kq_value::{Memory, Value};
use std::alloc::Global;

// The number of cells of each row, and none where there is no row.
pub(crate) fn width_of(rows: &Rows) -> usize
    ensures { All (HasWidth result) rows.now }
{
    if rows.is_empty() {
        return 0;
    }
    rows.width()
}

// The columns of rows that have so many cells.
pub(crate) fn columns_of(alloc: Global, rows: &Rows, width: usize) -> Result<Vec<Series>, Memory>
    requires { All (HasWidth width) rows.now }
    ensures { IfOk result (λ columns. map cells_in columns.items ≡ columns_in rows.now width) }
{
    let mut columns = Vec::with_capacity(alloc, width)?;
    for column in 0..width {
        let cells = cells_at(alloc, rows, column)?;
        columns.push(Series::Cells(cells))?;
    }
    Ok(columns)
}

// Copies of the cells that rows have in a column.
fn cells_at(alloc: Global, rows: &Rows, column: usize) -> Result<Vec<Value>, Memory>
    requires { All (λ row. column < length row) rows.now }
    ensures { IfOk result (λ cells. cells.items ≡ column_in rows.now column) }
{
    let mut cells = Vec::with_capacity(alloc, rows.len())?;
    for index in 0..rows.len() {
        cells.push(cell_at(rows, index, column)?)?;
    }
    Ok(cells)
}

fn cell_at(rows: &Rows, index: usize, column: usize) -> Result<Value, Memory>
    requires place { index < length rows.now }
    requires within { All (λ row. column < length row) rows.now }
    ensures { IfOk result (λ cell. cell ≡ cell_of (row_at rows.now index) column) }
{
    let row = rows.row(index);
    row[column].clone_in()
}
