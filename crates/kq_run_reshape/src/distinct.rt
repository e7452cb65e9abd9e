// The different rows of some columns.
ghost use Rattle.std.specs.Prelude.{◌≡◌, IfOk};
ghost use Rattle.kq_run_reshape.specs.Distinct.{Apart, chosen};

use crate::cells::{cell_in, row_in};
use crate::known::Known;
use kq_store_rows::Rows;
use kq_value::{Memory, Row, Value};
use std::alloc::Global;

/// The different rows of these columns, in the order of their first appearance. A column past a row's end is null.
pub fn distinct_rows(alloc: Global, rows: &Rows, columns: &[usize]) -> Result<Rows, Memory>
    ensures { IfOk result (Apart columns.now rows.now) }
{
    let mut known = Known::new(alloc, rows.len())?;
    for i in 0..rows.len() {
        let row = chosen_row(alloc, row_in(rows, i), columns)?;
        if !known.contains(&row) {
            known.push(row)?;
        }
    }
    Ok(known.rows)
}

fn chosen_row(alloc: Global, row: &[Value], columns: &[usize]) -> Result<Row, Memory>
    ensures { IfOk result (λ r. r ≡ chosen columns.now row.now) }
{
    let mut cells = Row::new(alloc);
    for column in columns {
        cells.push(cell_in(row, *column)?)?;
    }
    Ok(cells)
}
