// The rows of a union.
ghost use Rattle.std.specs.Prelude.{◌≡◌, ◌++◌, IfOk, OnOk, None, length, map, slice_index_or};
ghost use Rattle.std.specs.List.{All};
ghost use Rattle.kq_store_rows.specs.Chunks.{HasWidth};
ghost use Rattle.kq_run_reshape.specs.Union.{filled, filling};

use crate::cells::{cell_in, row_in};
use kq_store_rows::Rows;
use kq_value::{Field, Memory, Ty, Value};
use std::alloc::Global;

/// Puts the rows of an arm of a union last, by the number of the arm's column that fills each of the union's. Where none does, the cells
/// are null, or empty for a string. A column past a row's end is null.
pub fn append_arm(
    alloc: Global,
    union: &mut Rows,
    rows: &Rows,
    cells: &[Option<usize>],
    columns: &[Field],
) -> Result<(), Memory>
    requires { All (HasWidth (length columns.now)) union.old }
    ensures rows { OnOk result (union.new ≡ union.old ++ map (filled columns.now cells.now) rows.now) }
    ensures wide { OnOk result (All (HasWidth (length columns.now)) union.new) }
{
    for i in 0..rows.len() {
        let mut row = filled_row(alloc, row_in(rows, i), cells, columns)?;
        union.push_from(&mut row)?;
    }
    Ok(())
}

fn filled_row(
    alloc: Global,
    row: &[Value],
    cells: &[Option<usize>],
    columns: &[Field],
) -> Result<Vec<Value>, Memory>
    ensures cells { IfOk result (λ vs. vs.items ≡ filled columns.now cells.now row.now) }
    ensures wide { IfOk result (λ vs. length vs.items ≡ length columns.now) }
{
    let mut values = Vec::new(alloc);
    for (i, field) in columns.iter().enumerate() {
        values.push(filling_cell(alloc, row, cells, i, field.ty)?)?;
    }
    Ok(values)
}

// The cell of the union's column at this place.
fn filling_cell(
    alloc: Global,
    row: &[Value],
    cells: &[Option<usize>],
    i: usize,
    ty: Ty,
) -> Result<Value, Memory>
    ensures { IfOk result (λ v. v ≡ filling (slice_index_or cells.now i None) ty row.now) }
{
    let column = if i < cells.len() { cells[i] } else { None };
    match column {
        Some(column) => cell_in(row, column),
        None => Value::missing(alloc, ty),
    }
}
