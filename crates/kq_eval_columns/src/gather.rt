// Columns of the rows at some places.
ghost use Rattle.std.specs.Prelude.{◌≡◌, true, map, IfOk};
ghost use Rattle.std.specs.List.{range_with_len};
ghost use Rattle.kq_value.specs.declared.ty.Ty.TheVariants as ty;
ghost use Rattle.kq_value.specs.declared.value.Value.TheVariants.{Null};
ghost use Rattle.kq_eval_row.specs.Val.{cell_of};
ghost use Rattle.kq_store_column_view.specs.Vectors.{cells_of};
ghost use Rattle.kq_eval_columns.specs.Vectors.{rows_at};

use kq_store_column_view::Vector;
use kq_value::{Memory, Ty, Value};
use std::alloc::Global;

/// The cells of one column.
#[tactic(auto, using(crate::proofs::Rows::column_of_rows, crate::proofs::Rows::beyond_of_rows))]
pub fn column_over<'a>(
    alloc: Global,
    j: usize,
    columns: &'a [Vector],
    places: &[usize],
) -> Result<Vector<'a>, Memory>
    ensures { IfOk result (λ c. map (λ r. cell_of r j) (rows_at columns.now places.now) ≡ cells_of c) }
{
    if j < columns.len() {
        let column = gathered(alloc, &columns[j], places)?;
        Ok(column)
    } else {
        Ok(Vector::Same(Value::Null(Ty::Long), places.len()))
    }
}

/// One value for each row.
#[tactic(auto, using(crate::proofs::Rows::filled_over))]
pub fn value_over<'v>(
    value: &Value,
    columns: &[Vector],
    places: &[usize],
) -> Result<Vector<'v>, Memory>
    ensures { IfOk result (λ c. map (λ r. value.now) (rows_at columns.now places.now) ≡ cells_of c) }
{
    let _ = columns;
    Ok(Vector::Same(value.clone_in()?, places.len()))
}

// The cells at these places, lent where these are all, and picked of those that are lent.
fn gathered<'a>(alloc: Global, column: &'a Vector, places: &[usize]) -> Result<Vector<'a>, Memory>
    ensures { IfOk result (λ c. cells_of c ≡ map (cell_of (cells_of column.now)) places.now) }
{
    match column.lend() {
        Some(lent) => lent_at(alloc, lent, places),
        None => column.picked(alloc, places),
    }
}

fn lent_at<'a>(alloc: Global, lent: Vector<'a>, places: &[usize]) -> Result<Vector<'a>, Memory>
    ensures { IfOk result (λ c. cells_of c ≡ map (cell_of (cells_of lent.entry)) places.now) }
{
    if are_all(places, lent.len()) {
        return Ok(lent);
    }
    lent.picked(alloc, places)
}

// Whether these are the places of so many cells, in order.
fn are_all(places: &[usize], count: usize) -> bool
    ensures { result ≡ true → places.now ≡ range_with_len 0 count }
{
    if places.len() != count {
        return false;
    }
    for i in 0..places.len() {
        if places[i] != i {
            return false;
        }
    }
    true
}
