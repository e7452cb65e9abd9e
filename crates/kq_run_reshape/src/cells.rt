// Cells and rows, lent.
ghost use Rattle.std.specs.Prelude.{◌≡◌, ◌↔◌, ◌<◌, IfOk, IsTrue, length};
ghost use Rattle.kq_store_rows.specs.Chunks.{row_at};
ghost use Rattle.kq_run_reshape.specs.Cells.{cell_at};
ghost use Rattle.kq_value.specs.Values.{is_same};
ghost use Rattle.std.specs.Cmp.Lexicographic.{pointwise};

use kq_store_rows::Rows;
use kq_value::{Memory, Ty, Value};

pub(crate) fn row_in(rows: &Rows, i: usize) -> &[Value]
    requires { i < length rows.now }
    ensures { result.now ≡ row_at rows.now i }
{
    rows.row(i)
}

// A copy of the cell of a column, and a null past the end.
pub(crate) fn cell_in(row: &[Value], column: usize) -> Result<Value, Memory>
    ensures { IfOk result (λ v. v ≡ cell_at row.now column) }
{
    if column < row.len() {
        row[column].clone_in()
    } else {
        Ok(Value::Null(Ty::Long))
    }
}

// Whether the two have the same cells in the same order.
pub(crate) fn same_cells(a: &[Value], b: &[Value]) -> bool
    ensures { IsTrue result ↔ (a.now ≡ b.now) }
{
    are_same(a, b)
}

fn are_same(a: &[Value], b: &[Value]) -> bool
    ensures { result ≡ pointwise is_same a.now b.now }
{
    if a.len() != b.len() {
        return false;
    }
    for i in 0..a.len() {
        if !a[i].same(&b[i]) {
            return false;
        }
    }
    true
}
