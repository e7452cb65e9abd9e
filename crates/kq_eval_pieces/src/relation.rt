// Where rows stand.
ghost use Rattle.std.specs.Prelude.{◌≡◌, ◌<◌, ◌≤◌, ◌^◌, IfOk, IfSome, length, map, slice_get};
ghost use Rattle.kq_store_rows.specs.Chunks.{row_at};
ghost use Rattle.kq_store_column_view.specs.Vectors.{cells_of};
ghost use Rattle.kq_eval_columns.specs.kq_eval_row.Val.{cell_of};
ghost use Rattle.kq_eval_pieces.specs.Pieces.{column_of, piece_of};

use crate::numbers::{numbers_at, numbers_between};
use kq_eval_columns::Vector;
use kq_store_rows::Rows;
use kq_value::{Memory, Ty, Value};
use std::alloc::Global;

/// Rows, in whatever form their cells are kept.
pub trait Relation {
    ghost use Rattle.std.specs.Prelude.{List};
    ghost use Rattle.kq_value.specs.declared.value.Value.{Value as Cell};

    /// The rows in order.
    ghost rows: { Self → List (List Cell) };

    /// The number of rows.
    fn len(&self) -> usize
        ensures count { result ≡ length (rows self.now) }
        ensures small { result < 2 ^ 63 };

    /// A copy of the cell of a row in a column, or none where the row ends before it.
    fn cell(&self, i: usize, j: usize) -> Result<Option<Value>, Memory>
        requires { i < length (rows self.now) }
        ensures { IfOk result (λ cell. cell ≡ slice_get (row_at (rows self.now) i) j) };

    /// A column of the rows from a place on, up to another: lent where it lies, or made of numbers. None where a copy of each cell is as good.
    fn lend(
        &self,
        alloc: Global,
        j: usize,
        from: usize,
        to: usize,
    ) -> Result<Option<Vector<'_>>, Memory>
        requires { (from ≤ to) × (to ≤ length (rows self.now)) }
        ensures { IfOk result (λ o. IfSome o (λ v. cells_of v ≡ column_of j (piece_of (rows self.now) from to))) };

    /// The column of the rows at these places, or none likewise. Cells may be copied.
    fn pick(&self, alloc: Global, j: usize, places: &[usize]) -> Result<Option<Vector<'_>>, Memory>
        ensures { IfOk result (λ o. IfSome o (λ v. cells_of v ≡ map (λ p. cell_of (row_at (rows self.now) p) j) places.now)) };
}

impl Relation for Rows {
    ghost rows = { λ rows. rows };

    fn len(&self) -> usize {
        Rows::len(self)
    }

    fn cell(&self, i: usize, j: usize) -> Result<Option<Value>, Memory> {
        copy_of(row_in(self, i), j)
    }

    fn lend(
        &self,
        alloc: Global,
        j: usize,
        from: usize,
        to: usize,
    ) -> Result<Option<Vector<'_>>, Memory> {
        numbers_between(alloc, self, j, from, to)
    }

    fn pick(
        &self,
        alloc: Global,
        j: usize,
        places: &[usize],
    ) -> Result<Option<Vector<'_>>, Memory> {
        numbers_at(alloc, self, j, places)
    }
}

fn row_in(rows: &Rows, i: usize) -> &[Value]
    requires { i < length rows.now }
    ensures { result.now ≡ row_at rows.now i }
{
    rows.row(i)
}

fn copy_of(row: &[Value], j: usize) -> Result<Option<Value>, Memory>
    ensures { IfOk result (λ cell. cell ≡ slice_get row.now j) }
{
    match row.get(j) {
        Some(cell) => Ok(Some(cell.clone_in()?)),
        None => Ok(None),
    }
}

// A copy of the cell, and a null where the row ends before it.
pub(crate) fn cell_or_null<R: Relation>(relation: &R, i: usize, j: usize) -> Result<Value, Memory>
    requires { i < length (R.rows relation.now) }
    ensures { IfOk result (λ v. v ≡ cell_of (row_at (R.rows relation.now) i) j) }
{
    match relation.cell(i, j)? {
        Some(cell) => Ok(cell),
        None => Ok(Value::Null(Ty::Long)),
    }
}
