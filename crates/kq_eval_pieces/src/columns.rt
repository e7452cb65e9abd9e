// The columns of a piece of rows.
ghost use Rattle.std.specs.Prelude.{◌≡◌, ◌≤◌, IfOk, length};
ghost use Rattle.std.specs.List.{All};
ghost use Rattle.kq_store_column_view.specs.Vectors.{cells_of};
ghost use Rattle.kq_eval_pieces.specs.Pieces.{Hold, column_of, piece_of};

use crate::reads::width_of;
use crate::relation::{Relation, cell_or_null};
use kq_eval_columns::Vector;
use kq_value::{Memory, Value};
use std::alloc::Global;

// The columns with these numbers, of the rows from a place on, up to another; the other columns are empty.
pub(crate) fn columns_in<'a, R: Relation>(
    alloc: Global,
    relation: &'a R,
    from: usize,
    to: usize,
    reads: &[usize],
) -> Result<Vec<Vector<'a>>, Memory>
    requires { (from ≤ to) × (to ≤ length (R.rows relation.now)) }
    ensures { IfOk result (λ columns. Hold columns.items (piece_of (R.rows relation.now) from to) reads.now) }
{
    let width = width_of(reads)?;
    let mut columns = Vec::with_capacity(alloc, width)?;
    for j in 0..width {
        columns.push(column_if_read(alloc, relation, from, to, reads, j)?)?;
    }
    Ok(columns)
}

fn column_if_read<'a, R: Relation>(
    alloc: Global,
    relation: &'a R,
    from: usize,
    to: usize,
    reads: &[usize],
    j: usize,
) -> Result<Vector<'a>, Memory>
    requires { (from ≤ to) × (to ≤ length (R.rows relation.now)) }
    ensures { IfOk result (λ c. All (λ k. k ≡ j → cells_of c ≡ column_of k (piece_of (R.rows relation.now) from to)) reads.now) }
{
    if reads.contains(&j) {
        column_in(alloc, relation, from, to, j)
    } else {
        Ok(Vector::Cells(Vec::new(alloc)))
    }
}

// A column as it is lent, or of copies.
pub(crate) fn column_in<'a, R: Relation>(
    alloc: Global,
    relation: &'a R,
    from: usize,
    to: usize,
    j: usize,
) -> Result<Vector<'a>, Memory>
    requires { (from ≤ to) × (to ≤ length (R.rows relation.now)) }
    ensures { IfOk result (λ c. cells_of c ≡ column_of j (piece_of (R.rows relation.now) from to)) }
{
    match relation.lend(alloc, j, from, to)? {
        Some(lent) => Ok(lent),
        None => Ok(Vector::Cells(cells_in(alloc, relation, from, to, j)?)),
    }
}

// Copies of the cells of a column, of the rows from a place on, up to another.
pub(crate) fn cells_in<R: Relation>(
    alloc: Global,
    relation: &R,
    from: usize,
    to: usize,
    j: usize,
) -> Result<Vec<Value>, Memory>
    requires { (from ≤ to) × (to ≤ length (R.rows relation.now)) }
    ensures { IfOk result (λ v. v.items ≡ column_of j (piece_of (R.rows relation.now) from to)) }
{
    let mut cells = Vec::with_capacity(alloc, to - from)?;
    for i in from..to {
        cells.push(cell_or_null(relation, i, j)?)?;
    }
    Ok(cells)
}
