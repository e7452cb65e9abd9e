// Pieces of rows.
ghost use Rattle.std.specs.Prelude.{◌≡◌, ◌<◌, ◌≤◌, ◌^◌, IfOk, IfSome, length, map, slice_get};
ghost use Rattle.kq_store_rows.specs.Chunks.{row_at, same_width};
ghost use Rattle.kq_store_column_view.specs.Vectors.{cells_of};
ghost use Rattle.kq_eval_pieces.specs.Pieces.{column_of, piece_of};
ghost use Rattle.kq_run_row_operators.specs.Pieces.{rows_in};

use crate::copies::copy_rows;
use kq_eval_pieces::{Relation, Vector};
use kq_store_rows::Rows;
use kq_value::{Memory, Value};
use std::alloc::Global;

/// A piece of rows.
#[derive(Drop)]
pub enum Piece<R> {
    /// The rows from a place on, up to another.
    Part(R, usize, usize),
    /// The rows at these places, in this order.
    Chosen(R, Vec<usize>),
    /// Rows of its own.
    Own(Rows),
}

impl<R: Relation + Drop> Relation for Piece<R> {
    ghost use Rattle.kq_run_row_operators.specs.Pieces.{rows_in};

    ghost rows = { rows_in R.rows };

    fn len(&self) -> usize {
        match self {
            Piece::Part(relation, from, to) => count_between(relation, *from, *to),
            Piece::Chosen(_, places) => places.len(),
            Piece::Own(rows) => rows.len(),
        }
    }

    fn cell(&self, i: usize, j: usize) -> Result<Option<Value>, Memory> {
        match self {
            Piece::Part(relation, from, to) => cell_between(relation, *from, *to, i, j),
            Piece::Chosen(relation, places) => cell_chosen(relation, places, i, j),
            Piece::Own(rows) => Relation::cell(rows, i, j),
        }
    }

    fn lend(
        &self,
        alloc: Global,
        j: usize,
        from: usize,
        to: usize,
    ) -> Result<Option<Vector<'_>>, Memory> {
        match self {
            Piece::Part(relation, start, end) => lend_between(
                alloc, relation, *start, *end, j, from, to,
            ),
            Piece::Chosen(relation, places) => lend_chosen(alloc, relation, places, j, from, to),
            Piece::Own(rows) => rows.lend(alloc, j, from, to),
        }
    }

    fn pick(
        &self,
        alloc: Global,
        j: usize,
        places: &[usize],
    ) -> Result<Option<Vector<'_>>, Memory> {
        match self {
            Piece::Own(rows) => rows.pick(alloc, j, places),
            Piece::Part(..) | Piece::Chosen(..) => Ok(None),
        }
    }
}

impl<R: Relation + Drop> Piece<R> {
    /// All its rows: its own move out, and others are copied.
    pub fn into_rows(self, alloc: Global) -> Result<Rows, Memory>
        requires { same_width (rows_in R.rows self) }
        ensures { IfOk result (λ rows. rows ≡ rows_in R.rows self) }
    {
        match self {
            Piece::Own(rows) => Ok(rows),
            lent => copy_rows(alloc, &lent),
        }
    }
}

// How many rows there are from a place on, up to another or the last.
fn count_between<R: Relation>(relation: &R, from: usize, to: usize) -> usize
    ensures count { result ≡ length (piece_of (R.rows relation.now) from to) }
    ensures small { result < 2 ^ 63 }
{
    relation
        .len()
        .saturating_sub(from)
        .min(to.saturating_sub(from))
}

fn cell_between<R: Relation>(
    relation: &R,
    from: usize,
    to: usize,
    i: usize,
    j: usize,
) -> Result<Option<Value>, Memory>
    requires { i < length (piece_of (R.rows relation.now) from to) }
    ensures { IfOk result (λ cell. cell ≡ slice_get (row_at (piece_of (R.rows relation.now) from to) i) j) }
{
    relation.cell(place_between(relation, from, to, i), j)
}

// A column of the rows from a place on, up to another, of those from `start` on, up to `end`.
fn lend_between<'a, R: Relation>(
    alloc: Global,
    relation: &'a R,
    start: usize,
    end: usize,
    j: usize,
    from: usize,
    to: usize,
) -> Result<Option<Vector<'a>>, Memory>
    requires { (from ≤ to) × (to ≤ length (piece_of (R.rows relation.now) start end)) }
    ensures { IfOk result (λ o. IfSome o (λ v. cells_of v ≡ column_of j (piece_of (piece_of (R.rows relation.now) start end) from to))) }
{
    // There are fewer than 2^63 rows, so the sums fit.
    let _count = relation.len();
    if from < to {
        relation.lend(alloc, j, start + from, start + to)
    } else {
        Ok(None)
    }
}

// The place in the relation of a row from a place on, up to another.
fn place_between<R: Relation>(relation: &R, from: usize, to: usize, i: usize) -> usize
    requires { i < length (piece_of (R.rows relation.now) from to) }
    ensures within { result < length (R.rows relation.now) }
    ensures row { row_at (R.rows relation.now) result ≡ row_at (piece_of (R.rows relation.now) from to) i }
{
    // The sum is no greater than the number of rows.
    let _count = relation.len();
    from + i
}

fn cell_chosen<R: Relation>(
    relation: &R,
    places: &[usize],
    i: usize,
    j: usize,
) -> Result<Option<Value>, Memory>
    requires { i < length places.now }
    ensures { IfOk result (λ cell. cell ≡ slice_get (row_at (map (row_at (R.rows relation.now)) places.now) i) j) }
{
    let place = places[i];
    if place < relation.len() {
        relation.cell(place, j)
    } else {
        Ok(None)
    }
}

// A column of the rows at these of the places, from one on, up to another.
fn lend_chosen<'a, R: Relation>(
    alloc: Global,
    relation: &'a R,
    places: &[usize],
    j: usize,
    from: usize,
    to: usize,
) -> Result<Option<Vector<'a>>, Memory>
    requires { (from ≤ to) × (to ≤ length places.now) }
    ensures { IfOk result (λ o. IfSome o (λ v. cells_of v ≡ column_of j (piece_of (map (row_at (R.rows relation.now)) places.now) from to))) }
{
    relation.pick(alloc, j, &places[from..to])
}
