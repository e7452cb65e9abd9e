// Expressions over one piece.
ghost use Rattle.std.specs.Prelude.{◌≡◌, ◌-◌, ◌≤◌, IfOk, length};
ghost use Rattle.std.specs.List.{range_with_len};
ghost use Rattle.kq_value.specs.Computed.{AnswersAs, each};
ghost use Rattle.kq_eval_columns.specs.Vectors.{rows_at};
ghost use Rattle.kq_plan_expressions.specs.Terms.{term_of};
ghost use Rattle.kq_store_column_view.specs.Vectors.{cells_of};
ghost use Rattle.kq_eval_columns.specs.kq_eval_row.Val.{meaning, surroundings, val};
ghost use Rattle.kq_eval_pieces.specs.Pieces.{piece_of};

use crate::columns::columns_in;
use crate::reads::columns_of;
use crate::relation::Relation;
use crate::words::eval_by_word;
use kq_eval_columns::{Vector, eval_column, owned};
use kq_plan_expressions::Expr;
use kq_value::{EvalFault, Memory, Value};
use std::alloc::Global;
use std::slice::from_ref;

// The most rows of a piece.
pub(crate) const PIECE: usize = 4096;

// The values of an expression over the rows from a place on, up to another.
pub(crate) fn eval_piece<'v, R: Relation>(
    alloc: Global,
    relation: &R,
    from: usize,
    to: usize,
    expr: &Expr,
    lets: &[Value],
    now: i64,
) -> Result<Vector<'v>, EvalFault>
    requires { (from ≤ to) × (to ≤ length (R.rows relation.now)) }
    ensures values { AnswersAs cells_of (each (meaning (term_of expr.now) (surroundings now lets.now)) (piece_of (R.rows relation.now) from to)) result }
    ensures beside { IfOk result (λ v. length (cells_of v) ≡ to - from) }
{
    let reads = columns_of(alloc, from_ref(expr))?;
    let columns = columns_in(alloc, relation, from, to, &reads)?;
    eval_first(alloc, expr, &columns, to - from, lets, now)
}

// The values of an expression over the first rows of the columns, so many.
fn eval_first<'v>(
    alloc: Global,
    expr: &Expr,
    columns: &[Vector],
    count: usize,
    lets: &[Value],
    now: i64,
) -> Result<Vector<'v>, EvalFault>
    ensures { AnswersAs cells_of (each (val expr.now (surroundings now lets.now)) (rows_at columns.now (range_with_len 0 count))) result }
{
    let places = places_below(alloc, count)?;
    eval_owned(alloc, expr, columns, &places, lets, now)
}

// The values of an expression over the rows of the columns at these places, none of them lent.
pub(crate) fn eval_owned<'v>(
    alloc: Global,
    expr: &Expr,
    columns: &[Vector],
    places: &[usize],
    lets: &[Value],
    now: i64,
) -> Result<Vector<'v>, EvalFault>
    ensures { AnswersAs cells_of (each (val expr.now (surroundings now lets.now)) (rows_at columns.now places.now)) result }
{
    if let Some(values) = eval_by_word(alloc, expr, columns, places, lets, now)? {
        return Ok(values);
    }
    match eval_column(alloc, expr, columns, places, lets, now) {
        Ok(vector) => Ok(owned(alloc, vector)?),
        Err(fault) => Err(fault),
    }
}

pub(crate) fn places_below(alloc: Global, count: usize) -> Result<Vec<usize>, Memory>
    ensures { IfOk result (λ v. v.items ≡ range_with_len 0 count) }
{
    let mut places = Vec::with_capacity(alloc, count)?;
    for place in 0..count {
        places.push(place)?;
    }
    Ok(places)
}
