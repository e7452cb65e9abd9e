// One operator over a piece of rows.
ghost use Rattle.std.specs.Prelude.{◌≡◌, ◌<◌, IfOk, length, map};
ghost use Rattle.std.specs.List.{All};
ghost use Rattle.kq_value.specs.Computed.{Answers, AnswersAs};
ghost use Rattle.kq_plan_expressions.specs.Terms.{term_of};
ghost use Rattle.kq_eval_pieces.specs.Operators.{filtered};
ghost use Rattle.kq_eval_pieces.specs.Pieces.{piece_of};
ghost use Rattle.kq_run_reshape.specs.MvExpand.{expanded};
ghost use Rattle.kq_store_rows.specs.Chunks.{row_at, same_width};
ghost use Rattle.kq_eval_pieces.specs.kq_eval_row.Val.{surroundings};
ghost use Rattle.kq_run_row_operators.specs.Operators.{applied, rowwise_of, mv_expanding};
ghost use Rattle.kq_run_row_operators.specs.Pieces.{rows_in};

use crate::choices::{chosen_of, shifted};
use crate::operator::Operator;
use crate::piece::Piece;
use kq_eval_pieces::{Relation, map_rows, places_kept, values_over};
use kq_plan_expressions::Expr;
use kq_run_reshape::mv_expand_rows;
use kq_store_rows::Rows;
use kq_value::{EvalFault, Memory, Ty, Value};
use std::alloc::Global;

pub(crate) fn apply<R: Relation + Drop>(
    alloc: Global,
    operator: &Operator,
    piece: Piece<R>,
    lets: &[Value],
    now: i64,
) -> Result<Piece<R>, EvalFault>
    requires { same_width (rows_in R.rows piece) }
    ensures { AnswersAs (rows_in R.rows) (applied (rowwise_of operator.now) (surroundings now lets.now) (rows_in R.rows piece)) result }
{
    match *operator {
        Operator::Keep(condition) => keep(alloc, condition, piece, lets, now),
        Operator::Make(exprs) => match map_rows(alloc, &piece, exprs, lets, now) {
            Ok(made) => Ok(Piece::Own(made)),
            Err(fault) => Err(fault),
        },
        Operator::MvExpand(expr, at, ty) => match mv_expand(alloc, expr, at, ty, piece, lets, now) {
            Ok(made) => Ok(Piece::Own(made)),
            Err(fault) => Err(fault),
        },
    }
}

// The rows for which the condition is true: no cell is copied but of rows that are the piece's own.
fn keep<R: Relation + Drop>(
    alloc: Global,
    condition: &Expr,
    piece: Piece<R>,
    lets: &[Value],
    now: i64,
) -> Result<Piece<R>, EvalFault>
    ensures { AnswersAs (rows_in R.rows) (filtered (term_of condition.now) (surroundings now lets.now) (rows_in R.rows piece)) result }
{
    match places_kept(alloc, &piece, condition, lets, now) {
        Ok(places) => Ok(select(alloc, piece, places.as_slice())?),
        Err(fault) => Err(fault),
    }
}

// The rows with these places in the piece.
fn select<R: Relation + Drop>(
    alloc: Global,
    piece: Piece<R>,
    places: &[usize],
) -> Result<Piece<R>, Memory>
    requires { All (λ p. p < length (rows_in R.rows piece)) places.now }
    ensures { IfOk result (λ kept. rows_in R.rows kept ≡ map (row_at (rows_in R.rows piece)) places.now) }
{
    match piece {
        Piece::Part(relation, from, to) => {
            let chosen = chosen_between(alloc, &relation, from, to, places)?;
            Ok(Piece::Chosen(relation, chosen))
        }
        Piece::Chosen(relation, before) => {
            let chosen = chosen_of(alloc, &before, places)?;
            Ok(Piece::Chosen(relation, chosen))
        }
        Piece::Own(rows) => Ok(Piece::Own(rows.select(places)?)),
    }
}

// Where the rows with these places among those from a place on, up to another, stand in the relation.
fn chosen_between<R: Relation>(
    alloc: Global,
    relation: &R,
    from: usize,
    to: usize,
    places: &[usize],
) -> Result<Vec<usize>, Memory>
    requires { All (λ p. p < length (piece_of (R.rows relation.now) from to)) places.now }
    ensures { IfOk result (λ ps. map (row_at (R.rows relation.now)) ps.items ≡ map (row_at (piece_of (R.rows relation.now) from to)) places.now) }
{
    // There are fewer than 2^63 rows, so the sums fit.
    let _count = relation.len();
    shifted(alloc, places, from)
}

// A row for each part of the values of an expression.
fn mv_expand<R: Relation + Drop>(
    alloc: Global,
    expr: &Expr,
    at: usize,
    ty: Option<Ty>,
    piece: Piece<R>,
    lets: &[Value],
    now: i64,
) -> Result<Rows, EvalFault>
    requires { same_width (rows_in R.rows piece) }
    ensures { Answers (applied (mv_expanding (term_of expr.now) at ty) (surroundings now lets.now) (rows_in R.rows piece)) result }
{
    match values_over(alloc, &piece, expr, lets, now) {
        Ok(values) => Ok(expand_piece(alloc, piece, values.as_slice(), at, ty)?),
        Err(fault) => Err(fault),
    }
}

// Each row with each part of the value beside it.
fn expand_piece<R: Relation + Drop>(
    alloc: Global,
    piece: Piece<R>,
    values: &[Value],
    at: usize,
    ty: Option<Ty>,
) -> Result<Rows, Memory>
    requires even { same_width (rows_in R.rows piece) }
    requires beside { length values.now ≡ length (rows_in R.rows piece) }
    ensures { IfOk result (λ out. out ≡ expanded at ty (rows_in R.rows piece) values.now) }
{
    let rows = piece.into_rows(alloc)?;
    mv_expand_rows(alloc, &rows, values, at, ty)
}
