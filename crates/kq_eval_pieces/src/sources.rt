// Where the values of an expression over the rows of a piece come from.
ghost use Rattle.std.specs.Prelude.{◌≡◌, ◌<◌, ℕ, List, IfOk, OnOk, length};
ghost use Rattle.kq_value.specs.declared.value.Value.{Value as Cell};
ghost use Rattle.kq_eval_columns.specs.Vectors.{rows_at};
ghost use Rattle.kq_store_column_view.specs.Vectors.{cells_of};
ghost use Rattle.kq_value.specs.Computed.{each};
ghost use Rattle.kq_plan_expressions.specs.Terms.{term_of};
ghost use Rattle.kq_store_rows.specs.Chunks.{row_at};
ghost use Rattle.kq_eval_columns.specs.kq_eval_row.Val.{cell_of, surroundings, val};
ghost use Rattle.kq_eval_pieces.specs.Sources.{Sourced, StandBehind, cell_from};

use crate::piece::eval_owned;
use crate::reads::column_alone;
use crate::relation::{Relation, cell_or_null};
use kq_eval_columns::Vector;
use kq_plan_expressions::Expr;
use kq_value::{EvalFault, Memory, Ty, Value};
use std::alloc::Global;
use std::mem;

// A column of the rows themselves, cell by cell; or a column of the piece, lent or made.
#[derive(Drop)]
pub(crate) enum Source<'v> {
    Column(usize),
    Made(Vector<'v>),
}

// The source of an expression's values over the rows at these places. A column alone isn't looked for among the columns, which needn't have it.
pub(crate) fn source_of<'v>(
    alloc: Global,
    expr: &Expr,
    columns: &[Vector],
    places: &[usize],
    lets: &[Value],
    now: i64,
) -> Result<Source<'v>, EvalFault>
    ensures { Sourced (term_of expr.now) (each (val expr.now (surroundings now lets.now)) (rows_at columns.now places.now)) result }
{
    match column_alone(expr) {
        Some(j) => Ok(Source::Column(j)),
        None => match eval_owned(alloc, expr, columns, places, lets, now) {
            Ok(vector) => Ok(Source::Made(vector)),
            Err(fault) => Err(fault),
        },
    }
}

// The cell for a row, which has the place `i` in its piece. What was made moves out, so that it is there once.
pub(crate) fn take_cell<R: Relation>(
    source: &mut Source,
    relation: &R,
    at: usize,
    i: usize,
) -> Result<Value, Memory>
    requires { at < length (R.rows relation.now) }
    ensures cell { IfOk result (λ v. v ≡ cell_from source.old i (row_at (R.rows relation.now) at)) }
    ensures behind { OnOk result ((k : ℕ) (r : List Cell) → i < k → cell_from source.new k r ≡ cell_from source.old k r) }
{
    match source {
        Source::Column(j) => cell_or_null(relation, at, *j),
        Source::Made(vector) => take_made(vector, i),
    }
}

fn take_made(vector: &mut Vector, i: usize) -> Result<Value, Memory>
    ensures cell { IfOk result (λ v. v ≡ cell_of (cells_of vector.old) i) }
    ensures behind { OnOk result (StandBehind i (cells_of vector.old) (cells_of vector.new)) }
{
    match vector {
        Vector::Cells(cells) => Ok(take_one(cells, i)),
        numbers => numbers.cell(i),
    }
}

// The cell, in whose place a null is left, and a null past the end.
fn take_one(cells: &mut Vec<Value>, i: usize) -> Value
    ensures cell { result ≡ cell_of cells.old.items i }
    ensures behind { StandBehind i cells.old.items cells.new.items }
{
    if i < cells.len() {
        mem::replace(&mut cells[i], Value::Null(Ty::Long))
    } else {
        Value::Null(Ty::Long)
    }
}
