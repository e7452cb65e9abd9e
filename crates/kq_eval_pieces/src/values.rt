// The values of an expression over rows.
ghost use Rattle.std.specs.Prelude.{◌≡◌, ◌++◌, IfOk, OnOk, length};
ghost use Rattle.kq_value.specs.Computed.{AnswersAs, each};
ghost use Rattle.kq_plan_expressions.specs.Terms.{term_of};
ghost use Rattle.kq_store_column_view.specs.Vectors.{cells_of};
ghost use Rattle.kq_eval_columns.specs.kq_eval_row.Val.{meaning, surroundings};

use crate::columns::{cells_in, column_in};
use crate::piece::{PIECE, eval_piece};
use crate::reads::column_alone;
use crate::relation::Relation;
use kq_eval_columns::Vector;
use kq_plan_expressions::Expr;
use kq_value::{EvalFault, Memory, Value};
use std::alloc::Global;

/// The value of an expression over each row as one column, with the cells of the scalar lets and the ticks of the command's moment: a column
/// alone is lent where it can be. It is made of all rows at once, so these should be few.
pub fn vector_over<'a, R: Relation>(
    alloc: Global,
    relation: &'a R,
    expr: &Expr,
    lets: &[Value],
    now: i64,
) -> Result<Vector<'a>, EvalFault>
    ensures values { AnswersAs cells_of (each (meaning (term_of expr.now) (surroundings now lets.now)) (R.rows relation.now)) result }
    ensures beside { IfOk result (λ v. length (cells_of v) ≡ length (R.rows relation.now)) }
{
    match column_alone(expr) {
        Some(j) => Ok(column_in(alloc, relation, 0, relation.len(), j)?),
        None => eval_piece(alloc, relation, 0, relation.len(), expr, lets, now),
    }
}

/// The value of an expression over each row, with the cells of the scalar lets and the ticks of the command's moment.
pub fn values_over<R: Relation>(
    alloc: Global,
    relation: &R,
    expr: &Expr,
    lets: &[Value],
    now: i64,
) -> Result<Vec<Value>, EvalFault>
    ensures values { AnswersAs (λ vs. vs.items) (each (meaning (term_of expr.now) (surroundings now lets.now)) (R.rows relation.now)) result }
    ensures beside { IfOk result (λ vs. length vs.items ≡ length (R.rows relation.now)) }
{
    match column_alone(expr) {
        Some(j) => Ok(cells_in(alloc, relation, 0, relation.len(), j)?),
        None => values_by_pieces(alloc, relation, expr, lets, now),
    }
}

fn values_by_pieces<R: Relation>(
    alloc: Global,
    relation: &R,
    expr: &Expr,
    lets: &[Value],
    now: i64,
) -> Result<Vec<Value>, EvalFault>
    ensures values { AnswersAs (λ vs. vs.items) (each (meaning (term_of expr.now) (surroundings now lets.now)) (R.rows relation.now)) result }
    ensures beside { IfOk result (λ vs. length vs.items ≡ length (R.rows relation.now)) }
{
    let mut values = Vec::new(alloc);
    let mut from = 0;
    while from < relation.len() {
        let to = relation.len().min(from + PIECE);
        let piece = eval_piece(alloc, relation, from, to, expr, lets, now)?;
        push_cells(&mut values, piece)?;
        from = to;
    }
    Ok(values)
}

fn push_cells(values: &mut Vec<Value>, vector: Vector) -> Result<(), Memory>
    ensures { OnOk result (values.new.items ≡ values.old.items ++ cells_of vector.entry) }
{
    match vector {
        Vector::Cells(mut cells) => values.append(&mut cells),
        numbers => push_each(values, &numbers),
    }
}

fn push_each(values: &mut Vec<Value>, vector: &Vector) -> Result<(), Memory>
    ensures { OnOk result (values.new.items ≡ values.old.items ++ cells_of vector.now) }
{
    for i in 0..vector.len() {
        values.push(vector.cell(i)?)?;
    }
    Ok(())
}
