// The values of expressions.
ghost use Rattle.std.specs.Prelude.{◌≡◌, IfOk, length, map};
ghost use Rattle.kq_value.specs.Computed.{Answers, AnswersAs};
ghost use Rattle.kq_plan_expressions.specs.Terms.{term_of};
ghost use Rattle.kq_run_gather.specs.kq_eval_row.Val.{meaning, surroundings};
ghost use Rattle.kq_run_gather.specs.kq_eval_pieces.Operators.{values_at};

use kq_plan_expressions::Expr;
use kq_run_gather::eval_row;
use kq_value::{EvalFault, Value};
use std::alloc::Global;

pub(crate) fn value_of(
    alloc: Global,
    expr: &Expr,
    row: &[Value],
    lets: &[Value],
    now: i64,
) -> Result<Value, EvalFault>
    ensures { Answers (meaning (term_of expr.now) (surroundings now lets.now) row.now) result }
{
    eval_row(alloc, expr, row, lets, now)
}

pub(crate) fn values_of(
    alloc: Global,
    exprs: &[Expr],
    row: &[Value],
    lets: &[Value],
    now: i64,
) -> Result<Vec<Value>, EvalFault>
    ensures wide { IfOk result (λ vs. length vs.items ≡ length exprs.now) }
    ensures values { AnswersAs (λ vs. vs.items) (values_at (map term_of exprs.now) (surroundings now lets.now) row.now) result }
{
    let mut values = Vec::new(alloc);
    for expr in exprs {
        values.push(value_of(alloc, expr, row, lets, now)?)?;
    }
    Ok(values)
}
