// A summarize over what row operators make of rows.
use kq_plan::Aggregate;
use kq_plan_expressions::Expr;
use kq_run_row_operators::Operator;
use kq_value::{Field, Value};

/// What is asked of rows: row operators, and behind them keys and aggregates with their columns, with the cells of the scalar lets and the ticks of
/// the
/// command's moment.
#[derive(Clone, Copy)]
pub struct Summarize<'a> {
    pub operators: &'a [Operator<'a>],
    pub keys: &'a [Expr],
    pub aggregates: &'a [Aggregate],
    pub columns: &'a [Field],
    pub lets: &'a [Value],
    pub moment: i64,
}
