// Row operators.

use kq_plan_expressions::Expr;
use kq_value::Ty;

/// An operator that makes its rows of one row at a time.
#[derive(Clone, Copy)]
pub enum Operator<'a> {
    /// The rows for which the condition is true.
    Keep(&'a Expr),
    /// For each row a row of the values of these expressions.
    Make(&'a [Expr]),
    /// For each row a row for each part of the value of an expression, which stands in the column of this number, in place of one of
    /// the row's or behind them, and is converted where a type is said.
    MvExpand(&'a Expr, usize, Option<Ty>),
}
