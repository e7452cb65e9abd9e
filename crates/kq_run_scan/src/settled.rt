// The first condition of row operators, with values in place of what gives the same of each row: the moment of `ago(1h)`, a scalar let.
ghost use Rattle.std.specs.Prelude.{◌≡◌, IfOk, IfSome, map};
ghost use Rattle.kq_plan_expressions.specs.Terms.{call, chained, link_of, term_of, terms_of};
ghost use Rattle.kq_plan_functions.specs.declared.function.Function.TheVariants as f;
ghost use Rattle.kq_run_row_operators.specs.kq_eval_row.Val.{surroundings};
ghost use Rattle.kq_run_row_operators.specs.Operators.{rowwise_of};
ghost use Rattle.kq_run_scan.specs.Ruled.{FirstKeeps};
ghost use Rattle.kq_run_scan.specs.Settled.{JoinsTo, MeansAs, SettleTo, SettlesTo, StandsFor, seen};

use crate::constant::reads;
use kq_plan_expressions::{Expr, Link, Operation, linked};
use kq_plan_functions::Function;
use kq_run_row_operators::{Operator, eval_row};
use kq_value::{EvalFault, Memory, Value};
use std::alloc::{AllocError, Global};

// What stands around the rows: the cells of the scalar lets, and the ticks of the command's moment.
#[derive(Clone, Copy)]
pub(crate) struct Around<'a> {
    pub lets: &'a [Value],
    pub now: i64,
}

// None where the first operator is no condition, or none that zones are asked for.
pub(crate) fn first_settled(
    alloc: Global,
    operators: &[Operator],
    lets: &[Value],
    now: i64,
) -> Result<Option<Expr>, Memory>
    ensures { IfOk result (λ o. IfSome o (λ e. FirstKeeps (map rowwise_of operators.now) (MeansAs (surroundings now lets.now) (term_of e)))) }
{
    match first_condition(operators) {
        Some(condition) => settled(alloc, condition, Around { lets, now }),
        None => Ok(None),
    }
}

fn first_condition<'a>(operators: &[Operator<'a>]) -> Option<&'a Expr>
    ensures { IfSome result (λ e. FirstKeeps (map rowwise_of operators.now) (λ t. t ≡ term_of e.now)) }
{
    if operators.is_empty() {
        return None;
    }
    match operators[0] {
        Operator::Keep(condition) => Some(condition),
        Operator::Make(_) | Operator::MvExpand(..) => None,
    }
}

fn settled(alloc: Global, condition: &Expr, around: Around) -> Result<Option<Expr>, Memory>
    ensures { SettlesTo (seen around.entry) (term_of condition.now) result }
{
    match condition {
        Expr::Chain(first, links) => chain_settled(alloc, first, links.as_slice(), around),
        _ => conjunct_settled(alloc, condition, around),
    }
}

// The same of conditions that are joined by `and`.
fn chain_settled(
    alloc: Global,
    first: &Expr,
    links: &[Link<Expr>],
    around: Around,
) -> Result<Option<Expr>, Memory>
    ensures { SettlesTo (seen around.entry) (chained (term_of first.now) (map link_of links.now)) result }
{
    let Some(mut chain) = conjunct_settled(alloc, first, around)? else {
        return Ok(None);
    };
    for link in links {
        match operand_settled(alloc, link, around)? {
            Some(operand) => {
                chain = linked(alloc, chain, Link::With(Operation::And, operand))?;
            }
            None => return Ok(None),
        }
    }
    Ok(Some(chain))
}

fn operand_settled(alloc: Global, link: &Link<Expr>, around: Around) -> Result<Option<Expr>, Memory>
    ensures { JoinsTo (seen around.entry) (link_of link.now) result }
{
    match link {
        Link::With(Operation::And, operand) => conjunct_settled(alloc, operand, around),
        _ => Ok(None),
    }
}

fn conjunct_settled(alloc: Global, condition: &Expr, around: Around) -> Result<Option<Expr>, Memory>
    ensures { SettlesTo (seen around.entry) (term_of condition.now) result }
{
    match condition {
        Expr::Call(Function::And, operands) => both_settled(alloc, operands.as_slice(), around),
        _ => comparison_settled(alloc, condition, around),
    }
}

fn both_settled(alloc: Global, operands: &[Expr], around: Around) -> Result<Option<Expr>, Memory>
    ensures { SettlesTo (seen around.entry) (call f.And (terms_of (map term_of operands.now))) result }
{
    match operands {
        [first, second] => {
            let Some(one) = comparison_settled(alloc, first, around)? else {
                return Ok(None);
            };
            let Some(other) = comparison_settled(alloc, second, around)? else {
                return Ok(None);
            };
            Ok(Some(linked(alloc, one, Link::With(Operation::And, other))?))
        }
        _ => Ok(None),
    }
}

fn comparison_settled(
    alloc: Global,
    condition: &Expr,
    around: Around,
) -> Result<Option<Expr>, Memory>
    ensures { SettlesTo (seen around.entry) (term_of condition.now) result }
{
    match condition {
        Expr::Call(function, args) => {
            if !is_comparison(*function) {
                return Ok(None);
            }
            match args_settled(alloc, args.as_slice(), around)? {
                Some(settled) => Ok(Some(Expr::Call(*function, settled))),
                None => Ok(None),
            }
        }
        _ => Ok(None),
    }
}

// Whether zones are asked for the function.
fn is_comparison(function: Function) -> bool {
    matches!(
        function,
        Function::Equal
            | Function::Less
            | Function::AtMost
            | Function::Greater
            | Function::AtLeast
            | Function::Between
    )
}

fn args_settled(alloc: Global, args: &[Expr], around: Around) -> Result<Option<Vec<Expr>>, Memory>
    ensures { SettleTo (seen around.entry) (map term_of args.now) result }
{
    let mut settled = Vec::new(alloc);
    for arg in args {
        match arg_settled(alloc, arg, around)? {
            Some(value) => settled.push(value)?,
            None => return Ok(None),
        }
    }
    Ok(Some(settled))
}

// A column as it is, or a literal of what stands for all rows.
fn arg_settled(alloc: Global, arg: &Expr, around: Around) -> Result<Option<Expr>, Memory>
    ensures { SettlesTo (seen around.entry) (term_of arg.now) result }
{
    match arg {
        Expr::Column(column) => Ok(Some(Expr::Column(*column))),
        _ => match value_of(alloc, arg, around)? {
            Some(value) => Ok(Some(Expr::Literal(value))),
            None => Ok(None),
        },
    }
}

// The value that the expression has for each row. None where it reads a column or overflows.
fn value_of(alloc: Global, expr: &Expr, around: Around) -> Result<Option<Value>, Memory>
    ensures { IfOk result (λ o. IfSome o (StandsFor (seen around.entry) (term_of expr.now))) }
{
    if reads(expr) {
        return Ok(None);
    }
    let row = Vec::new(alloc);
    match eval_row(alloc, expr, row.as_slice(), around.lets, around.now) {
        Ok(value) => Ok(Some(value)),
        Err(EvalFault::Overflow) => Ok(None),
        Err(EvalFault::Memory) => Err(AllocError),
    }
}
