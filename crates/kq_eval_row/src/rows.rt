// The value of an expression over a row.
ghost use Rattle.std.specs.Prelude.{◌≡◌, IfOk, map, not};
ghost use Rattle.kq_value.specs.Computed.{Is, and_then, Answers, AnswersAs};
ghost use Rattle.kq_value_arithmetic.specs.Logic.{is_yes as the_is_yes};
ghost use Rattle.kq_value_string_functions.specs.kq_value_conversions.Converted.{empty_test as the_empty_test};
ghost use Rattle.kq_plan_expressions.specs.Terms.{mapped};
ghost use Rattle.kq_eval_row.specs.Val.{val, values, surroundings, cell_of, first_chosen, first_present, linked_at, links_at};
ghost use Rattle.kq_eval_row.specs.Seen.{seen};

use crate::apply::{apply, operate};
use kq_plan_expressions::{Expr, Link};
use kq_plan_functions::Function;
use kq_value::{EvalFault, Memory, Ty, Value};
use kq_value_arithmetic::is_yes;
use kq_value_string_functions::{as_long, empty_test};
use std::alloc::Global;

// What stands around a row: the cells of the scalar lets, and the ticks of the command's moment.
#[derive(Clone, Copy)]
struct Around<'a> {
    lets: &'a [Value],
    now: i64,
}

/// The value of an expression over the cells of a row, with the cells of the scalar lets and the ticks of the command's moment. A column or a let
/// past the end is a null, which can't come up for an expression that was bound over such rows.
pub fn eval(
    alloc: Global,
    expr: &Expr,
    row: &[Value],
    lets: &[Value],
    now: i64,
) -> Result<Value, EvalFault>
    ensures { Answers (val expr.now (surroundings now lets.now) row.now) result }
{
    eval_around(alloc, expr, row, Around { lets, now })
}

#[cycle(eval)]
#[tactic(auto, using(crate::proofs::Chains::val_of_chain))]
fn eval_around(
    alloc: Global,
    expr: &Expr,
    row: &[Value],
    around: Around,
) -> Result<Value, EvalFault>
    ensures { Answers (val expr.now (seen around.entry) row.now) result }
{
    match expr {
        Expr::Literal(value) => Ok(value.clone_in()?),
        Expr::Column(i) => Ok(cell_at(row, *i)?),
        Expr::Cell(i) => Ok(cell_at(around.lets, *i)?),
        Expr::Call(function, args) => match function {
            Function::Iff | Function::Case => eval_chosen(alloc, args, row, around),
            Function::Coalesce => eval_present(alloc, args, row, around),
            _ => {
                let values = eval_all(alloc, args, row, around)?;
                apply(alloc, *function, &values, around.now)
            }
        },
        Expr::Chain(first, links) => {
            let first = eval_around(alloc, first, row, around)?;
            eval_links(alloc, first, links, row, around)
        }
    }
}

// What the links of a chain make of its first value.
#[cycle(eval)]
fn eval_links(
    alloc: Global,
    first: Value,
    links: &Vec<Link<Expr>>,
    row: &[Value],
    around: Around,
) -> Result<Value, EvalFault>
    ensures { Answers (links_at (map (mapped val) links.now.items) (seen around.entry) row.now first) result }
{
    let mut value = first;
    for link in links {
        value = eval_link(alloc, &value, link, row, around)?;
    }
    Ok(value)
}

#[cycle(eval)]
#[tactic(auto, using(crate::proofs::Chains::at_both))]
fn eval_link(
    alloc: Global,
    value: &Value,
    link: &Link<Expr>,
    row: &[Value],
    around: Around,
) -> Result<Value, EvalFault>
    ensures { Answers (linked_at (mapped val link.now) (seen around.entry) row.now value.now) result }
{
    match link {
        Link::ToLong => Ok(as_long(value)),
        Link::With(operation, operand) => {
            let other = eval_around(alloc, operand, row, around)?;
            operate(alloc, *operation, value, &other)
        }
    }
}

#[cycle(eval)]
fn eval_all(
    alloc: Global,
    exprs: &Vec<Expr>,
    row: &[Value],
    around: Around,
) -> Result<Vec<Value>, EvalFault>
    ensures { AnswersAs (λ vs. vs.items) (values (map val exprs.now.items) (seen around.entry) row.now) result }
{
    let mut values = Vec::new(alloc);
    for expr in exprs {
        values.push(eval_around(alloc, expr, row, around)?)?;
    }
    Ok(values)
}

// The value behind the first test that is true, or else the last value.
#[cycle(eval)]
fn eval_chosen(
    alloc: Global,
    exprs: &Vec<Expr>,
    row: &[Value],
    around: Around,
) -> Result<Value, EvalFault>
    ensures { Answers (first_chosen (map val exprs.now.items) (seen around.entry) row.now) result }
{
    let mut i = 0;
    while i + 1 < exprs.len() {
        if is_chosen(alloc, &exprs[i], row, around)? {
            return eval_around(alloc, &exprs[i + 1], row, around);
        }
        i += 2;
    }
    if i < exprs.len() {
        eval_around(alloc, &exprs[i], row, around)
    } else {
        Ok(Value::Null(Ty::Long))
    }
}

// Whether a test is true.
#[cycle(eval)]
fn is_chosen(alloc: Global, test: &Expr, row: &[Value], around: Around) -> Result<bool, EvalFault>
    ensures { Answers (and_then (val test.now (seen around.entry) row.now) (λ v. Is (the_is_yes v))) result }
{
    let value = eval_around(alloc, test, row, around)?;
    Ok(is_yes(&value))
}

// The first value that is neither null nor empty, or else the last.
#[cycle(eval)]
fn eval_present(
    alloc: Global,
    exprs: &Vec<Expr>,
    row: &[Value],
    around: Around,
) -> Result<Value, EvalFault>
    ensures { Answers (first_present (map val exprs.now.items) (seen around.entry) row.now) result }
{
    for i in 0..exprs.len() {
        let value = eval_around(alloc, &exprs[i], row, around)?;
        if i + 1 == exprs.len() || is_present(&value) {
            return Ok(value);
        }
    }
    Ok(Value::Null(Ty::Long))
}

fn is_present(value: &Value) -> bool
    ensures { result ≡ not (the_is_yes (the_empty_test value.now)) }
{
    !is_yes(&empty_test(value))
}

fn cell_at(row: &[Value], i: usize) -> Result<Value, Memory>
    ensures { IfOk result (λ v. v ≡ cell_of row.now i) }
{
    if i < row.len() {
        row[i].clone_in()
    } else {
        Ok(Value::Null(Ty::Long))
    }
}
