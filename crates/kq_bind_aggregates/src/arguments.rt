// The arguments of an aggregate.
ghost use Rattle.std.specs.Prelude.{◌≡◌, ◌++◌, map, IfOk};
ghost use Rattle.std.specs.Option.{option_map};
ghost use Rattle.kq_bind_aggregates.specs.Arguments as the;
ghost use Rattle.kq_bind_aggregates.specs.Seen.{argued_of, all_seen, given_of, several_of, numbers_of};
ghost use Rattle.kq_bind_expressions.specs.Names.{names_of};
ghost use Rattle.kq_bind_expressions.specs.Verdicts.{AnswersVerdict};
ghost use Rattle.kq_plan_expressions.specs.Terms.{term_of, typed_of};
ghost use Rattle.kq_read_grammar.specs.Views.{argument_view};

use kq_bind_columns::is_taken;
use kq_bind_expressions::{BindFault, Scope, bind_expression};
use kq_plan_expressions::{Expr, Typed};
use kq_read_grammar::Argument;
use kq_value::{Field, Memory};
use std::alloc::Global;

/// The arguments as they are bound: each an expression, or nothing for `*`.
#[derive(Drop)]
pub enum Given {
    Nothing,
    From(Option<Typed>, Vec<Option<Typed>>),
}

pub fn all_argued(
    alloc: Global,
    scope: &Scope,
    columns: &[Field],
    arguments: &[Argument],
) -> Result<Given, BindFault>
    ensures { AnswersVerdict given_of (the.all_argued (names_of scope.now) columns.now (map argument_view arguments.now)) result }
{
    match arguments {
        [] => Ok(Given::Nothing),
        [first, others @ ..] => {
            let first = argued(alloc, scope, columns, first)?;
            let others = others_argued(alloc, scope, columns, others)?;
            Ok(Given::From(first, others))
        }
    }
}

fn argued(
    alloc: Global,
    scope: &Scope,
    columns: &[Field],
    argument: &Argument,
) -> Result<Option<Typed>, BindFault>
    ensures { AnswersVerdict argued_of (the.argued (names_of scope.now) columns.now (argument_view argument.now)) result }
{
    match argument {
        Argument::Value(tree) => Ok(Some(bind_expression(alloc, scope, columns, tree)?)),
        Argument::Star(_) => Ok(None),
    }
}

fn others_argued(
    alloc: Global,
    scope: &Scope,
    columns: &[Field],
    arguments: &[Argument],
) -> Result<Vec<Option<Typed>>, BindFault>
    ensures { AnswersVerdict all_seen (the.all_argued (names_of scope.now) columns.now (map argument_view arguments.now)) result }
{
    let mut others = Vec::new(alloc);
    for argument in arguments {
        others.push(argued(alloc, scope, columns, argument)?)?;
    }
    Ok(others)
}

/// The one argument, an expression.
pub fn only(given: Given) -> Option<Typed>
    ensures { option_map typed_of result ≡ the.only (given_of given) }
{
    match given {
        Given::From(first, others) => match others.as_slice() {
            [] => first,
            _ => None,
        },
        Given::Nothing => None,
    }
}

/// An expression, and the arguments behind it, one or more.
pub fn several(given: Given) -> Option<(Typed, Vec<Option<Typed>>)>
    ensures { option_map several_of result ≡ the.several (given_of given) }
{
    match given {
        Given::From(first, others) => match first {
            Some(value) => match others.as_slice() {
                [] => None,
                _ => Some((value, others)),
            },
            None => None,
        },
        Given::Nothing => None,
    }
}

/// The number of the column that an expression is.
#[tactic(auto, using(crate::proofs::Chains::no_links, crate::proofs::Chains::is_no_column))]
pub fn column_number(expr: &Expr) -> Option<usize>
    ensures { result ≡ the.column_number (term_of expr.now) }
{
    match expr {
        Expr::Column(number) => Some(*number),
        Expr::Chain(first, links) => {
            if links.is_empty() {
                column_number(first)
            } else {
                None
            }
        }
        _ => None,
    }
}

/// The numbers of the columns whose name isn't a key's.
pub fn unkeyed(alloc: Global, columns: &[Field], keys: &[Field]) -> Result<Vec<usize>, Memory>
    ensures { IfOk result (λ v. v.items ≡ the.unkeyed 0 columns.now keys.now) }
{
    let mut numbers = Vec::new(alloc);
    for i in 0..columns.len() {
        if !is_taken(keys, columns[i].name.as_str()) {
            numbers.push(i)?;
        }
    }
    Ok(numbers)
}

fn is_own(own: Option<usize>, number: usize) -> bool
    ensures { result ≡ the.is_own own number }
{
    match own {
        Some(own) => number == own,
        None => false,
    }
}

fn with_starred(
    starred: &[usize],
    own: Option<usize>,
    before: Vec<usize>,
) -> Result<Vec<usize>, Memory>
    ensures { IfOk result (λ v. v.items ≡ before.items ++ the.but_own own starred.now) }
{
    let mut numbers = before;
    for number in starred {
        if !is_own(own, *number) {
            numbers.push(*number)?;
        }
    }
    Ok(numbers)
}

/// The numbers, and behind them those of the columns that the argument stands for. `*` stands for the starred ones but the value's own.
pub fn with_argument(
    starred: &[usize],
    own: Option<usize>,
    before: Vec<usize>,
    argument: &Option<Typed>,
) -> Result<Option<Vec<usize>>, Memory>
    ensures { let columns = the.argument_columns starred.now own (argued_of argument.now) in
        IfOk result (λ m. option_map numbers_of m ≡ option_map (λ is. before.items ++ is) columns) }
{
    match argument {
        None => Ok(Some(with_starred(starred, own, before)?)),
        Some(value) => match column_number(&value.expr) {
            Some(number) => {
                let mut numbers = before;
                numbers.push(number)?;
                Ok(Some(numbers))
            }
            None => Ok(None),
        },
    }
}

/// The same for several arguments.
pub fn with_arguments(
    starred: &[usize],
    own: Option<usize>,
    before: Vec<usize>,
    arguments: &[Option<Typed>],
) -> Result<Option<Vec<usize>>, Memory>
    ensures { IfOk result (λ m. option_map numbers_of m ≡ the.all_columns starred.now own before.items (map argued_of arguments.now)) }
{
    let mut numbers = before;
    for argument in arguments {
        match with_argument(starred, own, numbers, argument)? {
            Some(more) => numbers = more,
            None => return Ok(None),
        }
    }
    Ok(Some(numbers))
}
