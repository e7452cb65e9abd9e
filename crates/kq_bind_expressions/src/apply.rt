// Operators and functions at what is bound.
ghost use Rattle.std.specs.Prelude.{◌≡◌, [], ◌∷◌, map, IfOk};
ghost use Rattle.kq_bind_expressions.specs.Apply.{applied, as_taken, type_of};
ghost use Rattle.kq_bind_expressions.specs.Verdicts.{AnswersVerdict};
ghost use Rattle.kq_plan_expressions.specs.Operations.{function_of};
ghost use Rattle.kq_plan_expressions.specs.Terms.{typed_of, term_of};

use crate::fault::BindFault;
use kq_plan_expressions::{Expr, Link, Operation, Typed, linked};
use kq_plan_functions::{Function, choose};
use kq_value::{Memory, Ty};
use std::alloc::Global;

/// The call, where a line of the table takes what is given.
pub fn apply(
    alloc: Global,
    function: Function,
    at: usize,
    given: Vec<Typed>,
) -> Result<Typed, BindFault>
    ensures { AnswersVerdict typed_of (applied function at (map typed_of given.items)) result }
{
    let types = types_of(alloc, &given)?;
    match choose(function, &types) {
        None => Err(BindFault::Mistyped { at }),
        Some(choice) => {
            let args = all_taken(alloc, given, choice.widened)?;
            Ok(Typed {
                expr: Expr::Call(function, args),
                ty: choice.gives,
            })
        }
    }
}

fn types_of(alloc: Global, given: &[Typed]) -> Result<Vec<Ty>, Memory>
    ensures { IfOk result (λ v. v.items ≡ map type_of (map typed_of given.now)) }
{
    let mut types = Vec::new(alloc);
    for one in given {
        types.push(one.ty)?;
    }
    Ok(types)
}

fn all_taken(alloc: Global, given: Vec<Typed>, widened: bool) -> Result<Vec<Expr>, Memory>
    ensures { IfOk result (λ v. map term_of v.items ≡ map (as_taken widened) (map typed_of given.items)) }
{
    let mut args = Vec::new(alloc);
    for one in given {
        args.push(taken(alloc, one, widened)?)?;
    }
    Ok(args)
}

/// The expression; an int as the long of its value, where ints are widened.
pub fn taken(alloc: Global, one: Typed, widened: bool) -> Result<Expr, Memory>
    ensures { IfOk result (λ e. term_of e ≡ as_taken widened (typed_of one)) }
{
    match one.ty {
        Ty::Int if widened => {
            let mut args = Vec::new(alloc);
            args.push(one.expr)?;
            Ok(Expr::Call(Function::ToLong, args))
        }
        _ => Ok(one.expr),
    }
}

pub fn apply_to_one(
    alloc: Global,
    function: Function,
    at: usize,
    operand: Typed,
) -> Result<Typed, BindFault>
    ensures { AnswersVerdict typed_of (applied function at (typed_of operand ∷ [])) result }
{
    let mut given = Vec::new(alloc);
    given.push(operand)?;
    apply(alloc, function, at, given)
}

pub fn apply_to_two(
    alloc: Global,
    function: Function,
    at: usize,
    first: Typed,
    second: Typed,
) -> Result<Typed, BindFault>
    ensures { AnswersVerdict typed_of (applied function at (typed_of first ∷ typed_of second ∷ [])) result }
{
    let mut given = Vec::new(alloc);
    given.push(first)?;
    given.push(second)?;
    apply(alloc, function, at, given)
}

/// The operation at what stands so far and an operand, as a link more of the chain.
pub fn apply_next(
    alloc: Global,
    operation: Operation,
    at: usize,
    first: Typed,
    second: Typed,
) -> Result<Typed, BindFault>
    ensures { AnswersVerdict typed_of (applied (function_of operation) at (typed_of first ∷ typed_of second ∷ [])) result }
{
    let types = [first.ty, second.ty];
    match choose(operation.function(), &types) {
        None => Err(BindFault::Mistyped { at }),
        Some(choice) => {
            let so_far = taken_so_far(alloc, first, choice.widened)?;
            let operand = taken(alloc, second, choice.widened)?;
            Ok(Typed {
                expr: linked(alloc, so_far, Link::With(operation, operand))?,
                ty: choice.gives,
            })
        }
    }
}

// What stands so far; an int as the long of its value, where ints are widened.
fn taken_so_far(alloc: Global, one: Typed, widened: bool) -> Result<Expr, Memory>
    ensures { IfOk result (λ e. term_of e ≡ as_taken widened (typed_of one)) }
{
    match one.ty {
        Ty::Int if widened => linked(alloc, one.expr, Link::ToLong),
        _ => Ok(one.expr),
    }
}

pub fn apply_to_three(
    alloc: Global,
    function: Function,
    at: usize,
    first: Typed,
    second: Typed,
    third: Typed,
) -> Result<Typed, BindFault>
    ensures { AnswersVerdict typed_of (applied function at (typed_of first ∷ typed_of second ∷ typed_of third ∷ [])) result }
{
    let mut given = Vec::new(alloc);
    given.push(first)?;
    given.push(second)?;
    given.push(third)?;
    apply(alloc, function, at, given)
}

pub fn with_two_before(
    alloc: Global,
    first: Typed,
    second: Typed,
    others: Vec<Typed>,
) -> Result<Vec<Typed>, Memory>
    ensures { IfOk result (λ v. map typed_of v.items ≡ typed_of first ∷ typed_of second ∷ map typed_of others.items) }
{
    let mut given = Vec::new(alloc);
    given.push(first)?;
    given.push(second)?;
    for one in others {
        given.push(one)?;
    }
    Ok(given)
}
