// The values of a range.
ghost use Rattle.std.specs.Prelude.{◌≡◌, IfOk};
ghost use Rattle.kq_bind_clauses.specs.Seen.{ranging_of};
ghost use Rattle.kq_bind_clauses.specs.Ranges.{step_type as the_step_type, as_long as the_as_long, of_this_type as the_of_this_type, range_typed as the_range_typed, ranged as the_ranged, range_column as the_range_column};
ghost use Rattle.kq_bind_expressions.specs.Names.{names_of};
ghost use Rattle.kq_bind_expressions.specs.Verdicts.{AnswersVerdict};
ghost use Rattle.kq_plan_expressions.specs.Terms.{term_of, typed_of};
ghost use Rattle.kq_plan_expressions.specs.kq_plan_functions.Table.{widened as the_widened};
ghost use Rattle.kq_read_grammar.specs.Views.{tree_of};

use kq_bind_columns::{first_token, name_text};
use kq_bind_expressions::{BindFault, Scope, bind_expression, taken};
use kq_plan_expressions::{Expr, Typed};
use kq_read_grammar::{Expression, Name};
use kq_value::{Field, Memory, Ty};
use std::alloc::Global;

/// What a range is bound to: its ends and its step, and the type of its values.
#[derive(Drop)]
pub struct Ranging {
    pub first: Expr,
    pub last: Expr,
    pub step: Expr,
    pub ty: Ty,
}

fn step_type(ty: Ty) -> Option<Ty>
    ensures { result ≡ the_step_type ty }
{
    match ty {
        Ty::Long => Some(Ty::Long),
        Ty::Moment | Ty::Span => Some(Ty::Span),
        _ => None,
    }
}

fn widened(ty: Ty) -> Ty
    ensures { result ≡ the_widened ty }
{
    match ty {
        Ty::Int => Ty::Long,
        _ => ty,
    }
}

fn as_long(alloc: Global, one: Typed) -> Result<Typed, Memory>
    ensures { IfOk result (λ x. typed_of x ≡ the_as_long (typed_of one)) }
{
    let ty = widened(one.ty);
    let expr = taken(alloc, one, true)?;
    Ok(Typed { expr, ty })
}

fn of_this_type(at: usize, ty: Ty, one: Typed) -> Result<Expr, BindFault>
    ensures { AnswersVerdict term_of (the_of_this_type at ty (typed_of one)) result }
{
    if one.ty.same(ty) {
        Ok(one.expr)
    } else {
        Err(BindFault::Mistyped { at })
    }
}

fn range_typed(
    at_first: usize,
    at_last: usize,
    at_step: usize,
    first: Typed,
    last: Typed,
    step: Typed,
) -> Result<Ranging, BindFault>
    ensures { AnswersVerdict ranging_of (the_range_typed at_first at_last at_step (typed_of first) (typed_of last) (typed_of step)) result }
{
    let Typed { expr: first, ty } = first;
    let Some(step_ty) = step_type(ty) else {
        return Err(BindFault::Mistyped { at: at_first });
    };
    let last = of_this_type(at_last, ty, last)?;
    let step = of_this_type(at_step, step_ty, step)?;
    Ok(Ranging {
        first,
        last,
        step,
        ty,
    })
}

/// The values of a range from the first to the last by the step, each of which is bound over no column. Ints are longs; the first is a long, a
/// datetime or a timespan, the last of its type, and the step a long for longs and else a timespan. After the faults of all three, the leftmost of
/// another type is Mistyped at its first token.
pub fn ranged(
    alloc: Global,
    scope: &Scope,
    first: &Expression,
    last: &Expression,
    step: &Expression,
) -> Result<Ranging, BindFault>
    ensures { AnswersVerdict ranging_of (the_ranged (names_of scope.now) (tree_of first.now) (tree_of last.now) (tree_of step.now)) result }
{
    let from = bind_expression(alloc, scope, &[], first)?;
    let to = bind_expression(alloc, scope, &[], last)?;
    let by = bind_expression(alloc, scope, &[], step)?;
    let from = as_long(alloc, from)?;
    let to = as_long(alloc, to)?;
    let by = as_long(alloc, by)?;
    range_typed(
        first_token(first),
        first_token(last),
        first_token(step),
        from,
        to,
        by,
    )
}

/// The one column of a range.
pub fn range_column(alloc: Global, text: &str, name: Name, ty: Ty) -> Result<Vec<Field>, Memory>
    ensures { IfOk result (λ v. v.items ≡ the_range_column text.now name ty) }
{
    let name = name_text(alloc, text, name)?;
    let mut columns = Vec::new(alloc);
    columns.push(Field { name, ty })?;
    Ok(columns)
}
