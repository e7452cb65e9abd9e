// Operators and functions at their arguments.
ghost use Rattle.std.specs.Prelude.{◌≡◌, IfOk};
ghost use Rattle.kq_value.specs.declared.value.Value.TheVariants.{Null};
ghost use Rattle.kq_value.specs.declared.ty.Ty.TheVariants.{Long};
ghost use Rattle.kq_value.specs.Computed.{Is, Answers};
ghost use Rattle.kq_value_arithmetic.specs.Comparing.{equal as the_equal};
ghost use Rattle.kq_value_arithmetic.specs.Logic.{in_list as the_in_list};
ghost use Rattle.kq_value_string_functions.specs.Texts.{equal_folded as the_equal_folded};
ghost use Rattle.kq_plan_expressions.specs.Operations.{function_of};
ghost use Rattle.kq_eval_row.specs.Applied.{applied, by_number, at_none, at_one, part_of, at_two, at_three, among as the_among};

use kq_plan_expressions::Operation;
use kq_plan_functions::Function;
use kq_value::{EvalFault, Memory, Ty, Value};
use kq_value_arithmetic::{
    absolute, at_least, at_most, between_of, bin_of, conjunction, disjunction, divided, equal,
    greater, in_list, is_yes, less, minus, negated, negation, plus, remainder, times, unequal,
};
use kq_value_calendar::{
    day_of_month, day_of_week, hour_of, month_of, start_of_day, start_of_month, start_of_week,
    start_of_year, year_of,
};
use kq_value_string_functions::{
    array_length_of, as_bool, as_dynamic, as_int, as_long, as_moment, as_span, as_text, empty_test,
    equal_folded, found, index_in, joined, keys_of, lowered, member_of, not_empty_test,
    not_null_test, null_test, pieces, replaced, sorted_of, str_len, sub_text, sub_text_to, uppered,
};
use std::alloc::Global;

/// What a function gives at its arguments, in ticks of the command's moment. A null at arguments that it doesn't take, which no bound expression has.
/// One that chooses among its arguments is not applied but evaluated, by `eval`.
pub fn apply(
    alloc: Global,
    function: Function,
    args: &[Value],
    now: i64,
) -> Result<Value, EvalFault>
    ensures { Answers (applied function now args.now) result }
{
    match function {
        Function::StrCat => Ok(joined(alloc, args)?),
        Function::In => Ok(among(args)),
        Function::NotIn => Ok(negation(&among(args))),
        Function::InFolded => Ok(among_folded(alloc, args)?),
        Function::NotInFolded => Ok(negation(&among_folded(alloc, args)?)),
        _ => apply_by_number(alloc, function, args, now),
    }
}

/// What an operation gives at two arguments.
pub fn operate(
    alloc: Global,
    operation: Operation,
    a: &Value,
    b: &Value,
) -> Result<Value, EvalFault>
    ensures { Answers (at_two (function_of operation) a.now b.now) result }
{
    apply_to_two(alloc, operation.function(), a, b)
}

fn apply_by_number(
    alloc: Global,
    function: Function,
    args: &[Value],
    now: i64,
) -> Result<Value, EvalFault>
    ensures { Answers (by_number function now args.now) result }
{
    match args {
        [] => Ok(apply_to_none(function, now)),
        [a] => apply_to_one(alloc, function, a, &Value::Moment(now)),
        [a, b] => apply_to_two(alloc, function, a, b),
        [a, b, c] => Ok(apply_to_three(alloc, function, a, b, c)?),
        _ => Ok(Value::Null(Ty::Long)),
    }
}

fn apply_to_none(function: Function, now: i64) -> Value
    ensures { at_none function now ≡ Is result }
{
    match function {
        Function::Now => Value::Moment(now),
        _ => Value::Null(Ty::Long),
    }
}

fn apply_to_one(
    alloc: Global,
    function: Function,
    a: &Value,
    moment: &Value,
) -> Result<Value, EvalFault>
    ensures { Answers (at_one function moment.now a.now) result }
{
    match function {
        Function::Now => plus(moment, a),
        Function::Ago => minus(moment, a),
        Function::Negate => negated(a),
        Function::Keep => Ok(a.clone_in()?),
        Function::Abs => absolute(a),
        Function::Not => Ok(negation(a)),
        Function::IsNull => Ok(null_test(a)),
        Function::IsNotNull => Ok(not_null_test(a)),
        Function::IsEmpty => Ok(empty_test(a)),
        Function::IsNotEmpty => Ok(not_empty_test(a)),
        Function::StrLen => Ok(str_len(a)),
        Function::ToLower => Ok(lowered(alloc, a)?),
        Function::ToUpper => Ok(uppered(alloc, a)?),
        Function::ToText => Ok(as_text(alloc, a)?),
        Function::ToLong => Ok(as_long(a)),
        Function::ToInt => Ok(as_int(a)),
        Function::ToBool => Ok(as_bool(a)),
        Function::ToMoment => Ok(as_moment(a)),
        Function::ToSpan => Ok(as_span(a)),
        Function::ToDynamic => Ok(as_dynamic(alloc, a)?),
        _ => part_of(alloc, function, a),
    }
}

fn part_of(alloc: Global, function: Function, a: &Value) -> Result<Value, EvalFault>
    ensures { Answers (part_of function a.now) result }
{
    match function {
        Function::StartOfDay => start_of_day(a),
        Function::StartOfWeek => start_of_week(a),
        Function::StartOfMonth => start_of_month(a),
        Function::StartOfYear => start_of_year(a),
        Function::DayOfWeek => Ok(day_of_week(a)),
        Function::GetYear => Ok(year_of(a)),
        Function::MonthOfYear => Ok(month_of(a)),
        Function::DayOfMonth => Ok(day_of_month(a)),
        Function::HourOfDay => Ok(hour_of(a)),
        Function::ArrayLength => Ok(array_length_of(a)),
        Function::ArraySortAsc => Ok(sorted_of(alloc, a)?),
        Function::BagKeys => Ok(keys_of(alloc, a)?),
        _ => Ok(Value::Null(Ty::Long)),
    }
}

fn apply_to_two(alloc: Global, function: Function, a: &Value, b: &Value) -> Result<Value, EvalFault>
    ensures { Answers (at_two function a.now b.now) result }
{
    match function {
        Function::Add => plus(a, b),
        Function::Subtract => minus(a, b),
        Function::Multiply => times(a, b),
        Function::Divide => divided(a, b),
        Function::Remainder => remainder(a, b),
        Function::Bin => bin_of(a, b),
        Function::Equal => Ok(equal(a, b)),
        Function::Unequal => Ok(unequal(a, b)),
        Function::Less => Ok(less(a, b)),
        Function::AtMost => Ok(at_most(a, b)),
        Function::Greater => Ok(greater(a, b)),
        Function::AtLeast => Ok(at_least(a, b)),
        Function::EqualFolded => Ok(equal_folded(alloc, a, b)?),
        Function::UnequalFolded => Ok(negation(&equal_folded(alloc, a, b)?)),
        Function::And => Ok(conjunction(a, b)),
        Function::Or => Ok(disjunction(a, b)),
        Function::Find(kind) => Ok(found(alloc, kind, a, b)?),
        Function::FindNot(kind) => Ok(negation(&found(alloc, kind, a, b)?)),
        Function::Member => Ok(member_of(alloc, a, b)?),
        Function::Substring => Ok(sub_text(alloc, a, b)?),
        Function::IndexOf => Ok(index_in(a, b)),
        Function::Split => Ok(pieces(alloc, a, b)?),
        _ => Ok(Value::Null(Ty::Long)),
    }
}

fn apply_to_three(
    alloc: Global,
    function: Function,
    a: &Value,
    b: &Value,
    c: &Value,
) -> Result<Value, Memory>
    ensures { IfOk result (λ v. at_three function a.now b.now c.now ≡ Is v) }
{
    match function {
        Function::Between => Ok(between_of(a, b, c)),
        Function::NotBetween => Ok(negation(&between_of(a, b, c))),
        Function::Substring => sub_text_to(alloc, a, b, c),
        Function::ReplaceString => replaced(alloc, a, b, c),
        _ => Ok(Value::Null(Ty::Long)),
    }
}

fn among(args: &[Value]) -> Value
    ensures { result ≡ the_among the_equal args.now }
{
    match args {
        [] => Value::Null(Ty::Bool),
        [x, others @ ..] => in_list(x, others),
    }
}

fn among_folded(alloc: Global, args: &[Value]) -> Result<Value, Memory>
    ensures { IfOk result (λ v. v ≡ the_among the_equal_folded args.now) }
{
    match args {
        [] => Ok(Value::Null(Ty::Bool)),
        [x, others @ ..] => in_list_folded(alloc, x, others),
    }
}

fn in_list_folded(alloc: Global, x: &Value, others: &[Value]) -> Result<Value, Memory>
    ensures { IfOk result (λ v. v ≡ the_in_list the_equal_folded x.now others.now) }
{
    let mut found = Value::Bool(false);
    for other in others {
        found = disjunction(&found, &equal_folded(alloc, x, other)?);
        if is_yes(&found) {
            return Ok(found);
        }
    }
    Ok(found)
}
