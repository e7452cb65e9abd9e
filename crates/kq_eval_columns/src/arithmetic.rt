// Arithmetic on columns of numbers and one value.
ghost use Rattle.std.specs.Prelude.{◌≡◌, map, IfOk, IfSome};
ghost use Rattle.kq_value.specs.Computed.{Is};
ghost use Rattle.kq_value.specs.declared.value.Value.TheVariants.{Long};
ghost use Rattle.kq_eval_kernels.specs.Numbers.{of_kind};
ghost use Rattle.kq_store_column_view.specs.Vectors.{cells_of};
ghost use Rattle.kq_eval_columns.specs.Seen.{beside_one, paired};

use crate::numbers::{number_of, numbers_of};
use kq_eval_kernels::{LongOperator, Minus, Number, Plus, Remainder, Times, longs_beside};
use kq_plan_functions::Function;
use kq_store_column_view::Vector;
use kq_value::{Memory, Value};
use kq_value_arithmetic::{bin_of, divided, minus, plus};
use std::alloc::Global;

/// What a function gives of each number of a column and a value, where all are of the kind that the column has.
pub fn operated_beside<'v>(
    alloc: Global,
    function: Function,
    column: &Vector,
    value: &Value,
) -> Result<Option<Vector<'v>>, Memory>
    ensures { IfOk result (λ o. IfSome o (λ c. beside_one function value.now (cells_of column.now) ≡ map Is (cells_of c))) }
{
    let Some((kind, numbers)) = numbers_of(column) else {
        return Ok(None);
    };
    match operated_numbers(alloc, function, kind, numbers, value)? {
        Some(found) => Ok(Some(numbers_as(kind, found))),
        None => Ok(None),
    }
}

fn numbers_as<'v>(kind: Number, numbers: Vec<i64>) -> Vector<'v>
    ensures { cells_of result ≡ map (of_kind kind) numbers.items }
{
    match kind {
        Number::Longs => Vector::Longs(numbers),
        Number::Moments => Vector::Moments(numbers),
        Number::Spans => Vector::Spans(numbers),
    }
}

fn operated_numbers(
    alloc: Global,
    function: Function,
    kind: Number,
    numbers: &[i64],
    value: &Value,
) -> Result<Option<Vec<i64>>, Memory>
    ensures { IfOk result (λ o. IfSome o (λ zs. beside_one function value.now (map (of_kind kind) numbers.now) ≡ map (λ z. Is (of_kind kind z)) zs.items)) }
{
    match (kind, value) {
        (Number::Longs, Value::Long(other)) => operated_longs(alloc, function, numbers, *other),
        _ => operated_each(alloc, function, kind, numbers, value),
    }
}

fn operated_longs(
    alloc: Global,
    function: Function,
    longs: &[i64],
    other: i64,
) -> Result<Option<Vec<i64>>, Memory>
    ensures { IfOk result (λ o. IfSome o (λ zs. beside_one function (Long other) (map Long longs.now) ≡ map (λ z. Is (Long z)) zs.items)) }
{
    match function {
        Function::Add => longs_by::<Plus>(alloc, longs, other),
        Function::Subtract => longs_by::<Minus>(alloc, longs, other),
        Function::Multiply => longs_by::<Times>(alloc, longs, other),
        Function::Remainder => longs_by::<Remainder>(alloc, longs, other),
        _ => Ok(None),
    }
}

fn longs_by<O: LongOperator>(
    alloc: Global,
    longs: &[i64],
    other: i64,
) -> Result<Option<Vec<i64>>, Memory>
    ensures { IfOk result (λ o. IfSome o (λ zs. map (λ x. O.operator x (Long other)) (map Long longs.now) ≡ map (λ z. Is (Long z)) zs.items)) }
{
    longs_beside::<O>(alloc, longs, other)
}

fn operated_each(
    alloc: Global,
    function: Function,
    kind: Number,
    numbers: &[i64],
    value: &Value,
) -> Result<Option<Vec<i64>>, Memory>
    ensures { IfOk result (λ o. IfSome o (λ zs. beside_one function value.now (map (of_kind kind) numbers.now) ≡ map (λ z. Is (of_kind kind z)) zs.items)) }
{
    let mut found = Vec::with_capacity(alloc, numbers.len())?;
    for i in 0..numbers.len() {
        match operated_at(function, kind, numbers[i], value) {
            Some(number) => found.push(number)?,
            None => return Ok(None),
        }
    }
    Ok(Some(found))
}

fn operated_at(function: Function, kind: Number, number: i64, value: &Value) -> Option<i64>
    ensures { IfSome result (λ z. paired function (of_kind kind number) value.now ≡ Is (of_kind kind z)) }
{
    match operated(function, &cell_of_kind(kind, number), value) {
        Some(result) => number_of(kind, &result),
        None => None,
    }
}

fn cell_of_kind(kind: Number, number: i64) -> Value
    ensures { result ≡ of_kind kind number }
{
    match kind {
        Number::Longs => Value::Long(number),
        Number::Moments => Value::Moment(number),
        Number::Spans => Value::Span(number),
    }
}

// The value of an operator, where there is no overflow.
fn operated(function: Function, a: &Value, b: &Value) -> Option<Value>
    ensures { IfSome result (λ v. paired function a.now b.now ≡ Is v) }
{
    match function {
        Function::Add => plus(a, b).ok(),
        Function::Subtract => minus(a, b).ok(),
        Function::Divide => divided(a, b).ok(),
        Function::Bin => bin_of(a, b).ok(),
        _ => None,
    }
}
