// Columns of numbers beside one number.
ghost use Rattle.std.specs.Prelude.{◌≡◌, map, IfOk, IfSome};
ghost use Rattle.kq_value.specs.Computed.{Is};
ghost use Rattle.kq_eval_kernels.specs.Numbers.{of_kind};
ghost use Rattle.kq_store_column_view.specs.Vectors.{cells_of};
ghost use Rattle.kq_eval_columns.specs.Seen.{beside_one, truths_of};

use kq_eval_kernels::{
    AtLeast, AtMost, Equal, Greater, Less, LongTest, Number, Unequal, tests_beside,
};
use kq_plan_functions::Function;
use kq_store_column_view::Vector;
use kq_value::{Memory, Value};
use std::alloc::Global;

/// The truths that a function gives of each number and another, as cells of one kind.
pub fn number_tests(
    alloc: Global,
    function: Function,
    kind: Number,
    numbers: &[i64],
    other: i64,
) -> Result<Option<Vec<bool>>, Memory>
    ensures { IfOk result (λ o. IfSome o (λ ts. beside_one function (of_kind kind other) (map (of_kind kind) numbers.now) ≡ truths_of ts.items)) }
{
    match function {
        Function::Equal => tests_by::<Equal>(alloc, kind, numbers, other),
        Function::Unequal => tests_by::<Unequal>(alloc, kind, numbers, other),
        Function::Less => tests_by::<Less>(alloc, kind, numbers, other),
        Function::AtMost => tests_by::<AtMost>(alloc, kind, numbers, other),
        Function::Greater => tests_by::<Greater>(alloc, kind, numbers, other),
        Function::AtLeast => tests_by::<AtLeast>(alloc, kind, numbers, other),
        _ => Ok(None),
    }
}

fn tests_by<T: LongTest>(
    alloc: Global,
    kind: Number,
    numbers: &[i64],
    other: i64,
) -> Result<Option<Vec<bool>>, Memory>
    ensures { IfOk result (λ o. IfSome o (λ ts. map (λ x. Is (T.test x (of_kind kind other))) (map (of_kind kind) numbers.now) ≡ truths_of ts.items)) }
{
    Ok(Some(tests_beside::<T>(alloc, kind, numbers, other)?))
}

/// The numbers of a column that has these alone, and their kind.
pub fn numbers_of<'a>(column: &'a Vector) -> Option<(Number, &'a [i64])>
    ensures { IfSome result (λ x. cells_of column.now ≡ map (of_kind x.0) x.1.now) }
{
    if let Some(longs) = column.longs() {
        return Some((Number::Longs, longs));
    }
    if let Some(ticks) = column.moments() {
        return Some((Number::Moments, ticks));
    }
    if let Some(ticks) = column.spans() {
        return Some((Number::Spans, ticks));
    }
    None
}

/// The number of a cell of this kind.
pub fn number_of(kind: Number, value: &Value) -> Option<i64>
    ensures { IfSome result (λ z. value.now ≡ of_kind kind z) }
{
    match (kind, value) {
        (Number::Longs, Value::Long(long)) => Some(*long),
        (Number::Moments, Value::Moment(ticks)) => Some(*ticks),
        (Number::Spans, Value::Span(ticks)) => Some(*ticks),
        _ => None,
    }
}
