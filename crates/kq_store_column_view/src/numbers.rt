// Cells that numbers stand for.
ghost use Rattle.std.specs.Prelude.{◌≡◌, map, FitsSigned, Some};
ghost use Rattle.std.specs.Int.{w32};
ghost use Rattle.kq_value.specs.declared.ty.Ty.TheVariants.{Int};
ghost use Rattle.kq_value.specs.declared.value.Value.TheVariants.{Long, Moment, Span};
ghost use Rattle.kq_store_column_view.specs.Numbers.{marked, number_cell, AreNumbers};
ghost use Rattle.kq_store_column_view.specs.Vectors.{cell_of, cells_of};

use crate::marked::MarkedNumbers;
use crate::vector::Vector;
use kq_value::{Ty, Value};

/// The value that a number stands for.
pub fn value_of(ty: Ty, number: i64) -> Value
    requires { ty ≡ Int → FitsSigned w32 number }
    ensures { result ≡ number_cell ty (Some number) }
{
    match ty {
        Ty::Long => Value::Long(number),
        Ty::Int => Value::Int(number as i32),
        Ty::Bool => Value::Bool(number > 0),
        Ty::Moment => Value::Moment(number),
        Ty::Span => Value::Span(number),
        Ty::Text | Ty::Dynamic => Value::Null(ty),
    }
}

// A cell of numbers, and a null past the end.
pub(crate) fn number_at(ty: Ty, numbers: &[i64], nulls: &[bool], i: usize) -> Value
    requires { AreNumbers ty nulls.now numbers.now }
    ensures { result ≡ cell_of (map (number_cell ty) (marked nulls.now numbers.now)) i }
{
    if i >= numbers.len() {
        return Value::Null(Ty::Long);
    }
    if i < nulls.len() && nulls[i] {
        Value::Null(ty)
    } else {
        value_of(ty, numbers[i])
    }
}

/// A column of these numbers: as they are where none is null and kernels know the type, else with their marks.
pub fn lent_numbers<'a>(numbers: MarkedNumbers<'a>) -> Vector<'a>
    ensures { cells_of result ≡ map (number_cell numbers.entry.ty) (marked numbers.entry.nulls.now numbers.entry.numbers.now) }
{
    if numbers.nulls.len() > 0 {
        return Vector::Marked(numbers);
    }
    match numbers.ty {
        Ty::Long => Vector::LentLongs(numbers.numbers),
        Ty::Moment => Vector::LentMoments(numbers.numbers),
        Ty::Span => Vector::LentSpans(numbers.numbers),
        Ty::Int | Ty::Text | Ty::Bool | Ty::Dynamic => Vector::Marked(numbers),
    }
}

pub(crate) fn marked_longs(longs: &[i64]) -> MarkedNumbers<'_>
    ensures { map (number_cell result.ty) (marked result.nulls.now result.numbers.now) ≡ map Long longs.now }
{
    MarkedNumbers {
        ty: Ty::Long,
        numbers: longs,
        nulls: &[],
    }
}

pub(crate) fn marked_moments(ticks: &[i64]) -> MarkedNumbers<'_>
    ensures { map (number_cell result.ty) (marked result.nulls.now result.numbers.now) ≡ map Moment ticks.now }
{
    MarkedNumbers {
        ty: Ty::Moment,
        numbers: ticks,
        nulls: &[],
    }
}

pub(crate) fn marked_spans(ticks: &[i64]) -> MarkedNumbers<'_>
    ensures { map (number_cell result.ty) (marked result.nulls.now result.numbers.now) ≡ map Span ticks.now }
{
    MarkedNumbers {
        ty: Ty::Span,
        numbers: ticks,
        nulls: &[],
    }
}
