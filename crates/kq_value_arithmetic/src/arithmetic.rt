// The arithmetic operators.
ghost use Rattle.std.specs.Prelude.{◌≡◌, IfErr};
ghost use Rattle.kq_value.specs.Computed.{Answers};
ghost use Rattle.kq_value.specs.declared.fault.EvalFault.TheVariants.{Overflow};
ghost use Rattle.kq_value_arithmetic.specs.Arithmetic.{plus, minus, times, divided, remainder, bin_of, negated, absolute, sum_type, difference_type, product_type};

use crate::numbers::{checked_distance, checked_quotient, number_in, number_of};
use kq_value::{EvalFault, Ty, Value};

/// The sum of two longs, ints or timespans, or of a datetime and a timespan.
pub fn plus(a: &Value, b: &Value) -> Result<Value, EvalFault>
    ensures answers { Answers (plus a.now b.now) result }
    ensures fault { IfErr result (λ e. e ≡ Overflow) }
{
    let ty = sum_type(a.ty(), b.ty());
    match (number_of(a), number_of(b)) {
        (Some(m), Some(n)) => number_in(ty, m.checked_add(n)),
        _ => Ok(Value::Null(ty)),
    }
}

fn sum_type(a: Ty, b: Ty) -> Ty
    ensures { result ≡ sum_type a b }
{
    match b {
        Ty::Moment => Ty::Moment,
        _ => a,
    }
}

/// The difference of two longs, ints or timespans, of a datetime and a timespan, or of two datetimes, which is a timespan.
pub fn minus(a: &Value, b: &Value) -> Result<Value, EvalFault>
    ensures answers { Answers (minus a.now b.now) result }
    ensures fault { IfErr result (λ e. e ≡ Overflow) }
{
    let ty = difference_type(a.ty(), b.ty());
    match (number_of(a), number_of(b)) {
        (Some(m), Some(n)) => number_in(ty, m.checked_sub(n)),
        _ => Ok(Value::Null(ty)),
    }
}

fn difference_type(a: Ty, b: Ty) -> Ty
    ensures { result ≡ difference_type a b }
{
    match b {
        Ty::Moment => Ty::Span,
        _ => a,
    }
}

/// The product of two longs or ints, or of a timespan and a long.
pub fn times(a: &Value, b: &Value) -> Result<Value, EvalFault>
    ensures answers { Answers (times a.now b.now) result }
    ensures fault { IfErr result (λ e. e ≡ Overflow) }
{
    let ty = product_type(a.ty(), b.ty());
    match (number_of(a), number_of(b)) {
        (Some(m), Some(n)) => number_in(ty, m.checked_mul(n)),
        _ => Ok(Value::Null(ty)),
    }
}

fn product_type(a: Ty, b: Ty) -> Ty
    ensures { result ≡ product_type a b }
{
    match b {
        Ty::Span => Ty::Span,
        _ => a,
    }
}

/// The quotient of two longs or ints, or of a timespan and a long, truncated towards zero; null where the divisor is 0.
pub fn divided(a: &Value, b: &Value) -> Result<Value, EvalFault>
    ensures answers { Answers (divided a.now b.now) result }
    ensures fault { IfErr result (λ e. e ≡ Overflow) }
{
    match (number_of(a), number_of(b)) {
        (Some(m), Some(n)) if n != 0 => number_in(a.ty(), checked_quotient(m, n)),
        _ => Ok(Value::Null(a.ty())),
    }
}

/// The remainder of two longs, ints or timespans, which is never negative; null where the divisor is 0.
pub fn remainder(a: &Value, b: &Value) -> Result<Value, EvalFault>
    ensures answers { Answers (remainder a.now b.now) result }
    ensures fault { IfErr result (λ e. e ≡ Overflow) }
{
    match (number_of(a), number_of(b)) {
        (Some(m), Some(n)) if n != 0 => number_in(a.ty(), Some(m.wrapping_rem_euclid(n))),
        _ => Ok(Value::Null(a.ty())),
    }
}

/// The greatest multiple of the step at or below x: for two longs, ints or timespans, or for a datetime and a timespan. Null where the step is 0 or
/// less.
pub fn bin_of(x: &Value, step: &Value) -> Result<Value, EvalFault>
    ensures answers { Answers (bin_of x.now step.now) result }
    ensures fault { IfErr result (λ e. e ≡ Overflow) }
{
    match (number_of(x), number_of(step)) {
        (Some(m), Some(n)) if 0 < n => number_in(x.ty(), m.checked_sub(m.wrapping_rem_euclid(n))),
        _ => Ok(Value::Null(x.ty())),
    }
}

/// The number below zero by as much as this one is above, of a long, an int or a timespan.
pub fn negated(v: &Value) -> Result<Value, EvalFault>
    ensures answers { Answers (negated v.now) result }
    ensures fault { IfErr result (λ e. e ≡ Overflow) }
{
    match number_of(v) {
        Some(z) => number_in(v.ty(), z.checked_neg()),
        None => Ok(Value::Null(v.ty())),
    }
}

/// The distance from zero, of a long, an int or a timespan.
pub fn absolute(v: &Value) -> Result<Value, EvalFault>
    ensures answers { Answers (absolute v.now) result }
    ensures fault { IfErr result (λ e. e ≡ Overflow) }
{
    match number_of(v) {
        Some(z) => number_in(v.ty(), checked_distance(z)),
        None => Ok(Value::Null(v.ty())),
    }
}
