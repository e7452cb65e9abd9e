// The numbers in values, and numbers as values of types.
ghost use Rattle.std.specs.Prelude.{◌≡◌, ℤ, pos, SomeIff, FitsSigned, IfErr, int_div, unsigned_abs};
ghost use Rattle.std.specs.Int.{w64, IsNonZero};
ghost use Rattle.kq_value.specs.Computed.{Answers};
ghost use Rattle.kq_value.specs.declared.fault.EvalFault.TheVariants.{Overflow};
ghost use Rattle.kq_value_arithmetic.specs.Numbers.{number_of, number_in};

use kq_value::{EvalFault, LAST_MOMENT, Ty, Value};

pub(crate) fn number_of(v: &Value) -> Option<i64>
    ensures { result ≡ number_of v.now }
{
    match v {
        Value::Long(z) | Value::Moment(z) | Value::Span(z) => Some(*z),
        Value::Int(z) => Some(i64::from(*z)),
        _ => None,
    }
}

// The value of the number that a checked operation gave, where it gave one.
pub(crate) fn number_in(ty: Ty, number: Option<i64>) -> Result<Value, EvalFault>
    ensures answers { (z : ℤ) → SomeIff number (FitsSigned w64 z) z → Answers (number_in ty z) result }
    ensures fault { IfErr result (λ e. e ≡ Overflow) }
{
    match (ty, number) {
        (Ty::Long, Some(z)) => Ok(Value::Long(z)),
        (Ty::Int, Some(z)) if -2_147_483_648 <= z && z <= 2_147_483_647 => Ok(Value::Int(z as i32)),
        (Ty::Moment, Some(z)) if 0 <= z && z <= LAST_MOMENT => Ok(Value::Moment(z)),
        (Ty::Span, Some(z)) => Ok(Value::Span(z)),
        (Ty::Text | Ty::Bool | Ty::Dynamic, _) => Ok(Value::Null(ty)),
        _ => Err(EvalFault::Overflow),
    }
}

// The quotient of two numbers, where it fits.
pub(crate) fn checked_quotient(m: i64, n: i64) -> Option<i64>
    requires { IsNonZero w64 n }
    ensures { SomeIff result (FitsSigned w64 (int_div m n)) (int_div m n) }
{
    m.checked_div(n)
}

// The distance from zero, where it fits.
pub(crate) fn checked_distance(z: i64) -> Option<i64>
    ensures { SomeIff result (FitsSigned w64 (pos (unsigned_abs z))) (pos (unsigned_abs z)) }
{
    z.checked_abs()
}
