// The three values of truth.
ghost use Rattle.std.specs.Prelude.{◌≡◌};
ghost use Rattle.kq_value_arithmetic.specs.Comparing.{equal};
ghost use Rattle.kq_value_arithmetic.specs.Logic.{is_yes, is_no, conjunction, disjunction, negation, in_list, between_of};

use crate::comparing::{at_least, at_most, equal};
use kq_value::{Ty, Value};

/// Whether it is the bool true.
pub fn is_yes(v: &Value) -> bool
    ensures { result ≡ is_yes v.now }
{
    matches!(v, Value::Bool(true))
}

/// Whether it is the bool false.
pub fn is_no(v: &Value) -> bool
    ensures { result ≡ is_no v.now }
{
    matches!(v, Value::Bool(false))
}

/// `and`: false where a side is false, else true where both are true, else null.
pub fn conjunction(a: &Value, b: &Value) -> Value
    ensures { result ≡ conjunction a.now b.now }
{
    if is_no(a) || is_no(b) {
        Value::Bool(false)
    } else if is_yes(a) && is_yes(b) {
        Value::Bool(true)
    } else {
        Value::Null(Ty::Bool)
    }
}

/// `or`: true where a side is true, else false where both are false, else null.
pub fn disjunction(a: &Value, b: &Value) -> Value
    ensures { result ≡ disjunction a.now b.now }
{
    if is_yes(a) || is_yes(b) {
        Value::Bool(true)
    } else if is_no(a) && is_no(b) {
        Value::Bool(false)
    } else {
        Value::Null(Ty::Bool)
    }
}

/// `not`: null of a null.
pub fn negation(v: &Value) -> Value
    ensures { result ≡ negation v.now }
{
    match v {
        Value::Bool(b) => Value::Bool(!*b),
        _ => Value::Null(Ty::Bool),
    }
}

/// `in`: the `or` of what `equal` says of x and each value of the list.
#[tactic(auto, using(crate::proofs::Truths::disjunction_false, crate::proofs::Truths::disjunction_yes, crate::proofs::Truths::disjunction_itself))]
pub fn in_list(x: &Value, list: &[Value]) -> Value
    ensures { result ≡ in_list equal x.now list.now }
{
    let mut found = Value::Bool(false);
    for value in list {
        found = disjunction(&found, &equal(x, value));
        if is_yes(&found) {
            return found;
        }
    }
    found
}

/// `between`: at least a and at most b.
pub fn between_of(x: &Value, a: &Value, b: &Value) -> Value
    ensures { result ≡ between_of x.now a.now b.now }
{
    conjunction(&at_least(x, a), &at_most(x, b))
}
