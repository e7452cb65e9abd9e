// The comparisons.
ghost use Rattle.std.specs.Prelude.{◌≡◌, not, ◌||◌};
ghost use Rattle.kq_value.specs.Typed.{is_null};
ghost use Rattle.kq_value.specs.declared.value.Value.TheVariants.{Dynamic};
ghost use Rattle.kq_value_arithmetic.specs.Comparing.{less, at_most, greater, at_least, equal, unequal, are_same};

use kq_value::{Dyn, Ty, Value};

/// Whether a is less than b: two longs, ints, datetimes or timespans. False beside a null.
pub fn less(a: &Value, b: &Value) -> Value
    ensures { result ≡ less a.now b.now }
{
    Value::Bool(are_there(a, b) && a.cmp(b).is_lt())
}

/// As `less`.
pub fn at_most(a: &Value, b: &Value) -> Value
    ensures { result ≡ at_most a.now b.now }
{
    Value::Bool(are_there(a, b) && a.cmp(b).is_le())
}

/// As `less`.
pub fn greater(a: &Value, b: &Value) -> Value
    ensures { result ≡ greater a.now b.now }
{
    Value::Bool(are_there(a, b) && a.cmp(b).is_gt())
}

/// As `less`.
pub fn at_least(a: &Value, b: &Value) -> Value
    ensures { result ≡ at_least a.now b.now }
{
    Value::Bool(are_there(a, b) && a.cmp(b).is_ge())
}

// Whether neither is null.
fn are_there(a: &Value, b: &Value) -> bool
    ensures { result ≡ not (is_null a.now || is_null b.now) }
{
    !(a.is_null() || b.is_null())
}

/// Whether the two are equal: of one type, or a dynamic and the long, the string or the bool that it may hold. Null where both are null, and false
/// where one is.
pub fn equal(a: &Value, b: &Value) -> Value
    ensures { result ≡ equal a.now b.now }
{
    if a.is_null() && b.is_null() {
        Value::Null(Ty::Bool)
    } else {
        Value::Bool(are_there(a, b) && are_same(a, b))
    }
}

/// As `equal`, but true where one alone is null.
pub fn unequal(a: &Value, b: &Value) -> Value
    ensures { result ≡ unequal a.now b.now }
{
    match equal(a, b) {
        Value::Bool(same) => Value::Bool(!same),
        null => null,
    }
}

#[tactic(auto, using(crate::proofs::Sameness::are_same_turned))]
fn are_same(a: &Value, b: &Value) -> bool
    ensures { result ≡ are_same a.now b.now }
{
    match (a, b) {
        (Value::Dynamic(d), _) => holds(d.as_dyn(), b),
        (_, Value::Dynamic(d)) => holds(d.as_dyn(), a),
        _ => a.same(b),
    }
}

// Whether a dynamic is the value.
fn holds(dynamic: &Dyn, v: &Value) -> bool
    ensures { result ≡ are_same (Dynamic dynamic.now) v.now }
{
    match (dynamic, v) {
        (Dyn::Long(m), Value::Long(n)) => m.cmp(n).is_eq(),
        (Dyn::Text(s), Value::Text(t)) => s.cmp(t).is_eq(),
        (Dyn::Bool(b), Value::Bool(c)) => b.cmp(c).is_eq(),
        (_, Value::Dynamic(d)) => dynamic.cmp(d.as_dyn()).is_eq(),
        _ => false,
    }
}
