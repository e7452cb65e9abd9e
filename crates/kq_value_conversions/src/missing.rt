// The tests for null and for empty.
ghost use Rattle.std.specs.Prelude.{◌≡◌, not};
ghost use Rattle.kq_value.specs.declared.value.Value.TheVariants.{Bool as Truth};
ghost use Rattle.kq_value_conversions.specs.Converted as converted;

use kq_value::Value;

/// `isnull`.
pub fn null_test(value: &Value) -> Value
    ensures { result ≡ converted.null_test value.now }
{
    Value::Bool(value.is_null())
}

/// `isnotnull`.
pub fn not_null_test(value: &Value) -> Value
    ensures { result ≡ converted.not_null_test value.now }
{
    Value::Bool(!value.is_null())
}

/// `isempty`.
pub fn empty_test(value: &Value) -> Value
    ensures { result ≡ converted.empty_test value.now }
{
    Value::Bool(is_empty(value))
}

/// `isnotempty`.
pub fn not_empty_test(value: &Value) -> Value
    ensures { result ≡ converted.not_empty_test value.now }
{
    Value::Bool(!is_empty(value))
}

fn is_empty(value: &Value) -> bool
    ensures empty { Truth result ≡ converted.empty_test value.now }
    ensures not_empty { Truth (not result) ≡ converted.not_empty_test value.now }
{
    match value {
        Value::Text(text) => text.is_empty(),
        _ => value.is_null(),
    }
}
