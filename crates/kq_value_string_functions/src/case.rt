// Upper and lower case.
ghost use Rattle.std.specs.Prelude.{◌≡◌, ℕ, List, IfOk, IsOk};
ghost use Rattle.kq_value.specs.declared.value.Value.TheVariants as variants;
ghost use Rattle.std.specs.Str.{bytes_eq, str_to_ascii_lowercase};
ghost use Rattle.kq_value_string_functions.specs.Texts as texts;

use kq_value::{Memory, Text, Value};
use kq_value_conversions::text_of_value;
use std::alloc::Global;

/// `=~`, of each as `tostring` gives it. Between two strings it takes no memory.
pub fn equal_folded(alloc: Global, a: &Value, b: &Value) -> Result<Value, Memory>
    ensures value { IfOk result (λ v. v ≡ texts.equal_folded a.now b.now) }
    ensures strings { (s t : List ℕ) → a.now ≡ variants.Text s → b.now ≡ variants.Text t → IsOk result }
{
    if let (Value::Text(a), Value::Text(b)) = (a, b) {
        return Ok(Value::Bool(are_equal(a.as_str(), b.as_str())));
    }
    let a = text_of_value(alloc, a)?;
    let b = text_of_value(alloc, b)?;
    Ok(Value::Bool(are_equal(a.as_str(), b.as_str())))
}

#[tactic(auto, using(crate::proofs::Same::same_bytes))]
fn are_equal(a: &str, b: &str) -> bool
    ensures { result ≡ bytes_eq (str_to_ascii_lowercase a.now) (str_to_ascii_lowercase b.now) }
{
    a.eq_ignore_ascii_case(b)
}

/// `tolower`.
pub fn lowered(alloc: Global, value: &Value) -> Result<Value, Memory>
    ensures { IfOk result (λ v. v ≡ texts.lowered value.now) }
{
    let lower = match value {
        Value::Text(text) => text.as_str().to_ascii_lowercase(alloc)?,
        _ => String::new(alloc),
    };
    Ok(Value::Text(Text::from_string(alloc, lower)?))
}

/// `toupper`.
pub fn uppered(alloc: Global, value: &Value) -> Result<Value, Memory>
    ensures { IfOk result (λ v. v ≡ texts.uppered value.now) }
{
    let upper = match value {
        Value::Text(text) => text.as_str().to_ascii_uppercase(alloc)?,
        _ => String::new(alloc),
    };
    Ok(Value::Text(Text::from_string(alloc, upper)?))
}
