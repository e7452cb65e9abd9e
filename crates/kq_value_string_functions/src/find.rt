// The string operators.
ghost use Rattle.std.specs.Prelude.{◌≡◌, ℕ, List, IfOk, IsOk};
ghost use Rattle.kq_value.specs.declared.value.Value.TheVariants.{Text};
ghost use Rattle.kq_value_string_functions.specs.Texts as texts;

use kq_value::{Memory, Value};
use kq_value_conversions::text_of_value;
use kq_value_strings::{FindKind, find_text};
use std::alloc::Global;

/// Whether `part` is found in `value`, each as `tostring` gives it. Between two strings it takes no memory.
pub fn found(alloc: Global, kind: FindKind, value: &Value, part: &Value) -> Result<Value, Memory>
    ensures value { IfOk result (λ v. v ≡ texts.found kind value.now part.now) }
    ensures strings { (s t : List ℕ) → value.now ≡ Text s → part.now ≡ Text t → IsOk result }
{
    if let (Value::Text(text), Value::Text(part)) = (value, part) {
        return Ok(Value::Bool(find_text(kind, text.as_str(), part.as_str())));
    }
    let text = text_of_value(alloc, value)?;
    let part = text_of_value(alloc, part)?;
    Ok(Value::Bool(find_text(kind, text.as_str(), part.as_str())))
}
