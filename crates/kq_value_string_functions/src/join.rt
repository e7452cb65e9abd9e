// Joining.
ghost use Rattle.std.specs.Prelude.{◌≡◌, IfOk};
ghost use Rattle.kq_value_string_functions.specs.Texts as texts;

use kq_value::{Memory, Text, Value};
use kq_value_conversions::put_text;
use std::alloc::Global;

/// `strcat`.
pub fn joined(alloc: Global, values: &[Value]) -> Result<Value, Memory>
    ensures { IfOk result (λ v. v ≡ texts.joined values.now) }
{
    let mut text = String::new(alloc);
    for value in values {
        put_text(alloc, value, &mut text)?;
    }
    Ok(Value::Text(Text::from_string(alloc, text)?))
}
