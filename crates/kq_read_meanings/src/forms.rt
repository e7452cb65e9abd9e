// The forms of values.
ghost use Rattle.std.specs.Prelude.{◌≡◌, IfOk};
ghost use Rattle.std.specs.Option.{is_some};
ghost use Rattle.std.specs.List.{prefix_len};
ghost use Rattle.kq_read_meanings.specs.Forms.{plain_form, without_leading_white, without_trailing_white};
ghost use Rattle.kq_value.specs.declared.value.Value.TheVariants as value;
ghost use Rattle.kq_value_formats.specs.Cells.{form_of, is_white as white, trimmed};
ghost use Rattle.kq_value_formats.specs.Json.{dynamic_of};
ghost use Rattle.kq_value.specs.Seen.{dyn_of};

use kq_value::{Dyn, Memory, Text, Ty, Value};
use kq_value_formats::{read_bool, read_int, read_long};
use kq_value_json::read_dyn;
use kq_value_time::{read_datetime, read_timespan};
use std::alloc::Global;

fn is_white(byte: u8) -> bool
    ensures { result ≡ white byte }
{
    byte == b' ' || byte == b'\t' || byte == b'\r' || byte == b'\n'
}

// How many bytes of white space the text begins with.
fn leading_white(bytes: &[u8]) -> usize
    ensures { result ≡ prefix_len white bytes.now }
{
    bytes.iter().take_while(|byte| is_white(**byte)).count()
}

fn trim_start(text: &str) -> &str
    ensures { result.now ≡ without_leading_white text.now }
{
    &text[leading_white(text.as_bytes())..]
}

fn trim_end(text: &str) -> &str
    ensures { result.now ≡ without_trailing_white text.now }
{
    let bytes = text.as_bytes();
    let mut end = bytes.len();
    while end > 0 && is_white(bytes[end - 1]) {
        end -= 1;
    }
    &text[..end]
}

// The text without white space at its ends.
pub(crate) fn trim(text: &str) -> &str
    ensures { result.now ≡ trimmed white text.now }
{
    trim_end(trim_start(text))
}

// What a text is as a type whose values take no memory.
pub(crate) fn plain_form(ty: Ty, text: &str) -> Option<Value>
    ensures { result ≡ plain_form ty text.now }
{
    match ty {
        Ty::Long => Some(Value::Long(read_long(text)?)),
        Ty::Int => Some(Value::Int(read_int(text)?)),
        Ty::Bool => Some(Value::Bool(read_bool(text)?)),
        Ty::Moment => Some(Value::Moment(read_datetime(text)?)),
        Ty::Span => Some(Value::Span(read_timespan(text)?)),
        Ty::Text | Ty::Dynamic => None,
    }
}

fn dynamic(alloc: Global, text: &str) -> Result<Value, Memory>
    ensures { IfOk result (λ v. v ≡ value.Dynamic (dyn_of (dynamic_of text.now))) }
{
    match read_dyn(alloc, text)? {
        Some(dynamic) => Value::dynamic(alloc, dynamic),
        None => Value::dynamic(alloc, Dyn::Text(Text::from_str(alloc, text)?)),
    }
}

// What a text is as a type, where it has a form of it.
pub(crate) fn form(alloc: Global, ty: Ty, text: &str) -> Result<Option<Value>, Memory>
    ensures { IfOk result (λ v. v ≡ form_of ty text.now) }
{
    match ty {
        Ty::Text => Ok(Some(Value::Text(Text::from_str(alloc, text)?))),
        Ty::Dynamic => Ok(Some(dynamic(alloc, text)?)),
        _ => Ok(plain_form(ty, text)),
    }
}

// Whether a text has a form of a type, as every text has of string and dynamic.
pub(crate) fn has_form(ty: Ty, text: &str) -> bool
    ensures { result ≡ is_some (form_of ty text.now) }
{
    matches!(ty, Ty::Text | Ty::Dynamic) || plain_form(ty, text).is_some()
}
