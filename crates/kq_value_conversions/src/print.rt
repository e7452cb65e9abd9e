// Values as texts.
ghost use Rattle.std.specs.Prelude.{◌≡◌, ◌++◌, IfOk, OnOk, OnErr, string_bytes};
ghost use Rattle.std.specs.Str.{IsUtf8};
ghost use Rattle.kq_value.specs.declared.value.Value.TheVariants.{Dynamic, Moment, Span};
ghost use Rattle.kq_value_formats.specs.Cells.{text_of};
ghost use Rattle.kq_value_formats.specs.Numerals.{bool_text};
ghost use Rattle.kq_value_conversions.specs.Converted as converted;

use itoa::Buffer;
use kq_value::{Dyn, Memory, Text, Value, is_moment};
use kq_value_json::dyn_text;
use kq_value_time::{put_datetime, put_timespan};
use std::alloc::Global;
use std::str;

/// Appends the text of a value, as `tostring` gives it.
pub fn put_text(alloc: Global, value: &Value, out: &mut String) -> Result<(), Memory>
    ensures ok { OnOk result (string_bytes out.new ≡ string_bytes out.old ++ converted.printed value.now) }
    ensures err { OnErr result (string_bytes out.new ≡ string_bytes out.old) }
{
    let mut digits = Buffer::new();
    match value {
        Value::Null(_) => Ok(()),
        Value::Long(n) => out.push_str(digits.format(*n)),
        Value::Int(n) => out.push_str(digits.format(*n)),
        Value::Text(text) => out.push_str(text.as_str()),
        Value::Bool(b) => out.push_str(bool_word(*b)),
        Value::Moment(ticks) => put_moment(*ticks, out),
        Value::Span(ticks) => put_span(*ticks, out),
        Value::Dynamic(value) => put_dynamic(alloc, value.as_dyn(), out),
    }
}

fn bool_word(b: bool) -> &'static str
    ensures { result.now ≡ bool_text b }
{
    if b { "true" } else { "false" }
}

fn put_moment(ticks: i64, out: &mut String) -> Result<(), Memory>
    ensures ok { OnOk result (string_bytes out.new ≡ string_bytes out.old ++ converted.printed (Moment ticks)) }
    ensures err { OnErr result (string_bytes out.new ≡ string_bytes out.old) }
{
    if !is_moment(ticks) {
        return Ok(());
    }
    let mut text = [0; 28];
    put_datetime(ticks, &mut text);
    out.push_str(utf8(&text))
}

fn put_span(ticks: i64, out: &mut String) -> Result<(), Memory>
    ensures ok { OnOk result (string_bytes out.new ≡ string_bytes out.old ++ text_of (Span ticks)) }
    ensures err { OnErr result (string_bytes out.new ≡ string_bytes out.old) }
{
    let mut text = [0; 28];
    let len = put_timespan(ticks, &mut text);
    out.push_str(utf8(&text[..len]))
}

fn put_dynamic(alloc: Global, value: &Dyn, out: &mut String) -> Result<(), Memory>
    ensures ok { OnOk result (string_bytes out.new ≡ string_bytes out.old ++ text_of (Dynamic value.now)) }
    ensures err { OnErr result (string_bytes out.new ≡ string_bytes out.old) }
{
    match value {
        Dyn::Null => Ok(()),
        Dyn::Text(text) => out.push_str(text.as_str()),
        Dyn::Bool(_) | Dyn::Long(_) | Dyn::List(_) | Dyn::Bag(_) => {
            let text = dyn_text(alloc, value)?;
            out.push_str(text.as_str())
        }
    }
}

fn utf8(bytes: &[u8]) -> &str
    requires { IsUtf8 bytes.now }
    ensures { result.now ≡ bytes.now }
{
    match str::from_utf8(bytes) {
        Ok(text) => text,
        Err(_) => unreachable!(),
    }
}

/// The text of a value, as `tostring` gives it. That of a string, and of a dynamic string, is shared.
pub fn text_of_value(alloc: Global, value: &Value) -> Result<Text, Memory>
    ensures { IfOk result (λ t. t ≡ converted.printed value.now) }
{
    if let Value::Text(text) = value {
        return text.clone_in();
    }
    if let Value::Dynamic(dynamic) = value
        && let Dyn::Text(text) = dynamic.as_dyn()
    {
        return text.clone_in();
    }
    let mut text = String::new(alloc);
    put_text(alloc, value, &mut text)?;
    Text::from_string(alloc, text)
}
