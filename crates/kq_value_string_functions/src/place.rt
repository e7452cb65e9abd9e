// Places in texts, in characters.
ghost use Rattle.std.specs.Prelude.{◌≡◌, ◌≤ℤ◌, ◌<◌, ◌^◌, IfOk, MatchOption, None, Some, drop, length, option_map, pos, take};
ghost use Rattle.std.specs.Str.{chars, encode_utf8_all};
ghost use Rattle.kq_value_formats.specs.Strings as strings;
ghost use Rattle.kq_value_string_functions.specs.Texts as texts;

use kq_value::{Memory, Text, Ty, Value};
use memchr::memmem;
use std::alloc::Global;

/// `strlen`.
pub fn str_len(value: &Value) -> Value
    ensures { result ≡ texts.str_len value.now }
{
    match value {
        Value::Text(text) => Value::Long(char_count(text.as_str()) as i64),
        _ => Value::Null(Ty::Long),
    }
}

// The number of characters.
#[tactic(auto, using(std::proofs::lemmas::Str::chars_from_encodes))]
fn char_count(text: &str) -> usize
    ensures count { result ≡ strings.strlen text.now }
    ensures bound { result < 2 ^ 63 }
{
    text.chars().count()
}

/// `substring` to the end.
pub fn sub_text(alloc: Global, value: &Value, from: &Value) -> Result<Value, Memory>
    ensures { IfOk result (λ v. v ≡ texts.sub_text value.now from.now) }
{
    let text = match (value, from) {
        (Value::Text(text), Value::Long(from)) => rest_from(text.as_str(), *from),
        _ => "",
    };
    Ok(Value::Text(Text::from_str(alloc, text)?))
}

/// `substring` with a length.
pub fn sub_text_to(
    alloc: Global,
    value: &Value,
    from: &Value,
    count: &Value,
) -> Result<Value, Memory>
    ensures { IfOk result (λ v. v ≡ texts.sub_text_to value.now from.now count.now) }
{
    let text = match (value, from, count) {
        (Value::Text(text), Value::Long(from), Value::Long(count)) => {
            part_from(text.as_str(), *from, *count)
        }
        _ => "",
    };
    Ok(Value::Text(Text::from_str(alloc, text)?))
}

// The characters from a place on, which counts from the end where it is negative.
fn rest_from(text: &str, from: i64) -> &str
    ensures { result.now ≡ strings.substring_from text.now from }
{
    let places = from.unsigned_abs();
    if from < 0 {
        let len = char_count(text) as u64;
        behind(text, len.saturating_sub(places))
    } else {
        behind(text, places)
    }
}

// As many characters from a place on, or all where the number is negative.
fn part_from(text: &str, from: i64, count: i64) -> &str
    ensures { result.now ≡ strings.substring text.now from count }
{
    let rest = rest_from(text, from);
    if count < 0 {
        rest
    } else {
        front(rest, count.unsigned_abs())
    }
}

// The text without its first characters.
fn behind(text: &str, count: u64) -> &str
    ensures { result.now ≡ encode_utf8_all (drop count (chars text.now)) }
{
    let mut rest = text.chars();
    for _skipped in 0..count {
        if rest.next().is_none() {
            return "";
        }
    }
    rest.as_str()
}

// The first characters of a text.
fn front(text: &str, count: u64) -> &str
    ensures { result.now ≡ encode_utf8_all (take count (chars text.now)) }
{
    let rest = behind(text, count);
    &text[..text.len() - rest.len()]
}

/// `indexof`.
pub fn index_in(value: &Value, part: &Value) -> Value
    ensures { result ≡ texts.index_in value.now part.now }
{
    let (Value::Text(text), Value::Text(part)) = (value, part) else {
        return Value::Null(Ty::Long);
    };
    Value::Long(index_of(text.as_str(), part.as_str()))
}

// The place of the first occurrence in characters, else -1.
fn index_of(text: &str, part: &str) -> i64
    ensures { result ≡ strings.indexof text.now part.now }
{
    match memmem::find(text.as_bytes(), part.as_bytes()) {
        Some(place) => char_count(&text[..place]) as i64,
        None => -1,
    }
}
