// The values of literals.
ghost use Rattle.std.specs.Prelude.{◌≡◌, ◌≤◌, ◌==◌, IfOk, length};
ghost use Rattle.std.specs.List.{list_all, position_or_len, prefix_len};
ghost use Rattle.std.specs.Option.{is_some, option_map};
ghost use Rattle.kq_read_meanings.specs.Literals.{empty_form, first_word as the_first_word, literal_value as value_of, number_said, raw_said, typed_said};
ghost use Rattle.kq_read_tokens.specs.Bytes.{is_digit as is_decimal_byte, is_end, is_hexadecimal_digit as is_hexadecimal_byte, is_word_byte as is_of_word, run_then};
ghost use Rattle.kq_read_tokens.specs.Numbers.{digits, is_hexadecimal as is_hexadecimal_number, is_whole_number as is_number, is_x_and_digits as is_hexadecimal_behind};
ghost use Rattle.kq_value.specs.declared.value.Value.TheVariants as value;
ghost use Rattle.kq_value_formats.specs.Cells.{literal_of};

use crate::forms::{form, has_form, plain_form, trim};
use crate::names::string_text;
use crate::pieces::{cut, piece};
use crate::types::ty_of;
use kq_read_literals::whole_number;
use kq_read_symbols::{Kind, ReservedWord, Symbol, Word};
use kq_value::{Dyn, Memory, Ty, Value};
use std::alloc::Global;

/// The value of a literal; None of a real, of a whole number over 9223372036854775807, of a timespan that is no whole number of ticks or out of
/// range, and of a typed literal whose word is that of no type or whose raw text has no form of it.
pub fn literal_value(alloc: Global, text: &str, symbol: Symbol) -> Result<Option<Value>, Memory>
    ensures { IfOk result (λ v. v ≡ value_of text.now symbol) }
{
    let written = piece(text, symbol);
    match symbol.kind {
        Kind::WholeNumber => Ok(whole_value(written)),
        Kind::Timespan => Ok(plain_form(Ty::Span, written)),
        Kind::TypedLiteral => typed_value(alloc, written),
        Kind::String(_) => Ok(Some(Value::Text(string_text(alloc, written)?))),
        Kind::Word(Word::Reserved(ReservedWord::True)) => Ok(Some(Value::Bool(true))),
        Kind::Word(Word::Reserved(ReservedWord::False)) => Ok(Some(Value::Bool(false))),
        _ => Ok(None),
    }
}

/// Whether a literal has a value. Takes no memory.
pub fn has_value(text: &str, symbol: Symbol) -> bool
    ensures { result ≡ is_some (value_of text.now symbol) }
{
    let written = piece(text, symbol);
    match symbol.kind {
        Kind::WholeNumber => whole_value(written).is_some(),
        Kind::Timespan => plain_form(Ty::Span, written).is_some(),
        Kind::TypedLiteral => has_typed_value(written),
        Kind::String(_) => true,
        Kind::Word(Word::Reserved(ReservedWord::True)) => true,
        Kind::Word(Word::Reserved(ReservedWord::False)) => true,
        _ => false,
    }
}

fn whole_value(written: &str) -> Option<Value>
    ensures { result ≡ option_map value.Long (number_said written.now) }
{
    Some(Value::Long(number(written.as_bytes())?))
}

fn number(bytes: &[u8]) -> Option<i64>
    ensures { result ≡ number_said bytes.now }
{
    if is_whole_number(bytes) {
        whole_number(bytes)
    } else {
        None
    }
}

fn is_whole_number(bytes: &[u8]) -> bool
    ensures { result ≡ is_number bytes.now }
{
    is_decimal(bytes) || is_hexadecimal(bytes)
}

#[tactic(auto, using(crate::proofs::Runs::run_lemmas))]
fn is_decimal(bytes: &[u8]) -> bool
    ensures { result ≡ digits is_end bytes.now }
{
    !bytes.is_empty() && are_digits(bytes)
}

#[tactic(auto, using(crate::proofs::Runs::run_lemmas))]
fn is_hexadecimal_run(bytes: &[u8]) -> bool
    ensures { result ≡ run_then is_hexadecimal_byte is_end bytes.now }
{
    !bytes.is_empty() && are_hexadecimal_digits(bytes)
}

fn are_digits(bytes: &[u8]) -> bool
    ensures { result ≡ list_all is_decimal_byte bytes.now }
{
    bytes.iter().all(|byte| is_digit(*byte))
}

fn are_hexadecimal_digits(bytes: &[u8]) -> bool
    ensures { result ≡ list_all is_hexadecimal_byte bytes.now }
{
    bytes.iter().all(|byte| is_hexadecimal_digit(*byte))
}

fn is_x_and_digits(bytes: &[u8]) -> bool
    ensures { result ≡ is_hexadecimal_behind bytes.now }
{
    match bytes {
        [] => false,
        [letter, others @ ..] => *letter == b'x' && is_hexadecimal_run(others),
    }
}

fn is_hexadecimal(bytes: &[u8]) -> bool
    ensures { result ≡ is_hexadecimal_number bytes.now }
{
    match bytes {
        [] => false,
        [zero, others @ ..] => *zero == b'0' && is_x_and_digits(others),
    }
}

fn is_digit(byte: u8) -> bool
    ensures { result ≡ is_decimal_byte byte }
{
    matches!(byte, b'0'..=b'9')
}

fn is_hexadecimal_digit(byte: u8) -> bool
    ensures { result ≡ is_hexadecimal_byte byte }
{
    matches!(byte, b'0'..=b'9' | b'a'..=b'f' | b'A'..=b'F')
}

fn is_word_byte(byte: u8) -> bool
    ensures { result ≡ is_of_word byte }
{
    matches!(byte, b'a'..=b'z' | b'A'..=b'Z' | b'_' | b'0'..=b'9')
}

fn word_len(bytes: &[u8]) -> usize
    ensures count { result ≡ prefix_len is_of_word bytes.now }
    ensures within { result ≤ length bytes.now }
{
    bytes.iter().take_while(|byte| is_word_byte(**byte)).count()
}

// The bytes of a word at the front.
fn first_word(bytes: &[u8]) -> &[u8]
    ensures { result.now ≡ the_first_word bytes.now }
{
    &bytes[..word_len(bytes)]
}

// How many bytes stand before the first `(`.
fn opening(bytes: &[u8]) -> usize
    ensures place { result ≡ position_or_len (λ b. b == 40) bytes.now }
    ensures within { result ≤ length bytes.now }
{
    bytes.iter().take_while(|byte| **byte != b'(').count()
}

// What stands in the parentheses of a typed literal.
#[tactic(auto, using(crate::proofs::Raw::raw_cut))]
fn raw_text(written: &str) -> &str
    ensures { result.now ≡ raw_said written.now }
{
    let bytes = written.as_bytes();
    cut(written, opening(bytes) + 1, bytes.len().saturating_sub(1))
}

fn typed_value(alloc: Global, written: &str) -> Result<Option<Value>, Memory>
    ensures { IfOk result (λ v. v ≡ typed_said written.now) }
{
    match ty_of(first_word(written.as_bytes())) {
        Some(ty) => raw_value(alloc, ty, raw_text(written)),
        None => Ok(None),
    }
}

fn has_typed_value(written: &str) -> bool
    ensures { result ≡ is_some (typed_said written.now) }
{
    match ty_of(first_word(written.as_bytes())) {
        Some(ty) => has_raw_value(ty, raw_text(written)),
        None => false,
    }
}

fn raw_value(alloc: Global, ty: Ty, raw: &str) -> Result<Option<Value>, Memory>
    ensures { IfOk result (λ v. v ≡ literal_of ty raw.now) }
{
    let text = trim(raw);
    if text == "null" {
        return Ok(Some(Value::missing(alloc, ty)?));
    }
    if text == "" {
        return empty_value(alloc, ty);
    }
    form(alloc, ty, text)
}

fn has_raw_value(ty: Ty, raw: &str) -> bool
    ensures { result ≡ is_some (literal_of ty raw.now) }
{
    let text = trim(raw);
    if text == "null" {
        return true;
    }
    if text == "" {
        return matches!(ty, Ty::Dynamic);
    }
    has_form(ty, text)
}

// Nothing is the null of dynamics.
fn empty_value(alloc: Global, ty: Ty) -> Result<Option<Value>, Memory>
    ensures { IfOk result (λ v. v ≡ empty_form ty) }
{
    match ty {
        Ty::Dynamic => Ok(Some(Value::dynamic(alloc, Dyn::Null)?)),
        _ => Ok(None),
    }
}
