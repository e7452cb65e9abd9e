// Strings.
ghost use Rattle.std.specs.Prelude.{◌≡◌, ◌≤◌, ◌++◌, true, false, drop, length, take, IfOk, OnOk};
ghost use Rattle.std.specs.Char.{InScalarRange, encode_utf8};
ghost use Rattle.std.specs.Str.{IsUtf8};
ghost use Rattle.std.specs.Str.Parse.{IsNumeral, digits_value};
ghost use Rattle.kq_read_tokens.specs.declared.delimited.Within.TheVariants.{Quoted, Escape};
ghost use Rattle.kq_read_tokens.specs.Delimited.{closes, step};
ghost use Rattle.kq_read_literals.specs.Strings.{SpellsText, escape_len, escape_of, is_string_token, letter_of, long_text_of, quoted_text_of, string_text_of, undoubled, unescaped, verbatim_text_of};

use crate::ascii::ascii_text;
use kq_read_tokens::{Memory, Text, TokenKind};
use std::alloc::Global;

/// The text that a string's token of this kind stands for.
#[tactic(auto, unfolding(crate::specs::Strings::string_text_of))]
pub fn string_text(alloc: Global, kind: TokenKind, bytes: &[u8]) -> Result<Text, Memory>
    requires form { is_string_token kind bytes.now ≡ true }
    requires utf8 { IsUtf8 bytes.now }
    ensures value { IfOk result (λ t. t ≡ string_text_of kind bytes.now) }
    ensures stands_for { IfOk result (λ t. SpellsText kind bytes.now t) }
{
    match kind {
        TokenKind::String => quoted_text(alloc, bytes),
        TokenKind::VerbatimString => verbatim_text(alloc, bytes),
        TokenKind::LongString => long_text(alloc, bytes),
        _ => unreachable!(),
    }
}

fn quoted_text(alloc: Global, bytes: &[u8]) -> Result<Text, Memory>
    requires form { is_string_token TokenKind.String bytes.now ≡ true }
    requires utf8 { IsUtf8 bytes.now }
    ensures { IfOk result (λ t. t ≡ quoted_text_of bytes.now) }
{
    match bytes {
        [quote, behind @ ..] => {
            let text = unescape(alloc, *quote, behind)?;
            text_of(alloc, text)
        }
        [] => unreachable!(),
    }
}

fn verbatim_text(alloc: Global, bytes: &[u8]) -> Result<Text, Memory>
    requires form { is_string_token TokenKind.VerbatimString bytes.now ≡ true }
    requires utf8 { IsUtf8 bytes.now }
    ensures { IfOk result (λ t. t ≡ verbatim_text_of bytes.now) }
{
    match bytes {
        [_, quote, behind @ ..] => {
            let text = undouble(alloc, *quote, behind)?;
            text_of(alloc, text)
        }
        _ => unreachable!(),
    }
}

fn long_text(alloc: Global, bytes: &[u8]) -> Result<Text, Memory>
    requires form { is_string_token TokenKind.LongString bytes.now ≡ true }
    requires utf8 { IsUtf8 bytes.now }
    ensures { IfOk result (λ t. t ≡ long_text_of bytes.now) }
{
    match str::from_utf8(&bytes[3..bytes.len() - 3]) {
        Ok(text) => Text::from_str(alloc, text),
        Err(_) => unreachable!(),
    }
}

fn text_of(alloc: Global, bytes: Vec<u8>) -> Result<Text, Memory>
    requires { IsUtf8 bytes.items }
    ensures { IfOk result (λ t. t ≡ bytes.items) }
{
    match String::from_utf8(bytes) {
        Ok(text) => Text::from_string(alloc, text),
        Err(_) => unreachable!(),
    }
}

// What stands before the quote that isn't doubled, with one quote for two.
fn undouble(alloc: Global, quote: u8, bytes: &[u8]) -> Result<Vec<u8>, Memory>
    ensures { IfOk result (λ text. text.items ≡ undoubled quote false bytes.now) }
{
    let mut text = Vec::new(alloc);
    let mut closed = false;
    for byte in bytes {
        if *byte == quote && !closed {
            closed = true;
        } else {
            text.push(*byte)?;
            closed = false;
        }
    }
    Ok(text)
}

// What stands before the quote that closes, with each escape's character in its place.
fn unescape(alloc: Global, quote: u8, bytes: &[u8]) -> Result<Vec<u8>, Memory>
    requires { closes step (Quoted quote) bytes.now ≡ true }
    ensures { IfOk result (λ text. text.items ≡ unescaped quote 0 bytes.now) }
{
    let mut text = Vec::new(alloc);
    let mut passed = 0usize;
    for (i, byte) in bytes.iter().enumerate() {
        if passed > 0 {
            passed -= 1;
        } else if *byte == quote {
            return Ok(text);
        } else if *byte == b'\\' {
            passed = push_escape(&mut text, quote, &bytes[i + 1..])?;
        } else {
            text.push(*byte)?;
        }
    }
    Ok(text)
}

// Appends the character of the escape whose backslash stands before the bytes, and gives how many of them it has.
fn push_escape(text: &mut Vec<u8>, quote: u8, behind: &[u8]) -> Result<usize, Memory>
    requires { closes step (Escape quote) behind.now ≡ true }
    ensures text { OnOk result (text.new.items ≡ text.old.items ++ escape_of behind.now) }
    ensures len { IfOk result (λ n. n ≡ escape_len behind.now) }
{
    match behind {
        [letter, digits @ ..] => {
            if *letter == b'u' {
                push_character(text, &digits[..4])?;
                return Ok(5);
            }
            text.push(character_of(*letter))?;
            Ok(1)
        }
        [] => unreachable!(),
    }
}

// What the letter behind a backslash stands for.
fn character_of(letter: u8) -> u8
    ensures { result ≡ letter_of letter }
{
    match letter {
        b'n' => b'\n',
        b'r' => b'\r',
        b't' => b'\t',
        _ => letter,
    }
}

// Appends the character of a code in hexadecimal.
fn push_character(text: &mut Vec<u8>, digits: &[u8]) -> Result<(), Memory>
    requires digits { IsNumeral 16 digits.now }
    requires short { length digits.now ≤ 4 }
    requires scalar { InScalarRange (digits_value 16 digits.now) }
    ensures { OnOk result (text.new.items ≡ text.old.items ++ encode_utf8 (digits_value 16 digits.now)) }
{
    match char::from_u32(code(digits)) {
        Some(character) => {
            let mut buffer = [0; 4];
            text.extend_from_slice(character.encode_utf8(&mut buffer).as_bytes())
        }
        None => unreachable!(),
    }
}

fn code(digits: &[u8]) -> u32
    requires digits { IsNumeral 16 digits.now }
    requires short { length digits.now ≤ 4 }
    ensures { result ≡ digits_value 16 digits.now }
{
    match u32::from_str_radix(ascii_text(digits), 16) {
        Ok(code) => code,
        Err(_) => unreachable!(),
    }
}
