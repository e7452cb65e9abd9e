// Names compared by what they say, a byte at a time and so without memory.
ghost use Rattle.std.specs.Prelude.{◌≡◌, ◌≤◌, ◌++◌, [], ◌∷◌, true, false, if◌then◌else◌, length, Some};
ghost use Rattle.std.specs.Char.{InScalarRange, encode_utf8};
ghost use Rattle.std.specs.Str.{IsAscii};
ghost use Rattle.std.specs.Str.Parse.{IsNumeral, digits_value};
ghost use Rattle.kq_view_body.specs.Said.{Goes, IsReadable, bytes_ahead, left};
ghost use Rattle.kq_read_literals.specs.Strings.{escape_len, escape_of, letter_of, long_text_of, quoted_text_of, undoubled, unescaped, verbatim_text_of};
ghost use Rattle.kq_read_meanings.specs.Names.{name_said, string_said};
ghost use Rattle.kq_read_tokens.specs.declared.delimited.Within.TheVariants as within;
ghost use Rattle.kq_read_tokens.specs.Bytes.{is_text};
ghost use Rattle.kq_read_tokens.specs.Delimited.{closes, is_long_string, is_string, is_verbatim_string, step};

use kq_read_grammar::Name;
use kq_read_meanings::piece;
use kq_read_tokens::{is_long_string, is_string, is_verbatim_string};

// What is left of a character that an escape stands for.
#[derive(Clone, Copy)]
pub(crate) enum Ahead {
    Nothing,
    One(u8),
    Two(u8, u8),
    Three(u8, u8, u8),
}

// How bytes are read.
#[derive(Clone, Copy)]
pub(crate) enum Form {
    // As they stand.
    Plain,
    // Up to the quote, with escapes.
    Quoted { quote: u8, ahead: Ahead },
    // Up to the quote that isn't doubled.
    Verbatim { quote: u8 },
}

// What is left of what a name says.
#[derive(Clone, Copy)]
pub(crate) struct Rest<'a> {
    form: Form,
    bytes: &'a [u8],
}

// ---- characters of escapes

fn ascii_text(bytes: &[u8]) -> &str
    requires { IsAscii bytes.now }
    ensures { result.now ≡ bytes.now }
{
    match str::from_utf8(bytes) {
        Ok(text) => text,
        Err(_) => unreachable!(),
    }
}

fn code(digits: &[u8]) -> u32
    requires digits { IsNumeral 16 digits.now }
    requires short { length digits.now ≤ 4 }
    ensures { result ≡ digits_value 16 digits.now }
{
    match u32::from_str_radix(ascii_text(digits), 16) {
        Ok(code) => code,
        Err(_) => unreachable!(),
    }
}

// The first byte of a character, and the others.
fn first_of(character: char) -> (u8, Ahead)
    ensures { encode_utf8 character ≡ result.0 ∷ bytes_ahead result.1 }
{
    let mut buffer = [0; 4];
    match character.encode_utf8(&mut buffer).as_bytes() {
        [a] => (*a, Ahead::Nothing),
        [a, b] => (*a, Ahead::One(*b)),
        [a, b, c] => (*a, Ahead::Two(*b, *c)),
        [a, b, c, d] => (*a, Ahead::Three(*b, *c, *d)),
        _ => unreachable!(),
    }
}

fn character_of(digits: &[u8]) -> (u8, Ahead)
    requires digits { IsNumeral 16 digits.now }
    requires short { length digits.now ≤ 4 }
    requires scalar { InScalarRange (digits_value 16 digits.now) }
    ensures { encode_utf8 (digits_value 16 digits.now) ≡ result.0 ∷ bytes_ahead result.1 }
{
    match char::from_u32(code(digits)) {
        Some(character) => first_of(character),
        None => unreachable!(),
    }
}

// What the letter behind a backslash stands for.
fn meant_by(letter: u8) -> u8
    ensures { result ≡ letter_of letter }
{
    match letter {
        b'n' => b'\n',
        b'r' => b'\r',
        b't' => b'\t',
        _ => letter,
    }
}

// ---- a byte, and what is left behind it

fn plain_next(bytes: &[u8]) -> Option<(u8, Rest)>
    ensures { Goes bytes.now result }
{
    match bytes {
        [] => None,
        [byte, others @ ..] => Some((*byte, plain(others))),
    }
}

fn plain(bytes: &[u8]) -> Rest
    ensures content { left result ≡ bytes.now }
    ensures readable { IsReadable result }
{
    Rest {
        form: Form::Plain,
        bytes,
    }
}

fn quoted(quote: u8, ahead: Ahead, bytes: &[u8]) -> Rest
    requires { closes step (within.Quoted quote) bytes.now ≡ true }
    ensures content { left result ≡ bytes_ahead ahead ++ unescaped quote 0 bytes.now }
    ensures readable { IsReadable result }
{
    Rest {
        form: Form::Quoted { quote, ahead },
        bytes,
    }
}

fn verbatim(quote: u8, bytes: &[u8]) -> Rest
    ensures content { left result ≡ undoubled quote false bytes.now }
    ensures readable { IsReadable result }
{
    Rest {
        form: Form::Verbatim { quote },
        bytes,
    }
}

// Behind the backslash of an escape.
fn escaped(quote: u8, behind: &[u8]) -> (u8, Rest)
    requires { closes step (within.Escape quote) behind.now ≡ true }
    ensures { Goes (escape_of behind.now ++ unescaped quote (escape_len behind.now) behind.now) (Some result) }
{
    if behind[0] == b'u' {
        let (byte, ahead) = character_of(&behind[1..5]);
        (byte, quoted(quote, ahead, &behind[5..]))
    } else {
        (
            meant_by(behind[0]),
            quoted(quote, Ahead::Nothing, &behind[1..]),
        )
    }
}

fn quoted_next(quote: u8, bytes: &[u8]) -> Option<(u8, Rest)>
    requires { closes step (within.Quoted quote) bytes.now ≡ true }
    ensures { Goes (unescaped quote 0 bytes.now) result }
{
    let byte = bytes[0];
    if byte == quote {
        None
    } else if byte == b'\\' {
        Some(escaped(quote, &bytes[1..]))
    } else {
        Some((byte, quoted(quote, Ahead::Nothing, &bytes[1..])))
    }
}

fn ahead_next(quote: u8, ahead: Ahead, bytes: &[u8]) -> Option<(u8, Rest)>
    requires { closes step (within.Quoted quote) bytes.now ≡ true }
    ensures { Goes (bytes_ahead ahead ++ unescaped quote 0 bytes.now) result }
{
    match ahead {
        Ahead::Nothing => quoted_next(quote, bytes),
        Ahead::One(a) => Some((a, quoted(quote, Ahead::Nothing, bytes))),
        Ahead::Two(a, b) => Some((a, quoted(quote, Ahead::One(b), bytes))),
        Ahead::Three(a, b, c) => Some((a, quoted(quote, Ahead::Two(b, c), bytes))),
    }
}

fn verbatim_next(quote: u8, bytes: &[u8]) -> Option<(u8, Rest)>
    ensures { Goes (undoubled quote false bytes.now) result }
{
    match bytes {
        [] => None,
        [byte, others @ ..] => {
            if *byte == quote {
                doubled_next(quote, others)
            } else {
                Some((*byte, verbatim(quote, others)))
            }
        }
    }
}

// Behind a quote: it is one of the text where another follows.
fn doubled_next(quote: u8, bytes: &[u8]) -> Option<(u8, Rest)>
    ensures { Goes (undoubled quote true bytes.now) result }
{
    match bytes {
        [] => None,
        [byte, others @ ..] => Some((*byte, verbatim(quote, others))),
    }
}

fn next(rest: Rest) -> Option<(u8, Rest)>
    requires { IsReadable rest }
    ensures { Goes (left rest.entry) result }
{
    match rest.form {
        Form::Plain => plain_next(rest.bytes),
        Form::Quoted { quote, ahead } => ahead_next(quote, ahead, rest.bytes),
        Form::Verbatim { quote } => verbatim_next(quote, rest.bytes),
    }
}

// Whether the same bytes are left.
fn are_same(one: Rest, other: Rest) -> bool
    requires one { IsReadable one }
    requires other { IsReadable other }
    ensures { result ≡ is_text (left one.entry) (left other.entry) }
{
    let mut one_left = one;
    let mut other_left = other;
    while let Some((byte, one_rest)) = next(one_left) {
        match next(other_left) {
            Some((other_byte, other_rest)) => {
                if byte != other_byte {
                    return false;
                }
                one_left = one_rest;
                other_left = other_rest;
            }
            None => return false,
        }
    }
    next(other_left).is_none()
}

// ---- what a string and a name say

fn nothing(bytes: &[u8]) -> Rest
    ensures content { left result ≡ [] }
    ensures readable { IsReadable result }
{
    plain(&bytes[..0])
}

fn quoted_text(bytes: &[u8]) -> Rest
    ensures content { left result ≡ (if is_string bytes.now then quoted_text_of bytes.now else []) }
    ensures readable { IsReadable result }
{
    if is_string(bytes) {
        quoted(bytes[0], Ahead::Nothing, &bytes[1..])
    } else {
        nothing(bytes)
    }
}

fn verbatim_text(bytes: &[u8]) -> Rest
    ensures content { left result ≡ (if is_verbatim_string bytes.now then verbatim_text_of bytes.now else []) }
    ensures readable { IsReadable result }
{
    match bytes {
        [_, quote, others @ ..] => {
            if is_verbatim_string(bytes) {
                verbatim(*quote, others)
            } else {
                nothing(bytes)
            }
        }
        _ => nothing(bytes),
    }
}

fn long_text(bytes: &[u8]) -> Rest
    ensures content { left result ≡ (if is_long_string bytes.now then long_text_of bytes.now else []) }
    ensures readable { IsReadable result }
{
    if is_long_string(bytes) {
        plain(&bytes[3..bytes.len() - 3])
    } else {
        nothing(bytes)
    }
}

fn string_rest(bytes: &[u8]) -> Rest
    ensures content { left result ≡ string_said bytes.now }
    ensures readable { IsReadable result }
{
    match bytes {
        [] => plain(bytes),
        [first, ..] => {
            if *first == b'@' {
                verbatim_text(bytes)
            } else if *first == b'`' {
                long_text(bytes)
            } else {
                quoted_text(bytes)
            }
        }
    }
}

fn name_rest(text: &str, name: Name) -> Rest
    ensures content { left result ≡ name_said text.now name }
    ensures readable { IsReadable result }
{
    match name {
        Name::Word(symbol) => plain(piece(text, symbol).as_bytes()),
        Name::Bracketed {
            open: _,
            text: symbol,
        } => string_rest(piece(text, symbol).as_bytes()),
    }
}

// Whether a name says this text.
pub(crate) fn says(text: &str, name: Name, said: &str) -> bool
    ensures { result ≡ is_text (name_said text.now name) said.now }
{
    are_same(name_rest(text, name), plain(said.as_bytes()))
}

// Whether two names say the same.
pub(crate) fn say_the_same(text: &str, one: Name, other: Name) -> bool
    ensures { result ≡ is_text (name_said text.now one) (name_said text.now other) }
{
    are_same(name_rest(text, one), name_rest(text, other))
}
