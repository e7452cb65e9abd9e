// What strings and names say.
ghost use Rattle.std.specs.Prelude.{◌≡◌, IfOk};
ghost use Rattle.kq_read_literals.specs.Strings.{is_string_token};
ghost use Rattle.kq_read_meanings.specs.Names.{name_place as place_of, name_said, string_form as form_of, string_said};

use crate::pieces::piece;
use kq_read_grammar::Name;
use kq_read_tokens::{TokenKind, is_long_string, is_string, is_verbatim_string};
use kq_value::{Memory, Text};
use std::alloc::Global;

fn string_form(bytes: &[u8]) -> TokenKind
    ensures { result ≡ form_of bytes.now }
{
    match bytes {
        [] => TokenKind::String,
        [first, ..] => {
            if *first == b'@' {
                TokenKind::VerbatimString
            } else if *first == b'`' {
                TokenKind::LongString
            } else {
                TokenKind::String
            }
        }
    }
}

fn is_string_of(form: TokenKind, bytes: &[u8]) -> bool
    ensures { result ≡ is_string_token form bytes.now }
{
    match form {
        TokenKind::String => is_string(bytes),
        TokenKind::VerbatimString => is_verbatim_string(bytes),
        TokenKind::LongString => is_long_string(bytes),
        _ => false,
    }
}

/// What a string says, as it is written; nothing where it is no string.
pub fn string_text(alloc: Global, written: &str) -> Result<Text, Memory>
    ensures { IfOk result (λ t. t ≡ string_said written.now) }
{
    let bytes = written.as_bytes();
    let form = string_form(bytes);
    if is_string_of(form, bytes) {
        kq_read_literals::string_text(alloc, form, bytes)
    } else {
        Text::from_str(alloc, "")
    }
}

/// What a name says in the text.
pub fn name_text(alloc: Global, text: &str, name: Name) -> Result<Text, Memory>
    ensures { IfOk result (λ t. t ≡ name_said text.now name) }
{
    match name {
        Name::Word(symbol) => Text::from_str(alloc, piece(text, symbol)),
        Name::Bracketed {
            open: _,
            text: symbol,
        } => string_text(alloc, piece(text, symbol)),
    }
}

/// The place of a name's first symbol.
pub fn name_place(name: Name) -> usize
    ensures { result ≡ place_of name }
{
    match name {
        Name::Word(symbol) => symbol.from,
        Name::Bracketed { open, text: _ } => open.from,
    }
}
