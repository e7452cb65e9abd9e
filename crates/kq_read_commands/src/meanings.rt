// What the symbols of a command say.
ghost use Rattle.std.specs.Prelude.{◌≡◌, true, IfOk, OnErr};
ghost use Rattle.kq_read_commands.specs.InText.{IsPiece, IsString, NameIn};
ghost use Rattle.kq_read_commands.specs.Meanings.{identifier_of, piece as piece_of, string_at as said, string_form as form_of};

use crate::columns::Identifier;
use crate::memory::Requests;
use kq_read_grammar::Name;
use kq_read_symbols::Symbol;
use kq_read_tokens::TokenKind;
use kq_value::{Memory, Text};

// What stands in the text where the symbol is.
pub(crate) fn piece<'a>(text: &'a str, symbol: Symbol) -> &'a str
    requires { IsPiece text.now symbol }
    ensures { result.now ≡ piece_of text.now symbol }
{
    &text[symbol.from..symbol.to]
}

fn string_form(bytes: &[u8]) -> TokenKind
    ensures { result ≡ form_of bytes.now }
{
    match bytes {
        [] => TokenKind::String,
        [first, ..] => {
            if *first == b'@' {
                TokenKind::VerbatimString
            } else if *first == b'`' {
                TokenKind::LongString
            } else {
                TokenKind::String
            }
        }
    }
}

// What the string says that stands where the symbol is.
pub(crate) fn string_at(memory: &mut Requests, text: &str, symbol: Symbol) -> Result<Text, Memory>
    requires { IsString text.now symbol }
    ensures value { IfOk result (λ t. t ≡ said text.now symbol) }
    ensures refused { OnErr result (memory.new.refused ≡ true) }
{
    let bytes = piece(text, symbol).as_bytes();
    memory.string(string_form(bytes), bytes)
}

// A name and the place of its first symbol.
pub(crate) fn identifier(
    memory: &mut Requests,
    text: &str,
    name: Name,
) -> Result<Identifier, Memory>
    requires { NameIn text.now name }
    ensures value { IfOk result (λ i. i ≡ identifier_of text.now name) }
    ensures refused { OnErr result (memory.new.refused ≡ true) }
{
    match name {
        Name::Word(symbol) => Ok(Identifier {
            text: memory.text(piece(text, symbol))?,
            at: symbol.from,
        }),
        Name::Bracketed {
            open: first,
            text: symbol,
        } => Ok(Identifier {
            text: string_at(memory, text, symbol)?,
            at: first.from,
        }),
    }
}
