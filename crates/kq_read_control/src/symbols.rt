// The symbols of a text.
ghost use Rattle.std.specs.Prelude.{◌≡◌, ◌<◌, true, IfOk, length};
ghost use Rattle.std.specs.Str.{IsUtf8};
ghost use Rattle.kq_read_control.specs.Symbols.{kind_of as kind_at, quoted_as as said, quoted_of, symbol_of, symbols_of};
ghost use Rattle.kq_read_literals.specs.Strings.{is_string_token};
ghost use Rattle.kq_read_tokens.specs.Forms.{is_form};
ghost use Rattle.kq_read_tokens.specs.Reading.{AreTokens};
ghost use Rattle.std.specs.Prelude.{IfSome, slice_get};

use kq_read_literals::string_text;
use kq_read_symbols::{Kind, Quoted, Symbol, Word, word_of};
use kq_read_tokens::{TokenKind, Tokens};
use kq_value::Memory;
use std::alloc::Global;

fn quoted_as(word: Word) -> Quoted
    ensures { result ≡ said word }
{
    match word {
        Word::Join(kind) => Quoted::JoinKind(kind),
        _ => Quoted::Other,
    }
}

// What the text of a string says.
fn quoted(alloc: Global, kind: TokenKind, bytes: &[u8]) -> Result<Quoted, Memory>
    requires form { is_string_token kind bytes.now ≡ true }
    requires utf8 { IsUtf8 bytes.now }
    ensures { IfOk result (λ q. q ≡ quoted_of kind bytes.now) }
{
    let text = string_text(alloc, kind, bytes)?;
    Ok(quoted_as(word_of(text.as_str().as_bytes())))
}

// The kind of the symbol that a token is.
fn kind_of(alloc: Global, token: TokenKind, bytes: &[u8]) -> Result<Kind, Memory>
    requires form { is_form token bytes.now ≡ true }
    requires utf8 { is_string_token token bytes.now ≡ true → IsUtf8 bytes.now }
    ensures { IfOk result (λ k. k ≡ kind_at token bytes.now) }
{
    match token {
        TokenKind::Word => Ok(Kind::Word(word_of(bytes))),
        TokenKind::DashedWord(word) => Ok(Kind::DashedWord(word)),
        TokenKind::Side(side) => Ok(Kind::Side(side)),
        TokenKind::WholeNumber => Ok(Kind::WholeNumber),
        TokenKind::Real => Ok(Kind::Real),
        TokenKind::Timespan => Ok(Kind::Timespan),
        TokenKind::TypedLiteral(_) => Ok(Kind::TypedLiteral),
        TokenKind::String | TokenKind::VerbatimString | TokenKind::LongString => {
            Ok(Kind::String(quoted(alloc, token, bytes)?))
        }
        TokenKind::WordOperator(operator) => Ok(Kind::WordOperator(operator)),
        TokenKind::Punctuation(sign) => Ok(Kind::Punctuation(sign)),
        TokenKind::Operator(operator) => Ok(Kind::Operator(operator)),
    }
}

// The symbol that the token at the index is.
fn symbol_at(alloc: Global, tokens: &Tokens, index: usize) -> Result<Symbol, Memory>
    requires read { AreTokens tokens.now.text tokens.now.tokens }
    requires utf8 { IsUtf8 tokens.now.text }
    requires within { index < length tokens.now.tokens }
    ensures { IfOk result (λ s. IfSome (slice_get tokens.now.tokens index) (λ t. s ≡ symbol_of tokens.now.text t)) }
{
    let token = tokens.as_slice()[index];
    let kind = kind_of(alloc, token.kind, tokens.bytes_of(index))?;
    Ok(Symbol {
        kind,
        from: token.from,
        to: token.to,
    })
}

// The symbols of a text, one for each token.
pub(crate) fn read_symbols(alloc: Global, tokens: &Tokens) -> Result<Vec<Symbol>, Memory>
    requires read { AreTokens tokens.now.text tokens.now.tokens }
    requires utf8 { IsUtf8 tokens.now.text }
    ensures { IfOk result (λ v. v.items ≡ symbols_of tokens.now.text tokens.now.tokens) }
{
    let mut list = Vec::with_capacity(alloc, tokens.len())?;
    for index in 0..tokens.len() {
        list.push(symbol_at(alloc, tokens, index)?)?;
    }
    Ok(list)
}
