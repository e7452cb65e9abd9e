// A text read to its tokens.
ghost use Rattle.std.specs.Prelude.{◌≡◌, ◌≤◌, All, IfOk, MatchResult, length};
ghost use Rattle.kq_read_tokens.specs.Lexed.{StandsIn};
ghost use Rattle.kq_read_tokens.specs.Reading.{AreTokens, IsFault, IsTokenOrNone, is_ingest, is_ingestion, is_complete, is_dot, is_body_mark, is_word_kind};
ghost use Rattle.kq_read_tokens.specs.Scanning.{token_at, sign_at};

use crate::bytes::{blank_len, is_letter};
use crate::delimited::is_quote;
use crate::kind::{Punctuation, TokenKind};
use crate::numbers::number;
use crate::spelling::{single_sign, spelled, spelled_len};
use crate::strings::{long_string, string, verbatim_string};
use crate::token::{LexFault, Token, Tokens};
use crate::words::word;
use kq_value::Text;
use std::alloc::Global;

// The sign, side or negated word that the bytes begin with, the first of which is b.
#[tactic(auto, unfolding(crate::specs::Scanning::sign_at))]
fn sign(b: u8, bytes: &[u8]) -> Option<(TokenKind, usize)>
    ensures { result ≡ sign_at b bytes.now }
{
    if let Some(kind) = single_sign(b) {
        return Some((kind, 1));
    }
    let kind = spelled(bytes)?;
    Some((kind, spelled_len(kind)))
}

// The token that starts the bytes.
fn token(bytes: &[u8]) -> Option<(TokenKind, usize)>
    ensures { IsTokenOrNone result bytes.now }
{
    scan(bytes)
}

#[tactic(auto, unfolding(crate::specs::Scanning::token_at))]
fn scan(bytes: &[u8]) -> Option<(TokenKind, usize)>
    ensures { result ≡ token_at bytes.now }
{
    match bytes {
        [] => None,
        [b, others @ ..] => {
            if is_letter(*b) {
                word(bytes)
            } else if b.is_ascii_digit() {
                number(bytes)
            } else if is_quote(*b) {
                string(*b, others)
            } else if *b == b'@' {
                verbatim_string(others)
            } else if *b == b'`' {
                long_string(bytes)
            } else {
                sign(*b, bytes)
            }
        }
    }
}

fn is_dot(kind: TokenKind) -> bool
    ensures { result ≡ is_dot kind }
{
    matches!(kind, TokenKind::Punctuation(Punctuation::Dot))
}

fn is_body_mark(kind: TokenKind) -> bool
    ensures { result ≡ is_body_mark kind }
{
    matches!(kind, TokenKind::Punctuation(Punctuation::BodyMark))
}

fn is_word(kind: TokenKind) -> bool
    ensures { result ≡ is_word_kind kind }
{
    matches!(kind, TokenKind::Word)
}

fn is_ingest(text: &[u8], token: &Token) -> bool
    requires within { token.now.to ≤ length text.now }
    requires in_order { token.now.from ≤ token.now.to }
    ensures { result ≡ is_ingest text.now token.now }
{
    is_word(token.kind) && &text[token.from..token.to] == b"ingest".as_slice()
}

// Whether the first two tokens are `.` and `ingest`.
fn is_ingestion(text: &[u8], list: &[Token]) -> bool
    requires { All (StandsIn text.now) list.now }
    ensures { result ≡ is_ingestion text.now list.now }
{
    match list {
        [first, second, ..] => is_dot(first.kind) && is_ingest(text, second),
        _ => false,
    }
}

// Whether no token is read behind these.
fn is_complete(text: &[u8], list: &[Token]) -> bool
    requires { All (StandsIn text.now) list.now }
    ensures { result ≡ is_complete text.now list.now }
{
    match list {
        [.., last] => is_body_mark(last.kind) && is_ingestion(text, list),
        [] => false,
    }
}

// The tokens of the bytes of a text.
fn list_of(alloc: Global, text: &[u8]) -> Result<Vec<Token>, LexFault>
    ensures { MatchResult result (λ v. AreTokens text.now v.items) (IsFault text.now) }
{
    let mut list = Vec::new(alloc);
    let mut at: usize = 0;
    while at < text.len() {
        let blank = blank_len(&text[at..]);
        if blank != 0 {
            at += blank;
            continue;
        }
        let Some((kind, n)) = token(&text[at..]) else {
            return Err(LexFault::Syntax { at });
        };
        list.push(Token {
            kind,
            from: at,
            to: at + n,
        })?;
        at += n;
        if is_complete(text, list.as_slice()) {
            return Ok(list);
        }
    }
    Ok(list)
}

/// The tokens of the text, in order. Those of an ingestion end at its first `<|`, since its rows follow.
pub fn tokens(alloc: Global, text: &str) -> Result<Tokens, LexFault>
    ensures text { IfOk result (λ t. t.text ≡ text.now) }

    // Syntax comes exactly where the tokens don't reach the end, at the first byte where none starts.
    ensures tokens { MatchResult result (λ t. AreTokens text.now t.tokens) (IsFault text.now) }
{
    let list = list_of(alloc, text.as_bytes())?;
    let text = Text::from_str(alloc, text)?;
    Ok(Tokens::new(text, list))
}
