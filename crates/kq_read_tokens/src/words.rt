// Words, and the literals and spellings that begin with a letter.
ghost use Rattle.std.specs.Prelude.{◌≡◌, true, IfSome};
ghost use Rattle.kq_read_tokens.specs.Bytes.{starts};
ghost use Rattle.kq_read_tokens.specs.Forms.{opens};
ghost use Rattle.kq_read_tokens.specs.Scanning.{is_joint, joined_at, opening_word, word_at};

use crate::bytes::word_len;
use crate::kind::{LiteralWord, TokenKind};
use crate::literals::{literal_len, opens};
use crate::spelling::{literal_word, spelled, spelled_len};

// The word of a typed literal, where the rest opens its parenthesis.
fn opening_word(word: &[u8], rest: &[u8]) -> Option<LiteralWord>
    ensures value { result ≡ opening_word word.now rest.now }
    ensures opens { IfSome result (λ _. opens rest.now ≡ true) }
{
    if opens(rest) {
        literal_word(word)
    } else {
        None
    }
}

fn starts_with_joint(bytes: &[u8]) -> bool
    ensures { result ≡ starts is_joint bytes.now }
{
    match bytes {
        [b, ..] => matches!(*b, b'-' | b'~'),
        [] => false,
    }
}

// The token of one spelling that goes on behind its first word, as the rest does.
fn joined(bytes: &[u8], rest: &[u8]) -> Option<TokenKind>
    ensures { result ≡ joined_at rest.now bytes.now }
{
    if starts_with_joint(rest) {
        spelled(bytes)
    } else {
        None
    }
}

/// The longest token of bytes that begin with a letter or an underscore.
#[tactic(auto, unfolding(crate::specs::Scanning::word_at))]
pub fn word(bytes: &[u8]) -> Option<(TokenKind, usize)>
    ensures { result ≡ word_at bytes.now }
{
    let n = word_len(bytes);
    if let Some(word) = opening_word(&bytes[..n], &bytes[n..]) {
        let more = literal_len(word, &bytes[n..])?;
        return Some((TokenKind::TypedLiteral(word), n + more));
    }
    match joined(bytes, &bytes[n..]) {
        Some(kind) => Some((kind, spelled_len(kind))),
        None => Some((TokenKind::Word, n)),
    }
}
