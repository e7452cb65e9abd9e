// Strings: in quotes, verbatim and long.
ghost use Rattle.std.specs.Prelude.{◌≡◌, ◌≤◌, false, length, IfSome};
ghost use Rattle.kq_read_tokens.specs.Delimited.{closes, is_long_string, is_string, is_verbatim, is_verbatim_quoted, is_verbatim_string, step};
ghost use Rattle.kq_read_tokens.specs.Scanning.{verbatim_len, string_at, verbatim_at, long_string_at};

use crate::delimited::{Within, closing_len, is_quote};
use crate::kind::TokenKind;

/// The string whose quote stands before the bytes.
#[tactic(auto, unfolding(crate::specs::Scanning::string_at))]
pub fn string(quote: u8, bytes: &[u8]) -> Option<(TokenKind, usize)>
    ensures { result ≡ string_at quote bytes.now }
{
    let n = closing_len(Within::Quoted(quote), bytes)?;
    Some((TokenKind::String, n + 1))
}

// How many bytes there are through a quote that isn't one of a doubled pair.
fn verbatim_len(quote: u8, bytes: &[u8]) -> Option<usize>
    ensures value { result ≡ verbatim_len quote false bytes.now }
    ensures within { IfSome result (λ n. n ≤ length bytes.now) }
{
    let mut closed = false;
    for (i, b) in bytes.iter().enumerate() {
        if closed && *b != quote {
            return Some(i);
        }
        closed = *b == quote && !closed;
    }
    if closed { Some(bytes.len()) } else { None }
}

/// The verbatim string whose `@` stands before the bytes.
#[tactic(auto, unfolding(crate::specs::Scanning::verbatim_at))]
pub fn verbatim_string(bytes: &[u8]) -> Option<(TokenKind, usize)>
    ensures { result ≡ verbatim_at bytes.now }
{
    match bytes {
        [] => None,
        [b, others @ ..] => {
            if !is_quote(*b) {
                return None;
            }
            let n = verbatim_len(*b, others)?;
            Some((TokenKind::VerbatimString, n + 2))
        }
    }
}

#[tactic(auto, unfolding(crate::specs::Scanning::long_string_at))]
pub fn long_string(bytes: &[u8]) -> Option<(TokenKind, usize)>
    ensures { result ≡ long_string_at bytes.now }
{
    if !bytes.starts_with(b"```") {
        return None;
    }
    let n = closing_len(Within::Ticked, &bytes[3..])?;
    Some((TokenKind::LongString, n + 3))
}

// Whether the last of the bytes is the one that closes.
#[tactic(auto, using(crate::proofs::WholeLemmas::whole_lemmas))]
fn closes(start: Within, bytes: &[u8]) -> bool
    ensures { result ≡ closes step start bytes.now }
{
    match closing_len(start, bytes) {
        Some(n) => n == bytes.len(),
        None => false,
    }
}

#[tactic(auto, using(crate::proofs::WholeLemmas::whole_lemmas))]
fn is_verbatim(quote: u8, bytes: &[u8]) -> bool
    ensures { result ≡ is_verbatim quote false bytes.now }
{
    match verbatim_len(quote, bytes) {
        Some(n) => n == bytes.len(),
        None => false,
    }
}

/// Whether these very bytes are a string with escapes.
pub fn is_string(bytes: &[u8]) -> bool
    ensures { result ≡ is_string bytes.now }
{
    match bytes {
        [] => false,
        [quote, others @ ..] => is_quote(*quote) && closes(Within::Quoted(*quote), others),
    }
}

fn is_verbatim_quoted(bytes: &[u8]) -> bool
    ensures { result ≡ is_verbatim_quoted bytes.now }
{
    match bytes {
        [] => false,
        [quote, others @ ..] => is_quote(*quote) && is_verbatim(*quote, others),
    }
}

/// Whether these very bytes are a verbatim string.
pub fn is_verbatim_string(bytes: &[u8]) -> bool
    ensures { result ≡ is_verbatim_string bytes.now }
{
    match bytes {
        [] => false,
        [at, others @ ..] => *at == b'@' && is_verbatim_quoted(others),
    }
}

/// Whether these very bytes are a long string.
pub fn is_long_string(bytes: &[u8]) -> bool
    ensures { result ≡ is_long_string bytes.now }
{
    bytes.starts_with(b"```") && closes(Within::Ticked, &bytes[3..])
}
