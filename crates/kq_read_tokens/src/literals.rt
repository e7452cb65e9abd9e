// Typed literals.
ghost use Rattle.std.specs.Prelude.{◌≡◌, ◌≤◌, ◌<◌, ◌+◌, ◌^◌, true, length, IfOk, IfSome};
ghost use Rattle.kq_read_tokens.specs.Delimited.{is_opening, is_closing, closing_bracket, quoted_step, nesting_step, unnested};
ghost use Rattle.kq_read_tokens.specs.Forms.{opens};
ghost use Rattle.kq_read_tokens.specs.Scanning.{closing_len, raw_len, literal_len};

use crate::bytes::spaces_len;
use crate::delimited::{End, Within, closing_len};
use crate::kind::LiteralWord;

/// How the next byte within `dynamic(..)` is read.
#[derive(Clone, Copy)]
pub enum Quoting {
    Outside,
    /// In double quotes.
    Inside,
    /// Behind a backslash in double quotes.
    Escaped,
}

/// Where the next byte within `dynamic(..)` stands.
#[derive(Clone, Copy)]
pub struct Nesting {
    /// How many brackets are open.
    pub depth: usize,
    pub quoting: Quoting,
}

fn is_opening(b: u8) -> bool
    ensures { result ≡ is_opening b }
{
    matches!(b, b'(' | b'[' | b'{')
}

fn is_closing(b: u8) -> bool
    ensures { result ≡ is_closing b }
{
    matches!(b, b')' | b']' | b'}')
}

fn closing_bracket(depth: usize, b: u8) -> Result<Nesting, End>
    ensures value { result ≡ closing_bracket depth b }
    ensures lower { IfOk result (λ n. n.depth ≤ depth) }
{
    if depth != 0 {
        return Ok(Nesting {
            depth: depth - 1,
            quoting: Quoting::Outside,
        });
    }
    if b == b')' {
        return Err(End::Closed);
    }
    Ok(Nesting {
        depth: 0,
        quoting: Quoting::Outside,
    })
}

fn outside_step(depth: usize, b: u8) -> Result<Nesting, End>
    requires { depth + 1 < 2 ^ 64 }
    ensures value { result ≡ quoted_step Quoting.Outside depth b }
    ensures one_more { IfOk result (λ n. n.depth ≤ depth + 1) }
{
    if b == b'"' {
        return Ok(Nesting {
            depth,
            quoting: Quoting::Inside,
        });
    }
    if is_opening(b) {
        return Ok(Nesting {
            depth: depth + 1,
            quoting: Quoting::Outside,
        });
    }
    if is_closing(b) {
        return closing_bracket(depth, b);
    }
    Ok(Nesting {
        depth,
        quoting: Quoting::Outside,
    })
}

fn inside_step(depth: usize, b: u8) -> Nesting
    ensures value { Ok result ≡ quoted_step Quoting.Inside depth b }
    ensures same { result.depth ≡ depth }
{
    let quoting = if b == b'"' {
        Quoting::Outside
    } else if b == b'\\' {
        Quoting::Escaped
    } else {
        Quoting::Inside
    };
    Nesting { depth, quoting }
}

fn nesting_step(nesting: Nesting, b: u8) -> Result<Nesting, End>
    requires { nesting.depth + 1 < 2 ^ 64 }
    ensures value { result ≡ nesting_step nesting b }
    ensures one_more { IfOk result (λ n. n.depth ≤ nesting.depth + 1) }
{
    let depth = nesting.depth;
    match nesting.quoting {
        Quoting::Outside => outside_step(depth, b),
        Quoting::Inside => Ok(inside_step(depth, b)),
        Quoting::Escaped => Ok(Nesting {
            depth,
            quoting: Quoting::Inside,
        }),
    }
}

// How many bytes there are through the `)` that closes `dynamic(`.
fn dynamic_len(bytes: &[u8]) -> Option<usize>
    ensures value { result ≡ closing_len nesting_step unnested bytes.now }
    ensures within { IfSome result (λ n. n ≤ length bytes.now) }
{
    let mut nesting = Nesting {
        depth: 0,
        quoting: Quoting::Outside,
    };
    for (i, b) in bytes.iter().enumerate() {
        match nesting_step(nesting, *b) {
            Ok(next) => nesting = next,
            Err(end) => {
                return match end {
                    End::Closed => Some(i + 1),
                    End::Refused => None,
                };
            }
        }
    }
    None
}

// How many bytes of raw text there are, with the `)` behind them.
fn raw_len(word: LiteralWord, bytes: &[u8]) -> Option<usize>
    ensures value { result ≡ raw_len word bytes.now }
    ensures within { IfSome result (λ n. n ≤ length bytes.now) }
{
    match word {
        LiteralWord::Dynamic => dynamic_len(bytes),
        _ => closing_len(Within::Raw, bytes),
    }
}

/// Whether a parenthesis opens, with white space before it or without.
pub fn opens(bytes: &[u8]) -> bool
    ensures { result ≡ opens bytes.now }
{
    let n = spaces_len(bytes);
    match &bytes[n..] {
        [b, ..] => *b == b'(',
        [] => false,
    }
}

/// How many bytes of a typed literal follow its word.
#[tactic(auto, unfolding(crate::specs::Scanning::literal_len))]
pub fn literal_len(word: LiteralWord, rest: &[u8]) -> Option<usize>
    requires { opens rest.now ≡ true }
    ensures value { result ≡ literal_len word rest.now }
    ensures within { IfSome result (λ n. n ≤ length rest.now) }
{
    let n = spaces_len(rest);
    let raw = raw_len(word, &rest[1 + n..])?;
    Some(n + (1 + raw))
}
