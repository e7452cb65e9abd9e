// Bytes up to what closes them, a byte at a time.
ghost use Rattle.std.specs.Prelude.{◌≡◌, ◌≤◌, ◌==◌, if◌then◌else◌, length, IfSome};
ghost use Rattle.kq_read_tokens.specs.Delimited.{is_escape, is_quote, step, digit_then};
ghost use Rattle.kq_read_tokens.specs.Scanning.{closing_len};

use crate::bytes::is_hexadecimal_digit;

/// Where the next byte stands.
#[derive(Clone, Copy)]
pub enum Within {
    /// In a string of this quote.
    Quoted(u8),
    /// Behind a backslash.
    Escape(u8),
    /// Behind `\u`.
    FirstDigit(u8),
    SecondDigit(u8),
    /// Behind `\ud`, where 8 to f would make a surrogate.
    SecondDigitBehindD(u8),
    ThirdDigit(u8),
    FourthDigit(u8),
    /// In a long string.
    Ticked,
    OneTick,
    TwoTicks,
    /// In the raw text of a typed literal.
    Raw,
}

/// Why nothing goes on behind a byte.
#[derive(Clone, Copy)]
pub enum End {
    /// It closes what it stands in.
    Closed,
    /// It may not stand there.
    Refused,
}

fn is_escape(b: u8) -> bool
    ensures { result ≡ is_escape b }
{
    matches!(b, b'\\' | b'"' | b'\'' | b'n' | b'r' | b't')
}

pub fn is_quote(b: u8) -> bool
    ensures { result ≡ is_quote b }
{
    matches!(b, b'"' | b'\'')
}

fn next_if(holds: bool, next: Within) -> Result<Within, End>
    ensures { result ≡ (if holds then Ok next else Err End.Refused) }
{
    if holds { Ok(next) } else { Err(End::Refused) }
}

fn quoted_step(quote: u8, b: u8) -> Result<Within, End>
    ensures { result ≡ step (Within.Quoted quote) b }
{
    if b == quote {
        Err(End::Closed)
    } else if b == b'\\' {
        Ok(Within::Escape(quote))
    } else if b == b'\n' {
        Err(End::Refused)
    } else {
        Ok(Within::Quoted(quote))
    }
}

fn escape_step(quote: u8, b: u8) -> Result<Within, End>
    ensures { result ≡ step (Within.Escape quote) b }
{
    if b == b'u' {
        Ok(Within::FirstDigit(quote))
    } else {
        next_if(is_escape(b), Within::Quoted(quote))
    }
}

fn first_digit_step(quote: u8, b: u8) -> Result<Within, End>
    ensures { result ≡ step (Within.FirstDigit quote) b }
{
    if b == b'D' || b == b'd' {
        Ok(Within::SecondDigitBehindD(quote))
    } else {
        next_if(is_hexadecimal_digit(b), Within::SecondDigit(quote))
    }
}

fn tick_step(b: u8, next: Result<Within, End>) -> Result<Within, End>
    ensures { result ≡ (if b == 96 then next else Ok Within.Ticked) }
{
    if b == b'`' { next } else { Ok(Within::Ticked) }
}

fn raw_step(b: u8) -> Result<Within, End>
    ensures { result ≡ step Within.Raw b }
{
    if b == b')' {
        Err(End::Closed)
    } else {
        Ok(Within::Raw)
    }
}

impl Within {
    ghost use Rattle.std.specs.Prelude.{◌≡◌};
    ghost use Rattle.kq_read_tokens.specs.Delimited.{step};

    fn step(self, b: u8) -> Result<Within, End>
        ensures { result ≡ step self b }
    {
        match self {
            Within::Quoted(quote) => quoted_step(quote, b),
            Within::Escape(quote) => escape_step(quote, b),
            Within::FirstDigit(quote) => first_digit_step(quote, b),
            Within::SecondDigit(quote) => {
                next_if(is_hexadecimal_digit(b), Within::ThirdDigit(quote))
            }
            Within::SecondDigitBehindD(quote) => {
                next_if(matches!(b, b'0'..=b'7'), Within::ThirdDigit(quote))
            }
            Within::ThirdDigit(quote) => {
                next_if(is_hexadecimal_digit(b), Within::FourthDigit(quote))
            }
            Within::FourthDigit(quote) => {
                next_if(is_hexadecimal_digit(b), Within::Quoted(quote))
            }
            Within::Ticked => tick_step(b, Ok(Within::OneTick)),
            Within::OneTick => tick_step(b, Ok(Within::TwoTicks)),
            Within::TwoTicks => tick_step(b, Err(End::Closed)),
            Within::Raw => raw_step(b),
        }
    }
}

/// How many bytes there are through the one that closes.
pub fn closing_len(start: Within, bytes: &[u8]) -> Option<usize>
    ensures value { result ≡ closing_len step start bytes.now }
    ensures within { IfSome result (λ n. n ≤ length bytes.now) }
{
    let mut within = start;
    for (i, b) in bytes.iter().enumerate() {
        match within.step(*b) {
            Ok(next) => within = next,
            Err(end) => {
                return match end {
                    End::Closed => Some(i + 1),
                    End::Refused => None,
                };
            }
        }
    }
    None
}
