// Numbers: the longest whole number, real or timespan at the front.
ghost use Rattle.std.specs.Prelude.{◌≡◌, ◌≤◌, ◌<◌, ◌+◌, ◌^◌, length};
ghost use Rattle.kq_read_tokens.specs.Scanning.{fraction_len, signed_len, exponent_len, unit_len, x_len, hexadecimal_len, suffixed, decimal_at, longest_number, number_at};

use crate::bytes::{digits_len, hexadecimal_digits_len, starts_with_word_byte};
use crate::kind::TokenKind;

// The digits behind a point.
fn fraction_len(bytes: &[u8]) -> usize
    ensures value { result ≡ fraction_len bytes.now }
    ensures within { 0 < result → result + 1 ≤ length bytes.now }
{
    match bytes {
        [b'.', others @ ..] => digits_len(others),
        _ => 0,
    }
}

// Digits, with a sign before them or without.
fn signed_len(bytes: &[u8]) -> usize
    ensures value { result ≡ signed_len bytes.now }
    ensures within { result ≤ length bytes.now }
{
    match bytes {
        [b'+' | b'-', others @ ..] => match digits_len(others) {
            0 => 0,
            n => 1 + n,
        },
        _ => digits_len(bytes),
    }
}

fn exponent_len(bytes: &[u8]) -> usize
    ensures value { result ≡ exponent_len bytes.now }
    ensures within { result ≤ length bytes.now }
{
    match bytes {
        [b'e' | b'E', others @ ..] => match signed_len(others) {
            0 => 0,
            n => 1 + n,
        },
        _ => 0,
    }
}

fn unit_len(bytes: &[u8]) -> usize
    ensures value { result ≡ unit_len bytes.now }
    ensures within { result ≤ length bytes.now }
{
    if bytes.starts_with(b"microsecond") {
        11
    } else if bytes.starts_with(b"ms") {
        2
    } else if bytes.starts_with(b"m")
        || bytes.starts_with(b"d")
        || bytes.starts_with(b"h")
        || bytes.starts_with(b"s")
    {
        1
    } else if bytes.starts_with(b"tick") {
        4
    } else {
        0
    }
}

// `x` and hexadecimal digits.
fn x_len(bytes: &[u8]) -> usize
    ensures value { result ≡ x_len bytes.now }
    ensures within { result ≤ length bytes.now }
{
    match bytes {
        [b'x', others @ ..] => match hexadecimal_digits_len(others) {
            0 => 0,
            n => 1 + n,
        },
        _ => 0,
    }
}

// `0x` and hexadecimal digits.
fn hexadecimal_len(bytes: &[u8]) -> usize
    ensures value { result ≡ hexadecimal_len bytes.now }
    ensures within { result ≤ length bytes.now }
{
    match bytes {
        [b'0', others @ ..] => match x_len(others) {
            0 => 0,
            n => 1 + n,
        },
        _ => 0,
    }
}

// The kind of a number, `plain` where neither an exponent nor a unit follows its digits, and the bytes that follow them.
#[tactic(auto, unfolding(crate::specs::Scanning::suffixed))]
fn suffixed(plain: TokenKind, rest: &[u8]) -> (TokenKind, usize)
    ensures value { result ≡ suffixed plain rest.now }
    ensures within { result.1 ≤ length rest.now }
{
    let exponent = exponent_len(rest);
    if exponent != 0 {
        return (TokenKind::Real, exponent);
    }
    let unit = unit_len(rest);
    if unit != 0 {
        return (TokenKind::Timespan, unit);
    }
    (plain, 0)
}

// The number of n digits, and what follows them.
#[tactic(auto, unfolding(crate::specs::Scanning::decimal_at))]
fn decimal(n: usize, rest: &[u8]) -> (TokenKind, usize)
    requires { n + length rest.now < 2 ^ 64 }
    ensures value { result ≡ decimal_at n rest.now }
    ensures within { result.1 ≤ n + length rest.now }
{
    let fraction = fraction_len(rest);
    if fraction == 0 {
        let (kind, more) = suffixed(TokenKind::WholeNumber, rest);
        return (kind, n + more);
    }
    let (kind, more) = suffixed(TokenKind::Real, &rest[1 + fraction..]);
    (kind, n + (1 + fraction) + more)
}

#[tactic(auto, unfolding(crate::specs::Scanning::longest_number))]
fn longest_number(bytes: &[u8]) -> (TokenKind, usize)
    ensures value { result ≡ longest_number bytes.now }
    ensures within { result.1 ≤ length bytes.now }
{
    let hexadecimal = hexadecimal_len(bytes);
    if hexadecimal != 0 {
        return (TokenKind::WholeNumber, hexadecimal);
    }
    let n = digits_len(bytes);
    decimal(n, &bytes[n..])
}

/// The number at the front, unless a letter, a digit or an underscore follows it.
#[tactic(auto, unfolding(crate::specs::Scanning::number_at))]
pub fn number(bytes: &[u8]) -> Option<(TokenKind, usize)>
    ensures { result ≡ number_at bytes.now }
{
    let (kind, n) = longest_number(bytes);
    if starts_with_word_byte(&bytes[n..]) {
        return None;
    }
    Some((kind, n))
}
