// Timespans as they are written.
ghost use Rattle.std.specs.Prelude.{◌≡◌, ◌≤◌, ◌^◌, ◌*◌, ◌%◌, true, option_map, drop, length, pos, neg_ℤ, IfSome};
ghost use Rattle.std.specs.Int.{IsInRange};
ghost use Rattle.std.specs.List.{prefix_len};
ghost use Rattle.std.specs.Str.{all_ascii_digits};
ghost use Rattle.std.specs.Str.Parse.{digits_value};
ghost use Rattle.kq_value_formats.specs.Datetimes.{fraction_ticks};
ghost use Rattle.kq_value_formats.specs.Timespans.{amount_ticks as amount_value, both, clock_parts_ticks, decimals_ticks, hours_ticks as hours_value, is_amount_byte as is_of_amount, magnitude_ticks, pieces, seconds_ticks as seconds_value, short_numeral, timespan_of, token_ticks, unit_ticks as unit_value};
ghost use Rattle.kq_value_formats.specs.Numerals.{begins_with_minus as has_minus, if_passes, is_long};
ghost use Rattle.kq_value_time.specs.Parts.{capped, part_ticks as part_value};

use crate::day::{TICKS_PER_DAY, TICKS_PER_HOUR, TICKS_PER_MINUTE, TICKS_PER_SECOND};
use crate::digits::{self, Parts};

/// The ticks of a timespan's text: a clock with or without days, an amount of a unit, or a whole number of days.
#[tactic(auto, using(crate::proofs::TimespanLemmas::sign_lemmas))]
pub fn read_timespan(text: &str) -> Option<i64>
    ensures { result ≡ timespan_of text.now }
{
    let text = text.as_bytes();
    if begins_with_minus(text) {
        return negative_long(magnitude(&text[1..])?);
    }
    if digits::is_numeral(text) {
        return long(digits::number(text).saturating_mul(TICKS_PER_DAY));
    }
    long(magnitude(text)?)
}

fn begins_with_minus(text: &[u8]) -> bool
    ensures { result ≡ has_minus text.now }
{
    !text.is_empty() && text[0] == b'-'
}

// The number, where it is a long.
fn long(number: u64) -> Option<i64>
    ensures { result ≡ if_passes is_long (pos number) }
{
    0i64.checked_add_unsigned(number)
}

// The number below 0, where it is a long.
fn negative_long(number: u64) -> Option<i64>
    ensures { result ≡ if_passes is_long (neg_ℤ (pos number)) }
{
    0i64.checked_sub_unsigned(number)
}

// A timespan without its sign.
fn magnitude(text: &[u8]) -> Option<u64>
    ensures { result ≡ option_map capped (magnitude_ticks text.now) }
{
    clock(text).or_else(|| token(text))
}

// The sum of two amounts, where both are there. The greatest one stands for all that are greater.
fn total(first: Option<u64>, per_first: u64, second: Option<u64>, per_second: u64) -> Option<u64>
    ensures { result ≡ option_map capped (both first per_first second per_second) }
{
    match (first, second) {
        (Some(first), Some(second)) => Some(
            first
                .saturating_mul(per_first)
                .saturating_add(second.saturating_mul(per_second)),
        ),
        _ => None,
    }
}

// One or two digits, of a number up to `most`.
fn short(text: &[u8], most: u64) -> Option<u64>
    requires { most ≤ 59 }
    ensures { result ≡ short_numeral most text.now }
{
    let number = digits::numeral(text)?;
    if text.len() <= 2 && number <= most {
        Some(number)
    } else {
        None
    }
}

// Hours, or days, a point and hours.
fn hours_ticks(text: &[u8]) -> Option<u64>
    ensures { result ≡ option_map capped (hours_value (pieces 46 text.now)) }
{
    match digits::parts_of(text, b'.') {
        Parts::One(hours) => total(Some(0), TICKS_PER_DAY, short(hours, 23), TICKS_PER_HOUR),
        Parts::Two(days, hours) => total(
            digits::numeral(days),
            TICKS_PER_DAY,
            short(hours, 23),
            TICKS_PER_HOUR,
        ),
        _ => None,
    }
}

// Seconds, or seconds, a point and decimals.
fn seconds_ticks(text: &[u8]) -> Option<u64>
    ensures { result ≡ option_map capped (seconds_value (pieces 46 text.now)) }
{
    match digits::parts_of(text, b'.') {
        Parts::One(seconds) => total(short(seconds, 59), TICKS_PER_SECOND, Some(0), 1),
        Parts::Two(seconds, decimals) => total(
            short(seconds, 59),
            TICKS_PER_SECOND,
            decimals_of_second(decimals),
            1,
        ),
        _ => None,
    }
}

// One to seven decimals of a second.
fn decimals_of_second(text: &[u8]) -> Option<u64>
    ensures { result ≡ decimals_ticks text.now }
{
    if digits::is_numeral(text) && text.len() <= 7 {
        Some(digits::fraction(text))
    } else {
        None
    }
}

// `[d.]hh:mm:ss[.fffffff]`.
fn clock(text: &[u8]) -> Option<u64>
    ensures { result ≡ option_map capped (clock_parts_ticks (pieces 58 text.now)) }
{
    match digits::parts_of(text, b':') {
        Parts::Three(hours, minutes, seconds) => {
            let hours = hours_ticks(hours);
            let minutes = total(hours, 1, short(minutes, 59), TICKS_PER_MINUTE);
            total(minutes, 1, seconds_ticks(seconds), 1)
        }
        _ => None,
    }
}

// An amount, and at once its unit.
#[tactic(auto, using(crate::proofs::TimespanLemmas::token_lemmas))]
fn token(text: &[u8]) -> Option<u64>
    ensures { result ≡ option_map capped (token_ticks text.now) }
{
    let (amount, unit) = text.split_at(amount_len(text));
    amount_ticks(amount, unit_ticks(unit)?)
}

// How many bytes the amount has that the text begins with.
fn amount_len(text: &[u8]) -> usize
    ensures { result ≡ prefix_len is_of_amount text.now }
{
    let end = text.iter().position(|byte| !is_amount_byte(*byte));
    end.unwrap_or(text.len())
}

fn is_amount_byte(byte: u8) -> bool
    ensures { result ≡ is_of_amount byte }
{
    byte.is_ascii_digit() || byte == b'.'
}

// The ticks of a unit.
fn unit_ticks(unit: &[u8]) -> Option<u64>
    ensures value { result ≡ unit_value unit.now }
    ensures bounds { IfSome result (λ ticks. IsInRange 1 864000000000 ticks) }
{
    match unit {
        b"d" => Some(TICKS_PER_DAY),
        b"h" => Some(TICKS_PER_HOUR),
        b"m" => Some(TICKS_PER_MINUTE),
        b"s" => Some(TICKS_PER_SECOND),
        b"ms" => Some(10_000),
        b"microsecond" => Some(10),
        b"tick" => Some(1),
        _ => None,
    }
}

// Digits, or digits, a point and decimals, of a unit.
#[tactic(auto, using(crate::proofs::TimespanLemmas::amount_two))]
fn amount_ticks(amount: &[u8], unit: u64) -> Option<u64>
    requires { IsInRange 1 864000000000 unit }
    ensures { result ≡ option_map capped (amount_value unit (pieces 46 amount.now)) }
{
    match digits::parts_of(amount, b'.') {
        Parts::One(whole) => total(digits::numeral(whole), unit, Some(0), 1),
        Parts::Two(whole, decimals) => {
            total(digits::numeral(whole), unit, part_ticks(decimals, unit), 1)
        }
        _ => None,
    }
}

// Decimals of a unit, where they are a whole number of ticks.
fn part_ticks(decimals: &[u8], unit: u64) -> Option<u64>
    requires { IsInRange 1 864000000000 unit }
    ensures value { result ≡ part_value unit decimals.now }
    ensures bound { IfSome result (λ ticks. ticks ≤ unit) }
{
    if !digits::is_numeral(decimals) {
        return None;
    }
    let mut part = 0;
    let mut place = decimals.len();
    while place > 0 {
        place -= 1;
        let tenths = u64::from(decimals[place] - b'0') * unit + part;
        if tenths % 10 != 0 {
            return None;
        }
        part = tenths / 10;
    }
    Some(part)
}
