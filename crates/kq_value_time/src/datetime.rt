// Datetimes as they are written.
ghost use Rattle.std.specs.Prelude.{◌≡◌, ◌≤◌, ◌<◌, ◌+◌, ◌^◌, ◌==◌, ◌||◌, if◌then◌else◌, true, take, drop, length, pos, neg_ℤ, ◌*◌, ◌+ℤ◌, ◌-ℤ◌, ◌≤ℤ◌, Some, None, IfSome};
ghost use Rattle.std.specs.List.{prefix_len};
ghost use Rattle.std.specs.Char.{is_ascii_digit};
ghost use Rattle.std.specs.Str.{all_ascii_digits};
ghost use Rattle.kq_value_formats.specs.Civil.{days_of_year_0};
ghost use Rattle.kq_value_formats.specs.Datetimes.{after_date as after_value, clock_ticks as clock_value, date_days as date_value, datetime_of, fits as is_of_form, fraction_ticks as fraction_value, is_clock, is_fraction, is_moment as is_moment_value, is_time_byte as is_of_time, number_at as number_in, ticks_per_day, time_ticks as time_value, zone_ticks as zone_value};

use crate::day::{TICKS_PER_DAY, TICKS_PER_HOUR, TICKS_PER_MINUTE, TICKS_PER_SECOND};
use crate::digits;
use jiff_core::civil::Date;
use kq_value_formats::is_moment;

// The days of `jiff`, which count from -9999-01-01, before 0000-01-01.
const DAYS_BEFORE_YEAR_0: u32 = 3_652_059;

const DAY: i64 = TICKS_PER_DAY as i64;

// The ticks from 0000-01-01 to 0001-01-01.
const FIRST_DAY: i64 = 366 * DAY;

/// The ticks of a datetime's text.
pub fn read_datetime(text: &str) -> Option<i64>
    ensures { result ≡ datetime_of text.now }
{
    let text = text.as_bytes();
    let (date, rest) = text.split_at(text.len().min(10));
    let days = date_days(date)?;
    let ticks = after_date(rest)?;
    moment(ticks_from(days, ticks))
}

// The ticks from 0001-01-01 of a day from 0000-01-01, and ticks more.
fn ticks_from(days: u32, ticks: i64) -> i64
    requires days_in { days ≤ 3652424 }
    requires above { neg_ℤ (pos 864000000000) ≤ℤ ticks }
    requires below { ticks ≤ℤ pos 1728000000000 }
    ensures { result ≡ (pos (days * ticks_per_day) -ℤ pos (days_of_year_0 * ticks_per_day)) +ℤ ticks }
{
    i64::from(days) * DAY - FIRST_DAY + ticks
}

// The ticks, where a datetime has them.
fn moment(ticks: i64) -> Option<i64>
    ensures { result ≡ (if is_moment_value ticks then Some ticks else None) }
{
    if is_moment(ticks) { Some(ticks) } else { None }
}

// `yyyy-MM-dd`, as its days from 0000-01-01.
fn date_days(text: &[u8]) -> Option<u32>
    ensures value { result ≡ date_value text.now }
    ensures bound { IfSome result (λ days. days ≤ 3652424) }
{
    if !fits(b"0000-00-00", text) {
        return None;
    }
    let year = number_at(text, 0, 4) as i16;
    let month = number_at(text, 5, 2) as i8;
    let day = number_at(text, 8, 2) as i8;
    match Date::new(year, month, day) {
        Ok(date) => Some(date.days_since_min() - DAYS_BEFORE_YEAR_0),
        Err(_) => None,
    }
}

// What follows a date: nothing, or `T` or a space, a time and a zone.
fn after_date(text: &[u8]) -> Option<i64>
    ensures value { result ≡ after_value text.now }
    ensures above { IfSome result (λ z. neg_ℤ (pos 864000000000) ≤ℤ z) }
    ensures below { IfSome result (λ z. z ≤ℤ pos 1728000000000) }
{
    let Some((separator, text)) = text.split_first() else {
        return Some(0);
    };
    if !is_separator(*separator) {
        return None;
    }
    let (time, zone) = text.split_at(time_len(text));
    let ticks = time_ticks(time)?;
    let ahead = zone_ticks(zone)?;
    Some(ticks as i64 - ahead)
}

fn is_separator(byte: u8) -> bool
    ensures { result ≡ (byte == 84 || byte == 32) }
{
    byte == b'T' || byte == b' '
}

// How many bytes the time has that the text begins with.
fn time_len(text: &[u8]) -> usize
    ensures { result ≡ prefix_len is_of_time text.now }
{
    let end = text.iter().position(|byte| !is_time_byte(*byte));
    end.unwrap_or(text.len())
}

fn is_time_byte(byte: u8) -> bool
    ensures { result ≡ is_of_time byte }
{
    byte.is_ascii_digit() || byte == b':' || byte == b'.'
}

// `HH:mm`, `HH:mm:ss`, or that with a fraction.
fn time_ticks(text: &[u8]) -> Option<u64>
    ensures value { result ≡ time_value text.now }
    ensures bound { IfSome result (λ ticks. ticks < 864000000000) }
{
    if fits(b"00:00", text) {
        return clock_ticks(number_at(text, 0, 2), number_at(text, 3, 2), 0);
    }
    let (clock, fraction) = text.split_at(text.len().min(8));
    if !fits(b"00:00:00", clock) {
        return None;
    }
    let fraction = fraction_ticks(fraction)?;
    let hours = number_at(clock, 0, 2);
    let minutes = number_at(clock, 3, 2);
    let seconds = number_at(clock, 6, 2);
    Some(clock_ticks(hours, minutes, seconds)? + fraction)
}

// The ticks of a time of day, if there is one.
fn clock_ticks(hours: u64, minutes: u64, seconds: u64) -> Option<u64>
    ensures value { result ≡ (if is_clock hours minutes seconds then Some (clock_value hours minutes seconds) else None) }
    ensures bound { IfSome result (λ ticks. ticks + 10000000 ≤ 864000000000) }
{
    if hours <= 23 && minutes <= 59 && seconds <= 59 {
        Some(hours * TICKS_PER_HOUR + minutes * TICKS_PER_MINUTE + seconds * TICKS_PER_SECOND)
    } else {
        None
    }
}

// A point and one to nine decimals, or nothing.
fn fraction_ticks(text: &[u8]) -> Option<u64>
    ensures value { result ≡ (if is_fraction text.now then Some (fraction_value (drop 1 text.now)) else None) }
    ensures bound { IfSome result (λ ticks. ticks < 10000000) }
{
    let Some((point, decimals)) = text.split_first() else {
        return Some(0);
    };
    if *point == b'.' && digits::is_numeral(decimals) && decimals.len() <= 9 {
        Some(digits::fraction(decimals))
    } else {
        None
    }
}

// Nothing, `Z`, `+HH:mm` or `-HH:mm`, as the ticks that it is ahead.
fn zone_ticks(text: &[u8]) -> Option<i64>
    ensures value { result ≡ zone_value text.now }
    ensures above { IfSome result (λ z. neg_ℤ (pos 864000000000) ≤ℤ z) }
    ensures below { IfSome result (λ z. z ≤ℤ pos 864000000000) }
{
    if matches!(text, b"" | b"Z") {
        return Some(0);
    }
    let ahead = fits(b"+00:00", text);
    if !ahead && !fits(b"-00:00", text) {
        return None;
    }
    let ticks = clock_ticks(number_at(text, 1, 2), number_at(text, 4, 2), 0)? as i64;
    Some(if ahead { ticks } else { -ticks })
}

// Whether the text has a digit where the form has a zero, and else the form's own byte.
#[tactic(auto, using(crate::proofs::DatetimeLemmas::fits_lemmas))]
fn fits(form: &[u8], text: &[u8]) -> bool
    ensures { result ≡ is_of_form form.now text.now }
{
    if form.len() != text.len() {
        return false;
    }
    for (place, byte) in text.iter().enumerate() {
        if !fits_byte(form[place], *byte) {
            return false;
        }
    }
    true
}

fn fits_byte(form: u8, byte: u8) -> bool
    ensures { result ≡ (if form == 48 then is_ascii_digit byte else form == byte) }
{
    if form == b'0' {
        byte.is_ascii_digit()
    } else {
        form == byte
    }
}

// The number of up to four digits at a place.
#[tactic(auto, using(crate::proofs::DatetimeLemmas::number_lemmas))]
fn number_at(text: &[u8], from: usize, count: usize) -> u64
    requires inside { from + count ≤ length text.now }
    requires few { count ≤ 4 }
    requires digits { all_ascii_digits (take count (drop from text.now)) ≡ true }
    ensures value { result ≡ number_in text.now from count }
    ensures bound { result < 10 ^ count }
{
    digits::number(&text[from..from + count])
}
