// The printed forms, written from the front of a buffer on.
ghost use Rattle.std.specs.Prelude.{◌≡◌, ◌+◌, ◌*◌, ◌<◌, ◌≤◌, ◌^◌, ◌++◌, ◌∷◌, [], take, length, pos, ◌≤ℤ◌, IsTrue, decimal, codes, ◌==◌, if◌then◌else◌};
ghost use Rattle.std.specs.Str.{IsUtf8};
ghost use Rattle.kq_value_formats.specs.Numerals.{padded, last_digit};
ghost use Rattle.kq_value_formats.specs.Datetimes.{is_moment, clock_text, date_text, datetime_text};
ghost use Rattle.kq_value_formats.specs.Timespans.{timespan_text};
ghost use Rattle.kq_value_time.specs.Dates.{civil_of};

use crate::day::{self, TICKS_PER_DAY, TICKS_PER_HOUR, TICKS_PER_MINUTE, TICKS_PER_SECOND};
use jiff_core::civil::Date;

// Room for the longest printed form, that of a datetime.
type Buffer = [u8; 28];

/// Writes `yyyy-MM-ddTHH:mm:ss.fffffffZ`, which takes all of the room.
pub fn put_datetime(ticks: i64, out: &mut Buffer)
    requires { IsTrue (is_moment ticks) }
    ensures text { out.new ≡ datetime_text ticks }
    ensures utf8 { IsUtf8 out.new }
{
    let date = day::date_of(day::day_of(ticks));
    let ticks = ticks.unsigned_abs();
    let at = put_date(date, out, 0);
    let at = put_byte(b'T', out, at);
    let at = put_clock(ticks % TICKS_PER_DAY, out, at);
    let at = put_byte(b'.', out, at);
    let at = put_padded(ticks % TICKS_PER_SECOND, 7, out, at);
    put_byte(b'Z', out, at);
}

/// Writes `[-][d.]hh:mm:ss[.fffffff]`, the days and the fraction only where they aren't 0, and gives its length.
pub fn put_timespan(ticks: i64, out: &mut Buffer) -> usize
    ensures within { result ≤ 28 }
    ensures text { take result out.new ≡ timespan_text ticks }
    ensures utf8 { IsUtf8 (take result out.new) }
{
    let magnitude = ticks.unsigned_abs();
    let at = put_sign(ticks < 0, out);
    let at = put_days(magnitude / TICKS_PER_DAY, out, at);
    let at = put_clock(magnitude % TICKS_PER_DAY, out, at);
    put_fraction(magnitude % TICKS_PER_SECOND, out, at)
}

// Puts `-` in front where the number is below 0.
fn put_sign(negative: bool, out: &mut Buffer) -> usize
    ensures within { result ≤ 1 }
    ensures text { take result out.new ≡ (if negative then codes "-" else []) }
{
    if negative {
        return put_byte(b'-', out, 0);
    }
    0
}

// Puts the days and a point, or nothing for 0.
#[tactic(auto, using(crate::proofs::PrintLemmas::decimal_steps))]
fn put_days(days: u64, out: &mut Buffer, at: usize) -> usize
    requires room { at + 9 ≤ 28 }
    requires few { days < 100000000 }
    ensures within { result ≤ at + 9 }
    ensures text { take result out.new ≡ take at out.old ++ (if days == 0 then [] else decimal days ++ codes ".") }
{
    if days == 0 {
        return at;
    }
    let at = put_decimal(days, out, at);
    put_byte(b'.', out, at)
}

// Puts a point and seven digits, or nothing for 0.
fn put_fraction(ticks: u64, out: &mut Buffer, at: usize) -> usize
    requires { at + 8 ≤ 28 }
    ensures within { result ≤ at + 8 }
    ensures text { take result out.new ≡ take at out.old ++ (if ticks == 0 then [] else codes "." ++ padded 7 ticks) }
{
    if ticks == 0 {
        return at;
    }
    let at = put_byte(b'.', out, at);
    put_padded(ticks, 7, out, at)
}

// Puts `yyyy-MM-dd`.
fn put_date(date: Date, out: &mut Buffer, at: usize) -> usize
    requires { at + 10 ≤ 28 }
    ensures next { result ≡ at + 10 }
    ensures text { take result out.new ≡ take at out.old ++ date_text (civil_of date) }
{
    let at = put_padded(u64::from(date.year.unsigned_abs()), 4, out, at);
    let at = put_byte(b'-', out, at);
    let at = put_padded(u64::from(date.month), 2, out, at);
    let at = put_byte(b'-', out, at);
    put_padded(u64::from(date.day), 2, out, at)
}

// Puts `hh:mm:ss` of a time of day.
fn put_clock(ticks: u64, out: &mut Buffer, at: usize) -> usize
    requires { at + 8 ≤ 28 }
    ensures next { result ≡ at + 8 }
    ensures text { take result out.new ≡ take at out.old ++ clock_text ticks }
{
    let at = put_padded(ticks / TICKS_PER_HOUR, 2, out, at);
    let at = put_byte(b':', out, at);
    let at = put_padded(ticks / TICKS_PER_MINUTE % 60, 2, out, at);
    let at = put_byte(b':', out, at);
    put_padded(ticks / TICKS_PER_SECOND % 60, 2, out, at)
}

// Puts a byte at a place, and gives the place after it.
fn put_byte(byte: u8, out: &mut Buffer, at: usize) -> usize
    requires { at < 28 }
    ensures next { result ≡ at + 1 }
    ensures text { take result out.new ≡ take at out.old ++ byte ∷ [] }
{
    out[at] = byte;
    at + 1
}

// Puts the last decimal digits of a number.
fn put_padded(n: u64, width: usize, out: &mut Buffer, at: usize) -> usize
    requires { at + width ≤ 28 }
    ensures next { result ≡ at + width }
    ensures text { take result out.new ≡ take at out.old ++ padded width n }
{
    if width == 0 {
        return at;
    }
    let at = put_padded(n / 10, width - 1, out, at);
    put_byte(digit(n), out, at)
}

// Puts a number in decimal.
#[tactic(auto, using(crate::proofs::PrintLemmas::decimal_steps))]
fn put_decimal(n: u64, out: &mut Buffer, at: usize) -> usize
    requires { at + length (decimal n) ≤ 28 }
    ensures next { result ≡ at + length (decimal n) }
    ensures text { take result out.new ≡ take at out.old ++ decimal n }
{
    if n < 10 {
        return put_byte(digit(n), out, at);
    }
    let at = put_decimal(n / 10, out, at);
    put_byte(digit(n), out, at)
}

#[tactic(auto, unfolding(kq_value_formats::specs::Numerals::last_digit))]
fn digit(n: u64) -> u8
    ensures { result ≡ last_digit n }
{
    b'0' + (n % 10) as u8
}
