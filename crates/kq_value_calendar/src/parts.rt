// Where datetimes lie.
ghost use Rattle.std.specs.Prelude.{◌≡◌};
ghost use Rattle.kq_value_calendar.specs.Calendar.{part, day_of_week, year_of, month_of, day_of_month, hour_of};

use crate::range::is_datetime;
use kq_value::{Ty, Value};
use kq_value_time::{Unit, part_of};

const TICKS_PER_DAY: i64 = 864_000_000_000;

/// The whole days since the last Sunday, as a timespan; null of any value but a datetime.
pub fn day_of_week(v: &Value) -> Value
    ensures { result ≡ day_of_week v.now }
{
    match v {
        Value::Moment(ticks) if is_datetime(*ticks) => Value::Span(
            part_of(Unit::Week, *ticks) * TICKS_PER_DAY,
        ),
        _ => Value::Null(Ty::Span),
    }
}

/// The year, from 1; null of any value but a datetime.
pub fn year_of(v: &Value) -> Value
    ensures { result ≡ year_of v.now }
{
    part(Unit::Year, v)
}

/// As `year_of`, the month of the year, from 1.
pub fn month_of(v: &Value) -> Value
    ensures { result ≡ month_of v.now }
{
    part(Unit::Month, v)
}

/// As `year_of`, the day of the month, from 1.
pub fn day_of_month(v: &Value) -> Value
    ensures { result ≡ day_of_month v.now }
{
    part(Unit::Day, v)
}

/// As `year_of`, the hour of the day, from 0 to 23.
pub fn hour_of(v: &Value) -> Value
    ensures { result ≡ hour_of v.now }
{
    part(Unit::Hour, v)
}

fn part(unit: Unit, v: &Value) -> Value
    ensures { result ≡ part unit v.now }
{
    match v {
        Value::Moment(ticks) if is_datetime(*ticks) => Value::Long(part_of(unit, *ticks)),
        _ => Value::Null(Ty::Long),
    }
}
