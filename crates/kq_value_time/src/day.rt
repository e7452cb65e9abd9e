// The day of a datetime, and its date.
ghost use Rattle.std.specs.Prelude.{◌≡◌, ◌≤◌, pos, IsTrue, unsigned_abs};
ghost use Rattle.kq_value_formats.specs.Datetimes.{is_moment};
ghost use Rattle.kq_value_formats.specs.Ticks.{day_of as day_number};
ghost use Rattle.kq_value_formats.specs.Civil.{date_of_day};
ghost use Rattle.kq_value_time.specs.Dates.{HasDate};

use jiff_core::civil::Date;

pub(crate) const TICKS_PER_SECOND: u64 = 10_000_000;

pub(crate) const TICKS_PER_MINUTE: u64 = 600_000_000;

pub(crate) const TICKS_PER_HOUR: u64 = 36_000_000_000;

pub(crate) const TICKS_PER_DAY: u64 = 864_000_000_000;

// The days of `jiff`, which count from -9999-01-01, before 0001-01-01.
const DAYS_BEFORE: u32 = 3_652_425;

// The days from 0001-01-01 to the day of a datetime.
pub(crate) fn day_of(ticks: i64) -> u32
    requires { IsTrue (is_moment ticks) }
    ensures value { result ≡ day_number ticks }
    ensures bound { result ≤ 3652058 }
{
    (ticks.unsigned_abs() / TICKS_PER_DAY) as u32
}

// The date of the day that many days after 0001-01-01.
pub(crate) fn date_of(day: u32) -> Date
    requires { day ≤ 3652058 }
    ensures { HasDate result (date_of_day day) }
{
    Date::from_days_since_min(day + DAYS_BEFORE)
}
