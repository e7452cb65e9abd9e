// The units that datetimes are divided in.
ghost use Rattle.std.specs.Prelude.{◌≡◌, ◌≤◌, ◌*◌, pos, IsTrue};
ghost use Rattle.kq_value_formats.specs.Civil.{days_since_sunday};
ghost use Rattle.kq_value_formats.specs.Datetimes.{is_moment};
ghost use Rattle.kq_value_time.specs.Units.{unit_start, unit_part};

use crate::day::{self, TICKS_PER_DAY, TICKS_PER_HOUR};

#[derive(Clone, Copy, Debug)]
pub enum Unit {
    Year,
    Month,
    Week,
    Day,
    Hour,
}

/// The first tick of the unit that holds the datetime. Weeks start on Sundays, and the first of them starts before tick 0.
pub fn start_of(unit: Unit, ticks: i64) -> i64
    requires { IsTrue (is_moment ticks) }
    ensures { result ≡ unit_start unit ticks }
{
    let day = day::day_of(ticks);
    match unit {
        Unit::Year => first_tick(day - (u32::from(day::date_of(day).day_of_year()) - 1)),
        Unit::Month => first_tick(day - (u32::from(day::date_of(day).day) - 1)),
        Unit::Week => first_tick(day) - first_tick(since_sunday(day)),
        Unit::Day => first_tick(day),
        Unit::Hour => ticks - (ticks.unsigned_abs() % TICKS_PER_HOUR) as i64,
    }
}

/// Where the datetime lies: the year, the month of the year, the whole days since the last Sunday, the day of the month or the hour of the day.
pub fn part_of(unit: Unit, ticks: i64) -> i64
    requires { IsTrue (is_moment ticks) }
    ensures { result ≡ pos (unit_part unit ticks) }
{
    let day = day::day_of(ticks);
    match unit {
        Unit::Year => i64::from(day::date_of(day).year),
        Unit::Month => i64::from(day::date_of(day).month),
        Unit::Week => i64::from(since_sunday(day)),
        Unit::Day => i64::from(day::date_of(day).day),
        Unit::Hour => (ticks.unsigned_abs() % TICKS_PER_DAY / TICKS_PER_HOUR) as i64,
    }
}

// The ticks from 0001-01-01 to the start of a day.
fn first_tick(day: u32) -> i64
    requires { day ≤ 3652058 }
    ensures { result ≡ pos (day * 864000000000) }
{
    (u64::from(day) * TICKS_PER_DAY) as i64
}

// The whole days since the last Sunday: day 0 is a Monday.
fn since_sunday(day: u32) -> u32
    requires { day ≤ 3652058 }
    ensures { result ≡ days_since_sunday day }
{
    (day + 1) % 7
}
