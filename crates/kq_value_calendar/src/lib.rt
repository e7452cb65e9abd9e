//! The parts of datetimes, over values: where their day, week, month and year start, and the year, the month, the day, the day of the week and the
//! hour in which they lie. Each is total, and none takes memory. The calendar itself stands in `kq_value_time`; sums of datetimes and their bins are
//! left to `kq_value_arithmetic`.
#![tactic(auto)]

mod parts;
mod range;
mod starts;

pub use parts::{day_of_month, day_of_week, hour_of, month_of, year_of};
pub use starts::{start_of_day, start_of_month, start_of_week, start_of_year};
