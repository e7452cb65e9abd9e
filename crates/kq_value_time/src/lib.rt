//! The calendar over ticks of 100 ns: the starts of units and the places in them, and the written forms of datetimes and timespans, read and printed.
//! None takes memory. What a form means stands in `kq_value_formats`; the days of dates are `jiff`'s; tokens, literals and cells are left to others.
#![tactic(auto)]

mod datetime;
mod day;
mod digits;
mod print;
mod timespan;
mod unit;

pub use datetime::read_datetime;
pub use print::{put_datetime, put_timespan};
pub use timespan::read_timespan;
pub use unit::{Unit, part_of, start_of};
