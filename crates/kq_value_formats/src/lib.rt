//! The written forms of values. As definitions for contracts alone: the calendar, the texts of numbers, datetimes, timespans, dynamics and cells, and
//! what the language's functions of datetimes, strings and dynamics give, with their lemmas and computed examples. As code: whole numbers, bools and
//! the blanks around them read from texts. Times are read and printed by `kq_value_time`, and JSON by `kq_value_json`.
#![tactic(auto)]

mod blanks;
mod numbers;

pub use blanks::trim;
pub use kq_value::{Dyn, DynList, Memory, Text, is_moment};
pub use numbers::{read_bool, read_int, read_long};
