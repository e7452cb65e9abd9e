//! Conversions between the types of values, the tests for null, and the parts of dynamics, each from cells to a cell. Reading and printing JSON and
//! times are left to `kq_value_json` and `kq_value_time`, and the functions of strings to `kq_value_string_functions`.
#![tactic(auto)]

mod convert;
mod missing;
mod parts;
mod print;

pub use convert::{as_bool, as_dynamic, as_int, as_long, as_moment, as_span, as_text};
pub use missing::{empty_test, not_empty_test, not_null_test, null_test};
pub use parts::{array_length_of, keys_of, member_of, sorted_of};
pub use print::{put_text, text_of_value};
