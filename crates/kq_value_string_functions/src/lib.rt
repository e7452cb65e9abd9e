//! The operators and functions of strings, each from cells to a cell. A conversion to a string is `kq_value_conversions`', and searching, splitting
//! and replacing in a text are `kq_value_strings`'.
#![tactic(auto)]

mod case;
mod find;
mod join;
mod place;
mod split;

pub use case::{equal_folded, lowered, uppered};
pub use find::found;
pub use join::joined;
pub use kq_value_conversions::{
    array_length_of, as_bool, as_dynamic, as_int, as_long, as_moment, as_span, as_text, empty_test,
    keys_of, member_of, not_empty_test, not_null_test, null_test, sorted_of,
};
pub use place::{index_in, str_len, sub_text, sub_text_to};
pub use split::{piece_at, pieces, replaced};
