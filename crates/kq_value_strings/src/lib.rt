//! Searching, splitting and replacing in strings, as `has`, `contains`, `startswith`, `endswith`, `split` and `replace_string` do. What each gives is
//! a definition of `kq_value_formats`.
#![tactic(auto)]

mod case;
mod compare;
mod cut;
mod find;
mod search;
mod split;
mod suffix;
mod terms;

pub use find::{FindKind, find_text};
pub use split::{piece_of, replace_text, split_text};
