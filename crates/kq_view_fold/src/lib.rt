//! What comes to the part of a view, and what the view's rows are: rows go through the operators of its body into groups, which are folded behind
//! those of its part.
//! It is handed the rows that came since, and sees no record: which rows these are, and when they are folded in, is left to the crates above.
#![tactic(auto)]

mod body;
mod group;
mod part;

pub use group::{GroupFault, group_rows};
pub use part::{empty_part, fold, fold_by, view_rows};
