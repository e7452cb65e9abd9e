//! Groups of rows by their keys: the different keys with their numbers, and for each the states of the aggregates; groups of other rows come to them
//! key by key. What an aggregate keeps and ends with, and the values of keys and arguments over a row, are left to other crates.
#![tactic(auto)]

mod aggregated;
mod argument;
mod cells;
mod codes;
mod column_keys;
mod found;
mod gathered;
mod groups;
mod hint;
mod key_table;
mod merged;
mod several_keys;

pub use aggregated::Aggregated;
pub use argument::Argument;
pub use groups::{Groups, group_rows};
