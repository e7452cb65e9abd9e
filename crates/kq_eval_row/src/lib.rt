//! What an expression gives of a row: each operator and function at its arguments, and expressions evaluated row by row. What the operators and
//! functions of each family give is left to the crates below, and rows as columns to the crates above.
#![tactic(auto)]

pub mod apply;
mod rows;

pub use kq_value_string_functions::{empty_test, piece_at};
pub use rows::eval;
