//! Rows side by side: the cells of many records in one buffer, rows that contracts alone see, and what stands in columns that a row lacks because
//! they came after it. Rows under their columns are the answer of a query; beside it stands why the query of an update policy has none.
//! What a cell is, and how cells are ordered, compared and hashed, is left to the crate of values; which rows there are, to its users.
#![tactic(auto)]

mod answer;
mod cause;
mod recorded;
mod rows;
mod seen;
mod widened;

pub use answer::Answer;
pub use cause::{Cause, Why};
pub use recorded::RecordedRows;
pub use rows::Rows;
pub use widened::{missing_cell, widen, with_columns};
