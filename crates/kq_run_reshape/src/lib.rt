//! What the operators `distinct`, `range`, `union` and `mv-expand` make of rows. The values that they take are computed by those who run a plan, who
//! also know its stages and its types.
#![tactic(auto)]

mod cells;
mod distinct;
mod known;
mod mv_expand;
mod parts;
mod range;
mod united;

pub use distinct::distinct_rows;
pub use mv_expand::mv_expand_rows;
pub use range::{RangeFault, range_rows};
pub use united::append_arm;
