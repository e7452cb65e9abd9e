//! Expressions over rows, wherever these stand, by pieces of a few thousand rows, a column at a time: their values, the places of the rows for which
//! one is true, and the rows that they make. What an expression gives of the columns of a piece is left to `kq_eval_columns`, and what becomes of the
//! rows to the crates above.
#![tactic(auto)]

mod columns;
mod copy;
mod filter;
mod map;
mod numbers;
mod piece;
mod reads;
mod relation;
mod sources;
mod values;
mod worded;
mod words;

pub use copy::copy_row;
pub use filter::places_kept;
pub use kq_eval_columns::{Vector, eval_row};
pub use kq_plan_expressions::Expr;
pub use map::map_rows;
pub use relation::Relation;
pub use values::{values_over, vector_over};
