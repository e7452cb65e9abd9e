//! Row operators one after another over a piece of rows: a condition chooses places and copies no cell, expressions make rows of those of the columns
//! that they read, and an expansion makes a row for each part of a value. The failure of several is that of the first of them that overflows.
//! What an expression gives of rows is left to `kq_eval_pieces`, where the rows stand to those who lend them, and what becomes of them to the crates
//! above.
#![tactic(auto)]

mod apply;
mod choices;
mod copies;
mod operator;
mod piece;
mod run;

pub use kq_eval_pieces::{Relation, Vector, copy_row, eval_row, map_rows, vector_over};
pub use kq_run_reshape::{RangeFault, append_arm, distinct_rows, range_rows};
pub use operator::Operator;
pub use piece::Piece;
pub use run::{Passed, pass};
