//! Expressions over pieces of rows, a column at a time: the value of each row that is asked for, or an overflow where one overflows. A part that is
//! chosen for some rows is evaluated over these alone. What a function gives of its arguments is left to `kq_eval_row`, what the operators give of
//! columns of numbers at once to `kq_eval_kernels`, how cells are kept to `kq_store_column_view`, and which pieces there are to the crates above.
#![tactic(auto)]

mod arithmetic;
mod beside;
mod calls;
mod choices;
mod comparison;
mod comparisons;
mod eval;
mod gather;
mod kernels;
mod members;
mod numbers;
mod parts;
mod piece;
mod splits;
mod truths;

pub use eval::eval_column;
pub use kq_eval_row::eval as eval_row;
pub use kq_store_column_view::{Vector, owned};
pub use kq_value_arithmetic::is_yes;
