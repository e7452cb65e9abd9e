//! Typed expressions over the columns of a row, as data. How a text becomes one, and what it gives of a row, is left to the crates above.
#![tactic(auto)]

mod chain;
mod expr;
mod operation;

pub use chain::linked;
pub use expr::{Expr, Link, Typed};
pub use kq_plan_functions::{Field, Schema, Text, Ty, Value};
pub use operation::Operation;
