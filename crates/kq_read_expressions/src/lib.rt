//! Expressions: the readers of names, of expressions and of lists with commas, which take exactly the texts that spell one and stop exactly where
//! none goes on. What an expression means is left to others.
#![tactic(auto)]

mod chains;
mod lists;
mod names;
mod nesting;
mod operands;
mod paths;
mod primaries;
mod relations;

pub use lists::listed;
pub use names::{AName, read_name};
pub use operands::{AnExpression, read_expression};
