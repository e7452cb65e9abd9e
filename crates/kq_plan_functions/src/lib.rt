//! The table of operators and functions: their names, the types of the arguments that each takes, and the type of what it gives. What they give is
//! left to the crates that evaluate them.
#![tactic(auto)]

mod function;
mod names;
mod rules;
mod typing;

pub use function::Function;
pub use kq_value::{Field, Schema, Text, Ty, Value};
pub use kq_value_strings::{FindKind, find_text};
pub use names::find;
pub use typing::{Choice, choose};
