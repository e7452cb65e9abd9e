//! Texts as sets: each text kept once, in the order of first appearance; and the first name in a list that stands before it too, found without
//! comparing each with each where there are many. Which texts these are, and what is said of a name that repeats, is left to the crates above.
#![tactic(auto)]

mod kept;
mod repeated;

pub use kept::distinct;
pub use repeated::{Named, repeated_name};
