//! A lock that remembers: what is taken begins with all that a pass has seen. What the value behind
//! it is, and how threads come by their passes, is left to others.
#![tactic(auto)]

mod grows;
mod pass;
mod plays;
mod rule;
mod steps;
mod turn;
mod view;

pub use grows::Grows;
pub use pass::Pass;
pub use turn::{Memory, Turn};
