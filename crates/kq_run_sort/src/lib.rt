//! Rows in an order: what `sort` and `top` make of rows. Where rows stand, and what a step of a plan gives, is left to the crates of plans.
#![tactic(auto)]

mod columns;
mod first;
mod leaders;
mod parts;
mod placed;
mod radix;
mod sort;

pub use leaders::Leaders;
pub use parts::{Part, sort_parts};
pub use sort::{sort_rows, top_rows};
