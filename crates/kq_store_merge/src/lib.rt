//! Merging the small extents of a table: which of them are merged, and the one extent that they become. When that is
//! done, and what it leaves of the table, is left to the crates above.
#![tactic(auto)]

mod merging;
mod picked;
mod tags;

pub use merging::merged;
pub use picked::{Picked, pick};
