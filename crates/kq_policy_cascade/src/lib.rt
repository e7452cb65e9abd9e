//! The cascade of update policies: what comes of a batch by the entries that are in force, and the run of their queries one after another. What the
//! tables and
//! their policies are, how a batch is laid out for its queries, and what these give, is left to whoever offers them (`Tables`); reading policies and
//! committing what
//! came of a batch to the crates above.
#![tactic(auto)]

mod batch;
mod progress;
mod query;
mod running;
mod stack;
mod tables;

pub use batch::{BatchRows, Given};
pub use running::{CascadeFault, Derived, cascade};
pub use tables::{QueryFault, Tables};
