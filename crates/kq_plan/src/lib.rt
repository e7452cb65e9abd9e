//! Plans as data: what a query does, as a flat list of steps in the order of their evaluation, and the names of a catalogue that it is bound over.
//! How a query becomes a plan, and what a plan gives, is left to the crates above.
#![tactic(auto)]

mod names;
mod plan;
mod work;

pub use names::{NameKind, Names};
pub use plan::{Plan, Step};
pub use work::{Aggregate, Arm, JoinKind, LeafKind, SortKey, Work};
