//! The catalogue: the one mutable state, whose type keeps that its journal is lawful, and that of each table and each view, of the
//! update policies and of the failures of ingestions it holds what the journal says of it.
//! What stands is one state that nothing changes, and a snapshot is a handle of it. A commit is staged: the next state is
//! made beside the one that stands, edit by edit. Then it is put in its place, which can't fail. Which commit a command is
//! due is left to the engine.
#![tactic(auto)]

mod catalog;
mod edit;
mod edits;
mod enabled;
mod folding;
mod grows;
mod held;
mod held_view;
mod intent;
mod merging;
mod noting;
mod ordinals;
mod policies;
mod rest;
mod snapshot;
mod state;
mod tables;
mod tagging;
mod views;

pub use catalog::{Catalog, Staged};
pub use folding::FoldFault;
pub use intent::{Intent, Part};
pub use kq_run_shards::Parted;
pub use merging::{MergeFault, Merging};
pub use snapshot::Snapshot;
