//! The words that the engine speaks: commits, events, tables and limits, with the definitions of what a history
//! of events says. It holds no algorithm: storing a history is left to the catalogue, answering commands to the engine.
#![tactic(auto)]

mod batch;
mod event;
mod ids;
mod limits;
mod policy;
mod table;
mod view;

pub use batch::{Batch, Batches, Failure, Failures, Noted};
pub use event::{By, Commit, Event, Operation};
pub use ids::Ids;
pub use limits::Limits;
pub use policy::{Due, Entries, Entry};
pub use table::Table;
pub use view::{SharedView, View};
