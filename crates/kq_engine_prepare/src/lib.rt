//! What a snapshot tells of a command: its reply, or what is to be put in for it, and where this takes memory. It reads rows, runs policies,
//! picks extents and folds, and changes nothing. What the catalogue makes of it, and when it is asked, are left to the engine.
#![tactic(auto)]

mod changes;
mod first;
mod folds;
mod found;
mod ingestions;
mod merges;
mod new_views;
mod offers;
mod on_snapshot;
mod policies;
mod query;
mod shows;
mod tags;

pub use changes::has_room;
pub use first::{Looked, first_look};
pub use folds::folding_at;
pub use found::{Barring, Folding, Found, Offer};
pub use kq_engine_query::{Alone, Gatherer};
pub use merges::{may_merge, merging_at};
pub use offers::is_as_read;
pub use on_snapshot::{find, look};
pub use tags::barring_cursor;
