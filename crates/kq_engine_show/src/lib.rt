//! What the shows tell of a catalogue, as answers: the extents of a table, a view, the failures of ingestions, and the journal. Which command asks
//! for which, and how an answer is printed, is left to others.
#![tactic(auto)]

mod cells;
mod extents;
mod failures;
mod journal;
mod views;

pub use extents::extents_of;
pub use failures::failures_of;
pub use journal::journal_of;
pub use views::view_of;
