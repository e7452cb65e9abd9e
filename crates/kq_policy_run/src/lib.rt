//! What comes of a batch by the update policies of a snapshot: the plan of an entry is run over the rows of the batch in place of its source's,
//! beside the snapshot's records of every other table, each cut to the columns that it had when the entry was set; and whether it comes of the batch
//! still, after more events. In which order entries run, and what a plan gives, is left to the crates below; committing what came of a batch to those
//! above.
#![tactic(auto)]

mod beside;
mod cut;
mod laying;
mod lookups;
mod policies;
mod quiet;
mod running;

pub use kq_run_plan::Held;
pub use lookups::looked;
pub use policies::derive;
pub use quiet::is_quiet_since;
