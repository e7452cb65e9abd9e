//! What a plan gives over a world: its steps run one after another, and rows that only the next step takes flow into it by pieces. Who gathers the
//! groups of a summarize, different rows, a count or rows that are kept, and who finds the partners of a join's rows, is handed to it. How a query
//! becomes a plan is left to the crates beside it, and where the rows of a name come from to those above.
#![tactic(auto)]

mod asking;
mod distinct;
mod joined;
mod leaves;
mod outcome;
mod partners;
mod reshaped;
mod run;
mod shared;
mod single;
mod sinks;
mod sorted;
mod step;
mod stretch;
mod terms;
mod top;

pub use kq_run_gather::{Alone, Gatherer};
pub use kq_run_scan::{Held, RecordedRows, records_later};
pub use leaves::Leaves;
pub use outcome::Outcome;
pub use run::{run_plan, run_plan_by};
