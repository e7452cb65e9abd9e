//! Every interleaving: what any list of steps comes to, each of which begins a command or finishes it, with no lock. `begin` is `look` for a
//! command that it owns, `finish` is `conclude` for what `begin` gave. What these do is left to the crates below, and when, to those above.
#![tactic(auto)]

mod prepared;
mod run;

pub use kq_engine::{Outcome, Work};
pub use kq_engine_prepare::Found;
pub use prepared::{Prepared, begin, finish};
pub use run::{Step, Told, Trace, run_steps};
