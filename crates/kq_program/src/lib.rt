//! A run of the program over any world: it serves a script, beside it each feed and each worker in a thread of its own, and
//! hands back a status, the catalogue and what its sessions did.
//! Everything is left to the crates below it; here the feeds are opened, the catalogue is made, the sessions are served,
//! the workers are started and stopped, and what comes of them is put together.
#![tactic(auto)]

mod ended;
mod feeds;
mod opened;
mod program;
mod together;
mod workers;

pub use ended::{Ended, EndedSession, Run};
pub use program::{MEMORY, NOT_OPENED, WRONG_WORDS, exit_status, run};
