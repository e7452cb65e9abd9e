//! Workers: beside the sessions they bring views forward and merge small extents, in rounds, until they are told to stop.
//! What there is to do, and how it is done, is the engine's; starting workers and stopping them is the program's.
#![tactic(auto)]

mod rest;
mod round;
mod worker;
mod working;

pub use kq_engine::{Catalog, Pass, Shared};
pub use working::{Worked, work};
