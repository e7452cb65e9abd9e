//! The printed form of a reply, as it is written to a sink. The lines of an answer stand in the reply already.
//! Which reply a command gets is left to the engine.
#![tactic(auto)]

mod short;
mod write;

pub use write::write_reply;
