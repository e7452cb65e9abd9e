//! The bytes of an artefact: rows under columns, as records of CSV. Which rows these are, and where the bytes go, is left to
//! the crates above.
#![tactic(auto)]

mod fields;
mod recorder;
mod rows;

pub use rows::artefact_of;
