//! Ingestion: the rows of a body of CSV, by the columns of a table, and the tags that a text gives. Which body is ingested, under which properties,
//! and what becomes of the rows is left to others.
#![tactic(auto)]

mod cell;
mod dynamic;
mod fault;
mod rows;
mod shared;
mod tags;

pub use fault::IngestFault;
pub use rows::read_rows;
pub use tags::read_tags;
