//! Commands: what a block of text asks for, and the reader that tells it. The reader knows the text alone. What a query means, and whether a command
//! can be done, is left to the engine.
#![tactic(auto)]

mod columns;
mod command;
mod definition;
mod ingestion;
mod meanings;
mod memory;
mod properties;
mod read;
mod rows;
mod unsupported;
mod views;
mod widening;

pub use columns::{Column, Columns, Identifier};
pub use command::{Asked, Change, Command, CommandFault, Export, Query, Show};
pub use definition::{NewExport, NewView};
pub use ingestion::{Ingestion, Properties, Quoted};
pub use read::read_command;
