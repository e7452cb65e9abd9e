//! Commands as they are written: the trees of control commands and of queries with their places, and the reader that takes exactly the texts of
//! commands and names the symbol at which a text stops to begin one. What a command asks for is left to others.
#![tactic(auto)]

mod controls;
mod parts;
mod statement;
mod symbols;
mod tree;
mod views;

pub use statement::parse_statement;
pub use tree::{
    Body, ColumnList, Control, ExportDefinition, Property, PropertyList, Statement, ViewDefinition,
};
