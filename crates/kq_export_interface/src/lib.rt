//! What an exporter is, and what it is due to answer: to a definition, and to a run over what came since the last range.
//! What its artefacts hold stands in a crate below; how an exporter comes to its answers, and when it is asked, is left
//! to the crates above.
#![tactic(auto)]

mod exporter;
mod none;

pub use exporter::{Exporter, answered};
pub use none::{NoExporter, unsupported};
