//! Exports into artefacts: what came to a table since the last range goes through the query of an export into one artefact.
//! What an exporter is due to answer is left to `kq_export_interface`, the bytes of an artefact to `kq_export_csv`, and where artefacts go to the
//! outside.
#![tactic(auto)]

mod definition;
mod exporter;
mod range;
mod seen;
mod written;

pub use exporter::ArtefactExporter;
