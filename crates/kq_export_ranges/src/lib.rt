//! Ranges of cursors, and one artefact put for each: the ranges of an export follow on each other, a put that fails leaves all as it was, and what
//! was put for a range is the export's query over its records. It stays so as the history grows, and with an export or a range more; each record is
//! in one range.
//! Who defines an export, and who runs it, is left to the crates above.
#![tactic(auto)]

mod cursor_laws;
mod laws;
mod ledger;
mod range;

pub use cursor_laws::each_cursor_is_in_one_range;
pub use laws::{artefact_names_differ, each_artefact_is_put_once, each_record_is_in_one_range};
pub use ledger::Ledger;
pub use range::ExportRange;
