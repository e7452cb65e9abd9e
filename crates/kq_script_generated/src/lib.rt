//! The generated script: a table of so many rows that come in batches, a view over it that is folded on the way, and two queries.
//! It can be read as a source. What becomes of it is left to whoever runs it.
#![tactic(auto)]

mod script;
mod source;

pub use script::script_of;
pub use source::ScriptSource;
