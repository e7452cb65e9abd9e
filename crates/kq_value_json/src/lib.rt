//! Dynamics as JSON text: reading and printing them over `serde_json`, and looking into them. What a dynamic is, which text is which dynamic, and
//! what stands at a key or an index, are definitions of `kq_value_formats`.
#![tactic(auto)]

mod members;
mod read;
mod write;

pub use members::{at_index, at_key};
pub use read::read_dyn;
pub use write::{dyn_text, put_dyn};
