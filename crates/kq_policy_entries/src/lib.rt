//! The entries of an update policy: read from its JSON text, each with its source found among the tables of a catalogue and its query bound; or the
//! first bad entry, and why it is bad. The plan of an entry's query has tables alone as its leaves, the source among them, asks for no moment of a
//! command, and has the columns of the target.
//! And whether rows of a table would come back to it by a catalogue's policies, once it has these. Setting the policy, and what comes of a batch, is
//! left to others.
#![tactic(auto)]

mod body;
mod columns;
mod cycle;
mod entry;
mod fault;
mod json;
mod json_fault;
mod policy;
mod query_fault;
mod read;
mod reading;
mod sources;
mod written;

pub use cycle::closes_cycle;
pub use fault::EntriesFault;
pub use json::read_policy;
pub use json_fault::JsonFault;
pub use policy::bind_policy;
pub use query_fault::PolicyFault;
pub use read::read_entries;
pub use written::Written;
