//! Lists and queues whose copies share what they have in common: the items stand behind shared handles, in trees that
//! nothing ever changes, and a copy takes a few handles however long the list is.
//! What the items are, and who keeps which copy, is left to the crates above.
#![tactic(auto)]

mod list;
mod parts;
mod piece;
mod queue;

pub use list::SharedList;
pub use queue::SharedQueue;

/// Want of memory.
pub type Memory = std::alloc::AllocError;
