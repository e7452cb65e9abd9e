//! Links by index: chains of numbered links behind heads.
//! No call walks. But for `Chain::new`, and for the moments in which a vector moves to a larger place, each takes a
//! time that does not grow with the length.
#![tactic(auto)]

mod added;
mod chain;

pub use chain::Chain;

/// Want of memory.
pub type Memory = std::alloc::AllocError;
