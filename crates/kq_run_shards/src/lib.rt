//! Groups in shared shards, by the hashes of their keys: groups that others are folded into share the shards that nothing came to with those before.
//! What the rows are, and when they are folded in, is left to the crates above.
#![tactic(auto)]

mod parted;
mod shards;

pub use parted::Parted;
