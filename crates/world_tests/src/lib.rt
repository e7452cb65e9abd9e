//! Tests of the outside, of scripts, replies and the lock, of the words that the program is started with, of how hashes spread and how large a value
//! is, and of calls of the crate of values that the program does not make. Scripts show the others.
#![tactic(auto)]

#[cfg(test)]
mod tests;
