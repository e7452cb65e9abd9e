//! The words of the program's command line: their form, and what they ask for. What is done about it is left to the
//! program.
#![tactic(auto)]

mod options;

pub use options::{Options, OptionsError};
