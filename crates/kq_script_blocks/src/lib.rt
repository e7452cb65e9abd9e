//! Scripts: the commands of a script's bytes, read piece by piece.
//! It leaves to others what a command says and what is answered.
#![tactic(auto)]

mod block;
mod item;
mod line;
mod reader;

pub use item::{Item, ScriptFault};
pub use reader::ScriptReader;
