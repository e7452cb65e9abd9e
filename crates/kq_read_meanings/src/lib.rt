//! What is spelled in a text: the pieces of symbols, what names and strings say, the types of words, and the values of literals, of which a literal
//! that the language has and this engine doesn't take has none. Each call answers for any symbol: one that isn't cut between characters within the
//! text says nothing. Which symbols a text has, and what is made of names and values, is left to others.
#![tactic(auto)]

mod forms;
mod literals;
mod names;
mod pieces;
mod types;

pub use literals::{has_value, literal_value};
pub use names::{name_place, name_text, string_text};
pub use pieces::piece;
pub use types::ty_of;
