//! Tokens: the words, numbers, literals and signs of a text in order, each with its place, or the first place where none starts. What a word means,
//! what a literal's value is and which tokens make a command is left to others.
#![tactic(auto)]

mod bytes;
mod delimited;
mod kind;
mod literals;
mod numbers;
mod read;
mod spelling;
mod strings;
mod token;
mod words;

pub use kind::{DashedWord, LiteralWord, Operator, Punctuation, Side, TokenKind, WordOperator};
pub use kq_value::{Memory, Text};
pub use read::tokens;
pub use strings::{is_long_string, is_string, is_verbatim_string};
pub use token::{LexFault, Token, Tokens};
