//! Syntax: the symbols of a text, which are its tokens with the words of the language told apart; a cursor over them; and what a grammar is made of,
//! with the laws by which a reader of each form takes exactly the texts of the form and stops exactly where none goes on. The grammar itself is left
//! to others.
#![tactic(auto)]

mod class;
mod cursor;
mod kind;
mod part;
mod word;

pub use class::Class;
pub use cursor::{Cursor, Stop};
pub use kind::{Kind, Quoted, Symbol};
pub use part::{Behind, Part, more};
pub use word::{
    ClauseWord, ControlWord, JoinKind, OperatorWord, ReservedWord, SourceWord, WORDS, Word, word_of,
};
