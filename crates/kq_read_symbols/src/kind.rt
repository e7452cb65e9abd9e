// Symbols and their kinds.

use crate::word::{JoinKind, Word};
use kq_read_tokens::{DashedWord, Operator, Punctuation, Side, WordOperator};

/// What a symbol is, as far as the grammar asks.
#[derive(Clone, Copy, PartialEq, Eq)]
pub enum Kind {
    Word(Word),
    DashedWord(DashedWord),
    Side(Side),
    WholeNumber,
    Real,
    Timespan,
    TypedLiteral,
    /// A string of any of the three forms.
    String(Quoted),
    WordOperator(WordOperator),
    Punctuation(Punctuation),
    Operator(Operator),
}

/// What the text of a string says: a join's kind may stand in quotes and brackets.
#[derive(Clone, Copy, PartialEq, Eq)]
pub enum Quoted {
    JoinKind(JoinKind),
    Other,
}

/// A token with its kind: `from` is the offset of its first byte, `to` that behind its last.
#[derive(Clone, Copy, PartialEq, Eq)]
pub struct Symbol {
    pub kind: Kind,
    pub from: usize,
    pub to: usize,
}
