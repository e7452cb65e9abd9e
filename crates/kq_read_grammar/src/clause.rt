// What operators and sources are made of.

use crate::expression::{Expression, Name};
use kq_read_symbols::Symbol;

/// A column and its type's word.
#[derive(Clone, Copy)]
pub struct Column {
    pub name: Name,
    pub ty: Symbol,
}

/// A cell of `datatable`: a literal, which may have a minus before it.
#[derive(Clone, Copy)]
pub struct Cell {
    pub minus: Option<Symbol>,
    pub literal: Symbol,
}

/// What a join matches: a column of both sides, or one of each in the order of the text, with the symbol of `==`.
#[derive(Clone, Copy)]
pub enum JoinKey {
    Both(Name),
    LeftRight(Name, Symbol, Name),
    RightLeft(Name, Symbol, Name),
}

/// An expression, which may be given a name.
#[derive(Drop)]
pub enum Item {
    Plain(Expression),
    Named(Name, Expression),
}

/// What rows are sorted by: `asc` or `desc` where it is said, and `first` or `last` behind `nulls`.
#[derive(Drop)]
pub struct Key {
    pub value: Expression,
    pub direction: Option<Symbol>,
    pub nulls: Option<Symbol>,
}

/// An argument of an aggregate.
#[derive(Drop)]
pub enum Argument {
    Value(Expression),
    /// `*`
    Star(Symbol),
}

/// An aggregate, which may be given a name.
#[derive(Drop)]
pub struct Aggregate {
    pub given: Option<Name>,
    pub function: Symbol,
    pub arguments: Vec<Argument>,
}

/// What rows are grouped by: one item or more.
#[derive(Drop)]
pub struct Grouping {
    pub first: Item,
    pub others: Vec<Item>,
}
