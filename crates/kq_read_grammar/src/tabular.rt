// Sources, operators, pipes and queries.

use crate::clause::{Aggregate, Cell, Column, Grouping, Item, JoinKey, Key};
use crate::expression::{Expression, Name};
use kq_read_symbols::Symbol;

/// A source and the operators that its rows go through.
#[cycle(tabular)]
#[derive(Drop)]
pub struct Tabular {
    pub source: Box<Source>,
    pub operators: Vec<Operator>,
}

/// Where rows come from.
#[cycle(tabular)]
#[derive(Drop)]
pub enum Source {
    /// A table, a view or a let.
    Table(Name),
    /// In parentheses, of which the symbol is the first.
    Nested(Symbol, Box<Tabular>),
    /// The word that it begins with, and the rest.
    Worded(Symbol, SourceBody),
}

/// A source without its word.
#[cycle(tabular)]
#[derive(Drop)]
pub enum SourceBody {
    /// The string behind `materialized_view`.
    View(Symbol),
    Print(Box<Item>, Vec<Item>),
    Range {
        name: Name,
        from: Box<Expression>,
        to: Box<Expression>,
        step: Box<Expression>,
    },
    Datatable {
        first: Column,
        others: Vec<Column>,
        cells: Vec<Cell>,
    },
    Union(Union),
}

/// Arms that are put together; `inner` or `outer` where it is said.
#[cycle(tabular)]
#[derive(Drop)]
pub struct Union {
    pub kind: Option<Symbol>,
    pub first: Arm,
    pub others: Vec<Arm>,
}

/// An arm of a union.
#[cycle(tabular)]
#[derive(Drop)]
pub enum Arm {
    Named(Name),
    /// In parentheses, of which the symbol is the first.
    Grouped(Symbol, Box<Tabular>),
}

/// What becomes of rows: the word that it begins with, and the rest.
#[cycle(tabular)]
#[derive(Drop)]
pub struct Operator {
    pub word: Symbol,
    pub body: OperatorBody,
}

/// An operator without its word. Parts that hold expressions stand in boxes: Rattle's own compiler refuses a program in which
/// this type's drop takes each of them apart in place.
#[cycle(tabular)]
#[derive(Drop)]
pub enum OperatorBody {
    Where(Box<Expression>),
    Extend(Box<Item>, Vec<Item>),
    Project(Box<Item>, Vec<Item>),
    ProjectAway(Name, Vec<Name>),
    /// New names, each with the old one.
    ProjectRename((Name, Name), Vec<(Name, Name)>),
    Take(Symbol),
    Count,
    Sort(Box<Key>, Vec<Key>),
    Top(Symbol, Box<Key>),
    Distinct(Name, Vec<Name>),
    /// `*`, all columns.
    DistinctAll(Symbol),
    Summarize(Aggregate, Vec<Aggregate>, Option<Box<Grouping>>),
    /// Without aggregates.
    SummarizeBy(Box<Grouping>),
    Join(Join),
    Unite(Union),
    /// The item, and the word of the type where it is said.
    MvExpand(Box<Item>, Option<Symbol>),
}

/// The right side of a join: its kind where it is said, its rows, and what it matches on.
#[cycle(tabular)]
#[derive(Drop)]
pub struct Join {
    pub kind: Option<Name>,
    pub right: Box<Tabular>,
    pub first: JoinKey,
    pub others: Vec<JoinKey>,
}

/// What a let stands for: one reading, or both where the text has both.
#[derive(Drop)]
pub enum LetRight {
    Scalar(Box<Expression>),
    Tabular(Box<Tabular>),
    Either(Box<Expression>, Box<Tabular>),
}

/// A name for what follows.
#[derive(Drop)]
pub struct Let {
    pub name: Name,
    pub right: LetRight,
}

/// Lets and the rows that are asked for.
#[derive(Drop)]
pub struct Query {
    pub lets: Vec<Let>,
    pub tabular: Box<Tabular>,
}

/// Which operator a word begins. Words of one meaning have one key.
#[derive(Clone, Copy, PartialEq, Eq)]
pub enum OperatorKey {
    Where,
    Extend,
    Project,
    ProjectAway,
    ProjectRename,
    Take,
    Count,
    Sort,
    Top,
    Distinct,
    Summarize,
    Join,
    Union,
    MvExpand,
}
