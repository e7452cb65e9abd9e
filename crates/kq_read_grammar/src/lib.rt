//! The grammar: the trees of queries, and for each tree the symbols that spell it. Which symbols a text has, and how its tree is found, is left to
//! others.
#![tactic(auto)]

mod build;
mod clause;
mod expression;
mod tabular;

pub use build::{
    between, call, chain, compare, group, index, interval, is_bare, item, link, member, path,
    signed, within,
};
pub use clause::{Aggregate, Argument, Cell, Column, Grouping, Item, JoinKey, Key};
pub use expression::{Expression, Interval, Level, Link, Name, Step};
pub use kq_read_symbols::Symbol;
pub use tabular::{
    Arm, Join, Let, LetRight, Operator, OperatorBody, OperatorKey, Query, Source, SourceBody,
    Tabular, Union,
};
