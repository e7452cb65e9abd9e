// The trees of commands.

use kq_read_grammar::{Column, Name, Query, Tabular};
use kq_read_symbols::Symbol;

/// A property: its word, and a string, `true` or `false`.
#[derive(Clone, Copy)]
pub struct Property {
    pub name: Symbol,
    pub value: Symbol,
}

/// One column or more.
#[derive(Drop)]
pub struct ColumnList {
    pub first: Column,
    pub others: Vec<Column>,
}

/// One property or more.
#[derive(Drop)]
pub struct PropertyList {
    pub first: Property,
    pub others: Vec<Property>,
}

/// A query in braces, with its first and its last symbol.
#[derive(Drop)]
pub struct Body {
    pub first: Symbol,
    pub last: Symbol,
    pub query: Box<Tabular>,
}

/// What makes a view.
#[derive(Drop)]
pub struct ViewDefinition {
    /// The word `async`, which changes nothing.
    pub at_leisure: Option<Symbol>,
    /// The word `ifnotexists`.
    pub unless_there: Option<Symbol>,
    pub properties: Option<PropertyList>,
    pub name: Name,
    pub table: Name,
    pub body: Body,
}

/// What makes an export.
#[derive(Drop)]
pub struct ExportDefinition {
    pub table: Name,
    pub body: Body,
}

/// A command that isn't a query.
#[derive(Drop)]
pub enum Control {
    CreateTable(Name, ColumnList),
    /// The table, the properties, and the sign `<|`, behind which the rows stand.
    Ingest(Name, Option<PropertyList>, Symbol),
    /// The string holds the policy.
    SetPolicy(Name, Symbol),
    AlterMerge(Name, ColumnList),
    CreateView(Box<ViewDefinition>),
    ShowView(Name),
    ShowFailures,
    ShowExtents(Name),
    ShowJournal,
    Fold(Name),
    Merge(Name),
    /// The export's word, and what it is to be where that is said.
    Export(Symbol, Option<Box<ExportDefinition>>),
}

/// A command.
#[derive(Drop)]
pub enum Statement {
    Query(Box<Query>),
    Control(Box<Control>),
}
