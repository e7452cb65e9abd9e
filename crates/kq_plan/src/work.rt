// What a step does. Columns are named by their numbers, from 0.

use kq_plan_expressions::{Expr, Text, Ty, Value};

/// Which rows a leaf gives.
#[derive(Clone, Copy, PartialEq, Eq)]
pub enum LeafKind {
    /// The records of a table.
    Table,
    /// The rows of a view over all its records.
    View,
    /// The rows of a view over the records that are materialized.
    Part,
}

/// Which rows a join gives.
#[derive(Clone, Copy, PartialEq, Eq)]
pub enum JoinKind {
    InnerUnique,
    Inner,
    LeftOuter,
    RightOuter,
    FullOuter,
    LeftSemi,
    RightSemi,
    LeftAnti,
    RightAnti,
}

/// What rows are sorted by.
#[derive(Drop)]
pub struct SortKey {
    pub value: Expr,
    pub descending: bool,
    pub nulls_first: bool,
}

/// What `summarize` makes of a group. The numbers are those of the input's columns.
#[derive(Drop)]
pub enum Aggregate {
    Count,
    Sum(Expr),
    Min(Expr),
    Max(Expr),
    /// The greatest value, and these columns of its row.
    ArgMax(Expr, Vec<usize>),
    ArgMin(Expr, Vec<usize>),
    TakeAny(Vec<usize>),
    /// The different values, as many as this at most.
    MakeSet(Expr, u64),
}

/// An arm of a union: the step of its rows, and for each column of the union the arm's column that fills it. A cell that none fills
/// is null, or empty for a string.
#[derive(Drop)]
pub struct Arm {
    pub input: usize,
    pub cells: Vec<Option<usize>>,
}

/// What a step does. Where it takes the rows of an earlier step, its number comes first.
#[derive(Drop)]
pub enum Work {
    /// The rows of a name of the catalogue.
    Leaf(LeafKind, Text),
    /// `print`: one row of these cells.
    Row(Vec<Expr>),
    /// `range`: one column of the values from the first to the second, by steps of the third.
    Range(Expr, Expr, Expr),
    /// `datatable`: these rows.
    Table(Vec<Vec<Value>>),
    /// The cell of a scalar let. They are numbered from 0 in the order of their steps.
    Scalar(Expr),
    /// The rows for which the condition is true.
    Where(usize, Expr),
    /// Rows of these cells: `extend`, `project` and its kin.
    Project(usize, Vec<Expr>),
    Take(usize, u64),
    Count(usize),
    Sort(usize, Vec<SortKey>),
    /// The first of the rows as they are sorted by the key.
    Top(usize, u64, SortKey),
    /// The different rows of these columns.
    Distinct(usize, Vec<usize>),
    /// A row for each group, of the keys and then of the aggregates.
    Summarize(usize, Vec<Expr>, Vec<Aggregate>),
    /// The left rows and the right ones, and the columns of either that match in pairs.
    Join(JoinKind, usize, usize, Vec<(usize, usize)>),
    Union(Vec<Arm>),
    /// `mv-expand`: a row for each part of a dynamic, which stands in the column of this number, in place of one of the input's or behind
    /// them. Each part is converted where a type is said.
    MvExpand(usize, Expr, usize, Option<Ty>),
}
