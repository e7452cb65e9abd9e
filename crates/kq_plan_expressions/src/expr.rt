// Expressions.
use crate::operation::Operation;
use kq_plan_functions::{Function, Ty, Value};

/// An expression over the columns of a row and the cells of scalar lets, both by number from 0. Each int among the arguments of a
/// call that takes none is made a long by a call of its own.
#[derive(Drop)]
pub enum Expr {
    Literal(Value),
    Column(usize),
    /// The cell of a scalar let.
    Cell(usize),
    Call(Function, Vec<Expr>),
    /// The calls that its links are, from the left, each at what stands so far. A chain nests no deeper than its parts, however many links it has.
    Chain(Box<Expr>, Vec<Link<Expr>>),
}

/// A call at what stands so far.
#[derive(Drop)]
pub enum Link<E> {
    /// An int is made a long.
    ToLong,
    /// An operation at it and an operand.
    With(Operation, E),
}

/// An expression and the type of what it gives.
#[derive(Drop)]
pub struct Typed {
    pub expr: Expr,
    pub ty: Ty,
}
