// Names and expressions. Each keeps the symbols that tell its places.

use kq_read_symbols::Symbol;

/// A name as it is written.
#[derive(Clone, Copy)]
pub enum Name {
    /// A word that isn't reserved.
    Word(Symbol),
    /// A string in brackets, of which `open` is the first.
    Bracketed { open: Symbol, text: Symbol },
}

/// Operators of one precedence, of which operands stand in a chain.
#[derive(Clone, Copy, PartialEq, Eq)]
pub enum Level {
    /// `or`
    Disjunction,
    /// `and`
    Conjunction,
    /// `+` and `-`
    Sum,
    /// `*`, `/` and `%`
    Product,
}

/// What has a value on a row.
#[cycle(expression)]
#[derive(Drop)]
pub enum Expression {
    Name(Name),
    Literal(Symbol),
    /// In parentheses, of which the symbol is the first.
    Group(Symbol, Box<Expression>),
    /// The called word, and the arguments.
    Call(Symbol, Vec<Expression>),
    /// An operand and one step or more.
    Path(Box<Expression>, Box<Step>, Vec<Step>),
    /// A sign and its operand.
    Signed(Symbol, Box<Expression>),
    /// An operand, and an operator with the other one.
    Compare(Box<Expression>, Box<Link>),
    /// An operand, `in` or one of its kin, and one value or more.
    Within(Box<Expression>, Box<Link>, Vec<Expression>),
    /// An operand, and the interval that it is looked for in.
    Between(Box<Expression>, Box<Interval>),
    /// An operand and one link or more, of one precedence.
    Chain(Level, Box<Expression>, Box<Link>, Vec<Link>),
}

/// An operator and its right operand.
#[cycle(expression)]
#[derive(Drop)]
pub struct Link {
    pub operator: Symbol,
    pub operand: Expression,
}

/// `between` or `!between`, and the ends.
#[cycle(expression)]
#[derive(Drop)]
pub struct Interval {
    pub operator: Symbol,
    pub low: Expression,
    pub high: Expression,
}

/// A step from a dynamic to a part of it.
#[cycle(expression)]
#[derive(Drop)]
pub enum Step {
    /// `.` and the name.
    Member(Symbol, Name),
    /// In brackets, of which the symbol is the first.
    Index(Symbol, Expression),
}
