// Expressions, whole: operands, and the chains of chains that they stand in.
ghost use Rattle.std.specs.Prelude.{◌≡◌};
ghost use Rattle.kq_read_expressions.specs.Nests.{Nests};
ghost use Rattle.kq_read_expressions.specs.Reading as spec;
ghost use Rattle.kq_read_grammar.specs.Views.{tree_of};
ghost use Rattle.kq_read_symbols.specs.Outcomes.{IsOutcome};

use crate::chains::{Chained, Operand};
use crate::nesting::Reader;
use kq_read_grammar::{Expression, Level};
use kq_read_symbols::{Class, Cursor, Part, ReservedWord, Stop};
use std::alloc::Global;

// What products have between their operators.
#[derive(Drop)]
struct Signed<'a, F>(&'a Reader<F>);

impl<'a, F: Fn(Global, &mut Cursor<'_>, usize) -> Result<Expression, Stop>> Operand
    for Signed<'a, F> {
    ghost tree = { λ n. spec.signed (spec.expression n.0.now.budget) n.0.now.turns };

    ghost callable = { λ n. Nests n.0.now.budget (F.pre n.0.now.expression) (F.post n.0.now.expression) };

    fn read(&self, cursor: &mut Cursor<'_>) -> Result<Expression, Stop> {
        self.0.signed(cursor)
    }
}

// What conjunctions have between their operators.
#[derive(Drop)]
struct Comparison<'a, F>(&'a Reader<F>);

impl<'a, F: Fn(Global, &mut Cursor<'_>, usize) -> Result<Expression, Stop>> Operand
    for Comparison<'a, F> {
    ghost tree = { λ n. spec.comparison (spec.expression n.0.now.budget) n.0.now.turns };

    ghost callable = { λ n. Nests n.0.now.budget (F.pre n.0.now.expression) (F.post n.0.now.expression) };

    fn read(&self, cursor: &mut Cursor<'_>) -> Result<Expression, Stop> {
        self.0.comparison(cursor)
    }
}

impl<F: Fn(Global, &mut Cursor<'_>, usize) -> Result<Expression, Stop>> Reader<F> {
    #[tactic(auto, unfolding(crate::specs::Reading::sum, crate::specs::Reading::product))]
    pub(crate) fn sum(&self, cursor: &mut Cursor<'_>) -> Result<Expression, Stop>
        requires { Nests self.now.budget (F.pre self.now.expression) (F.post self.now.expression) }
        ensures { IsOutcome tree_of (spec.sum (spec.expression self.now.budget) self.now.turns cursor.old) result cursor.new }
    {
        let product = Chained {
            alloc: self.alloc,
            turns: self.turns,
            class: Class::Multiplicative,
            level: Level::Product,
            operand: Signed(self),
        };
        Chained {
            alloc: self.alloc,
            turns: self.turns,
            class: Class::Additive,
            level: Level::Sum,
            operand: product,
        }
        .read(cursor)
    }

    #[tactic(auto, unfolding(crate::specs::Reading::disjunction, crate::specs::Reading::conjunction))]
    fn disjunction(&self, cursor: &mut Cursor<'_>) -> Result<Expression, Stop>
        requires { Nests self.now.budget (F.pre self.now.expression) (F.post self.now.expression) }
        ensures { IsOutcome tree_of (spec.disjunction (spec.expression self.now.budget) self.now.turns cursor.old) result cursor.new }
    {
        let conjunction = Chained {
            alloc: self.alloc,
            turns: self.turns,
            class: Class::Reserved(ReservedWord::And),
            level: Level::Conjunction,
            operand: Comparison(self),
        };
        Chained {
            alloc: self.alloc,
            turns: self.turns,
            class: Class::Reserved(ReservedWord::Or),
            level: Level::Disjunction,
            operand: conjunction,
        }
        .read(cursor)
    }
}

/// The expression that comes next. The budget is at least the number of symbols that are left.
pub fn read_expression(
    alloc: Global,
    cursor: &mut Cursor<'_>,
    budget: usize,
) -> Result<Expression, Stop>
    ensures { IsOutcome tree_of (spec.expression budget cursor.old) result cursor.new }
{
    if budget == 0 {
        return Err(Stop::Syntax);
    }
    Reader {
        alloc,
        turns: budget,
        budget: budget - 1,
        expression: read_expression,
    }
    .disjunction(cursor)
}

/// One expression.
#[derive(Clone, Copy)]
pub struct AnExpression {
    pub alloc: Global,
    /// At least the number of symbols that are left.
    pub budget: usize,
}

impl Part for AnExpression {
    type Value = Expression;

    ghost use Rattle.kq_read_grammar.specs.Trees.{Tree};

    ghost Shape = { Tree };

    ghost view = { tree_of };

    ghost reader = { λ p. spec.expression p.budget };

    ghost callable = { λ _. Unit {0} };

    fn read(&self, cursor: &mut Cursor<'_>) -> Result<Expression, Stop> {
        read_expression(self.alloc, cursor, self.budget)
    }
}
