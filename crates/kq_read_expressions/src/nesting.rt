// What the readers of expressions share. They take that of nested expressions as a value, so that each is proved by itself.
ghost use Rattle.std.specs.Prelude.{◌≡◌};
ghost use Rattle.kq_read_expressions.specs.Nests.{Nests};
ghost use Rattle.kq_read_expressions.specs.Reading as spec;
ghost use Rattle.kq_read_grammar.specs.Trees.{Tree};
ghost use Rattle.kq_read_grammar.specs.Views.{tree_of};
ghost use Rattle.kq_read_symbols.specs.Outcomes.{IsOutcome};

use kq_read_grammar::Expression;
use kq_read_symbols::{Cursor, Part, Stop};
use std::alloc::Global;

#[derive(Clone, Copy)]
pub(crate) struct Reader<F> {
    pub(crate) alloc: Global,
    // No list has more parts than this.
    pub(crate) turns: usize,
    // What the reader of nested expressions is given.
    pub(crate) budget: usize,
    pub(crate) expression: F,
}

// An expression within another.
#[derive(Drop)]
pub(crate) struct Nested<'a, F>(pub(crate) &'a Reader<F>);

impl<'a, F: Fn(Global, &mut Cursor<'_>, usize) -> Result<Expression, Stop>> Part for Nested<'a, F> {
    type Value = Expression;

    ghost Shape = { Tree };

    ghost view = { tree_of };

    ghost reader = { λ n. spec.expression n.0.now.budget };

    ghost callable = { λ n. Nests n.0.now.budget (F.pre n.0.now.expression) (F.post n.0.now.expression) };

    fn read(&self, cursor: &mut Cursor<'_>) -> Result<Expression, Stop> {
        (self.0.expression)(self.0.alloc, cursor, self.0.budget)
    }
}
