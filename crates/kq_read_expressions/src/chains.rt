// Chains of operands of one precedence.
ghost use Rattle.std.specs.Prelude.{◌≡◌, List, Result, map};
ghost use Rattle.kq_read_expressions.specs.Reading as spec;
ghost use Rattle.kq_read_grammar.specs.Trees.{Tree};
ghost use Rattle.kq_read_grammar.specs.Views.{tree_of, link_of, precedence_of};
ghost use Rattle.kq_read_symbols.specs.declared.kind.Symbol.{Symbol as Shown};
ghost use Rattle.kq_read_symbols.specs.Classes.{class_of, of};
ghost use Rattle.kq_read_symbols.specs.Forms.{both, expect, many, with_front};
ghost use Rattle.kq_read_symbols.specs.Outcomes.{IsOutcome};

use kq_read_grammar::{Expression, Level, Link, chain, link};
use kq_read_symbols::{Class, Cursor, Part, Stop, more};
use std::alloc::Global;

// What stands between the operators of a level.
pub(crate) trait Operand {
    ghost tree: { Self → List Shown → Result (Tree × List Shown) (List Shown) };

    ghost callable: { Self → Type 0 };

    fn read(&self, cursor: &mut Cursor<'_>) -> Result<Expression, Stop>
        requires { callable self.now }
        ensures { IsOutcome tree_of (tree self.now cursor.old) result cursor.new };
}

// An operator and its right operand.
#[derive(Drop)]
struct NextLink<'a, O> {
    class: Class,
    operand: &'a O,
}

impl<'a, O: Operand> Part for NextLink<'a, O> {
    type Value = Link;

    ghost Shape = { Shown × Tree };

    ghost view = { link_of };

    ghost reader = { λ n. both (expect (of (class_of n.class))) (O.tree n.operand.now) };

    ghost callable = { λ n. O.callable n.operand.now };

    fn read(&self, cursor: &mut Cursor<'_>) -> Result<Link, Stop> {
        let operator = cursor.expect(self.class)?;
        let operand = self.operand.read(cursor)?;
        Ok(link(operator, operand))
    }
}

// Operands with the operators of the level, which are of the class, between them. They are an operand of the level above.
#[derive(Drop)]
pub(crate) struct Chained<O> {
    pub(crate) alloc: Global,
    // No chain has more links than this.
    pub(crate) turns: usize,
    pub(crate) class: Class,
    pub(crate) level: Level,
    pub(crate) operand: O,
}

impl<O: Operand> Operand for Chained<O> {
    ghost tree = { λ c. spec.chained (class_of c.class) (precedence_of c.level) (O.tree c.operand) c.turns };

    ghost callable = { λ c. O.callable c.operand };

    fn read(&self, cursor: &mut Cursor<'_>) -> Result<Expression, Stop> {
        let first = self.operand.read(cursor)?;
        let next = NextLink {
            class: self.class,
            operand: &self.operand,
        };
        let links = more(self.turns, self.class, &next, cursor, Vec::new(self.alloc))?;
        Ok(chain(self.alloc, self.level, first, links)?)
    }
}
