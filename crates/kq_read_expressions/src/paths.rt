// Paths into dynamics, and signs before them.
ghost use Rattle.std.specs.Prelude.{◌≡◌};
ghost use Rattle.kq_read_expressions.specs.BehindOperands.{GivesSteps};
ghost use Rattle.kq_read_expressions.specs.Nests.{Nests};
ghost use Rattle.kq_read_expressions.specs.Reading as spec;
ghost use Rattle.kq_read_grammar.specs.Precedences.{step_sign};
ghost use Rattle.kq_read_grammar.specs.Views.{tree_of, step_of};
ghost use Rattle.kq_read_symbols.specs.Classes.{of};
ghost use Rattle.kq_read_symbols.specs.Forms.{starts};
ghost use Rattle.kq_read_symbols.specs.Outcomes.{IsOutcome};

use crate::names::read_name;
use crate::nesting::{Nested, Reader};
use kq_read_grammar::{Expression, Step, index, member, path, signed};
use kq_read_symbols::{Class, Cursor, Part, Stop};
use kq_read_tokens::Punctuation;
use std::alloc::Global;

// Whether a step comes next.
fn sees_step(cursor: &Cursor<'_>) -> bool
    ensures { result ≡ starts (of step_sign) cursor.now }
{
    cursor.sees(Class::Sign(Punctuation::Dot)) || cursor.sees(Class::Sign(Punctuation::OpenBracket))
}

impl<F: Fn(Global, &mut Cursor<'_>, usize) -> Result<Expression, Stop>> Reader<F> {
    #[tactic(auto, unfolding(crate::specs::Reading::step))]
    fn step(&self, cursor: &mut Cursor<'_>) -> Result<Step, Stop>
        requires { Nests self.now.budget (F.pre self.now.expression) (F.post self.now.expression) }
        ensures { IsOutcome step_of (spec.step (spec.expression self.now.budget) self.now.turns cursor.old) result cursor.new }
    {
        if cursor.sees(Class::Sign(Punctuation::Dot)) {
            let dot = cursor.expect(Class::Sign(Punctuation::Dot))?;
            return Ok(member(dot, read_name(cursor)?));
        }
        let bracket = cursor.expect(Class::Sign(Punctuation::OpenBracket))?;
        let inner = Nested(self).read(cursor)?;
        cursor.expect(Class::Sign(Punctuation::CloseBracket))?;
        Ok(index(bracket, inner))
    }

    // The steps that follow, behind those that were found before.
    fn steps(&self, cursor: &mut Cursor<'_>, mut found: Vec<Step>) -> Result<Vec<Step>, Stop>
        requires { Nests self.now.budget (F.pre self.now.expression) (F.post self.now.expression) }
        ensures { GivesSteps (spec.step (spec.expression self.now.budget) self.now.turns) self.now.turns found.items cursor.old result cursor.new }
    {
        for _turn in 0..self.turns {
            if !sees_step(cursor) {
                return Ok(found);
            }
            found.push(self.step(cursor)?)?;
        }
        Ok(found)
    }

    #[tactic(auto, unfolding(crate::specs::Reading::postfix))]
    fn postfix(&self, cursor: &mut Cursor<'_>) -> Result<Expression, Stop>
        requires { Nests self.now.budget (F.pre self.now.expression) (F.post self.now.expression) }
        ensures { IsOutcome tree_of (spec.postfix (spec.expression self.now.budget) self.now.turns cursor.old) result cursor.new }
    {
        let first = self.primary(cursor)?;
        let steps = self.steps(cursor, Vec::new(self.alloc))?;
        Ok(path(self.alloc, first, steps)?)
    }

    #[tactic(auto, unfolding(crate::specs::Reading::signed))]
    pub(crate) fn signed(&self, cursor: &mut Cursor<'_>) -> Result<Expression, Stop>
        requires { Nests self.now.budget (F.pre self.now.expression) (F.post self.now.expression) }
        ensures { IsOutcome tree_of (spec.signed (spec.expression self.now.budget) self.now.turns cursor.old) result cursor.new }
    {
        if !cursor.sees(Class::Additive) {
            return self.postfix(cursor);
        }
        let sign = cursor.expect(Class::Additive)?;
        let operand = self.postfix(cursor)?;
        Ok(signed(self.alloc, sign, operand)?)
    }
}
