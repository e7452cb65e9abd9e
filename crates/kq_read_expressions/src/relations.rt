// Comparisons, `in` and `between`, of which one may stand behind a sum.
ghost use Rattle.std.specs.Prelude.{◌≡◌};
ghost use Rattle.kq_read_expressions.specs.Nests.{Nests};
ghost use Rattle.kq_read_expressions.specs.Reading as spec;
ghost use Rattle.kq_read_expressions.specs.BehindOperands.{compared_of, listed_of, ranged_of, related};
ghost use Rattle.kq_read_grammar.specs.Precedences.{relation};
ghost use Rattle.kq_read_grammar.specs.Views.{tree_of};
ghost use Rattle.kq_read_symbols.specs.Classes.{of};
ghost use Rattle.kq_read_symbols.specs.Forms.{starts};
ghost use Rattle.kq_read_symbols.specs.Outcomes.{IsOutcome};

use crate::lists::listed;
use crate::nesting::{Nested, Reader};
use kq_read_grammar::{Expression, Interval, Link, between, compare, interval, link, within};
use kq_read_symbols::{Class, Cursor, Stop};
use kq_read_tokens::Punctuation;
use std::alloc::Global;

// Whether an operator comes next that relates two sums.
fn sees_relation(cursor: &Cursor<'_>) -> bool
    ensures { result ≡ starts (of relation) cursor.now }
{
    cursor.sees(Class::Comparison) || cursor.sees(Class::Membership) || cursor.sees(Class::Interval)
}

impl<F: Fn(Global, &mut Cursor<'_>, usize) -> Result<Expression, Stop>> Reader<F> {
    // An operator of comparison and what stands behind it.
    #[tactic(auto, unfolding(crate::specs::Reading::comparing))]
    fn compared(&self, cursor: &mut Cursor<'_>) -> Result<Link, Stop>
        requires { Nests self.now.budget (F.pre self.now.expression) (F.post self.now.expression) }
        ensures { IsOutcome compared_of (spec.comparing (spec.expression self.now.budget) self.now.turns cursor.old) result cursor.new }
    {
        let operator = cursor.expect(Class::Comparison)?;
        let right = self.sum(cursor)?;
        Ok(link(operator, right))
    }

    fn comparing(&self, left: Expression, cursor: &mut Cursor<'_>) -> Result<Expression, Stop>
        requires { Nests self.now.budget (F.pre self.now.expression) (F.post self.now.expression) }
        ensures { IsOutcome tree_of (related (tree_of left) (spec.comparing (spec.expression self.now.budget) self.now.turns) cursor.old) result cursor.new }
    {
        let right = self.compared(cursor)?;
        Ok(compare(self.alloc, left, right)?)
    }

    // `in` or one of its kin with the first value, and the others.
    #[tactic(auto, unfolding(crate::specs::Reading::listing))]
    fn listed(&self, cursor: &mut Cursor<'_>) -> Result<(Link, Vec<Expression>), Stop>
        requires { Nests self.now.budget (F.pre self.now.expression) (F.post self.now.expression) }
        ensures { IsOutcome listed_of (spec.listing (spec.expression self.now.budget) self.now.turns cursor.old) result cursor.new }
    {
        let operator = cursor.expect(Class::Membership)?;
        cursor.expect(Class::Sign(Punctuation::OpenParenthesis))?;
        let (first, others) = listed(self.alloc, cursor, self.turns, &Nested(self))?;
        cursor.expect(Class::Sign(Punctuation::CloseParenthesis))?;
        Ok((link(operator, first), others))
    }

    fn listing(&self, left: Expression, cursor: &mut Cursor<'_>) -> Result<Expression, Stop>
        requires { Nests self.now.budget (F.pre self.now.expression) (F.post self.now.expression) }
        ensures { IsOutcome tree_of (related (tree_of left) (spec.listing (spec.expression self.now.budget) self.now.turns) cursor.old) result cursor.new }
    {
        let (first, others) = self.listed(cursor)?;
        Ok(within(self.alloc, left, first, others)?)
    }

    // Two sums with `..` between them.
    fn bounds(&self, cursor: &mut Cursor<'_>) -> Result<(Expression, Expression), Stop>
        requires { Nests self.now.budget (F.pre self.now.expression) (F.post self.now.expression) }
        ensures { IsOutcome (λ p. (tree_of p.0, tree_of p.1)) (spec.bounds (spec.expression self.now.budget) self.now.turns cursor.old) result cursor.new }
    {
        let low = self.sum(cursor)?;
        cursor.expect(Class::Sign(Punctuation::DotDot))?;
        let high = self.sum(cursor)?;
        Ok((low, high))
    }

    // `between` or `!between` and the ends in parentheses.
    #[tactic(auto, unfolding(crate::specs::Reading::ranging))]
    fn ends(&self, cursor: &mut Cursor<'_>) -> Result<Interval, Stop>
        requires { Nests self.now.budget (F.pre self.now.expression) (F.post self.now.expression) }
        ensures { IsOutcome ranged_of (spec.ranging (spec.expression self.now.budget) self.now.turns cursor.old) result cursor.new }
    {
        let operator = cursor.expect(Class::Interval)?;
        cursor.expect(Class::Sign(Punctuation::OpenParenthesis))?;
        let (low, high) = self.bounds(cursor)?;
        cursor.expect(Class::Sign(Punctuation::CloseParenthesis))?;
        Ok(interval(operator, low, high))
    }

    fn ranging(&self, left: Expression, cursor: &mut Cursor<'_>) -> Result<Expression, Stop>
        requires { Nests self.now.budget (F.pre self.now.expression) (F.post self.now.expression) }
        ensures { IsOutcome tree_of (related (tree_of left) (spec.ranging (spec.expression self.now.budget) self.now.turns) cursor.old) result cursor.new }
    {
        let ends = self.ends(cursor)?;
        Ok(between(self.alloc, left, ends)?)
    }

    #[tactic(auto, unfolding(crate::specs::Reading::relating))]
    fn relating(&self, left: Expression, cursor: &mut Cursor<'_>) -> Result<Expression, Stop>
        requires { Nests self.now.budget (F.pre self.now.expression) (F.post self.now.expression) }
        ensures { IsOutcome tree_of (related (tree_of left) (spec.relating (spec.expression self.now.budget) self.now.turns) cursor.old) result cursor.new }
    {
        if cursor.sees(Class::Comparison) {
            return self.comparing(left, cursor);
        }
        if cursor.sees(Class::Membership) {
            return self.listing(left, cursor);
        }
        self.ranging(left, cursor)
    }

    #[tactic(auto, unfolding(crate::specs::Reading::comparison))]
    pub(crate) fn comparison(&self, cursor: &mut Cursor<'_>) -> Result<Expression, Stop>
        requires { Nests self.now.budget (F.pre self.now.expression) (F.post self.now.expression) }
        ensures { IsOutcome tree_of (spec.comparison (spec.expression self.now.budget) self.now.turns cursor.old) result cursor.new }
    {
        let left = self.sum(cursor)?;
        if !sees_relation(cursor) {
            return Ok(left);
        }
        self.relating(left, cursor)
    }
}
