// What binds most tightly: names, literals, calls and parentheses.
ghost use Rattle.std.specs.Prelude.{◌≡◌};
ghost use Rattle.std.specs.Option.{option_map};
ghost use Rattle.kq_read_expressions.specs.Arguments.{arguments_in};
ghost use Rattle.kq_read_expressions.specs.Nests.{Nests};
ghost use Rattle.kq_read_expressions.specs.Reading as spec;
ghost use Rattle.kq_read_grammar.specs.Trees.{Tree};
ghost use Rattle.kq_read_grammar.specs.Views.{tree_of};
ghost use Rattle.kq_read_symbols.specs.Outcomes.{IsOutcome};

use crate::names::bracketed_name;
use crate::nesting::{Nested, Reader};
use kq_read_grammar::{Expression, Name, call, group};
use kq_read_symbols::{Behind, Class, Cursor, Kind, Part, Stop, Symbol, more};
use kq_read_tokens::Punctuation;
use std::alloc::Global;

// Whether it is an operand without arguments: a name, `true` or `false`.
fn stands_alone(kind: Kind) -> bool
    ensures { result ≡ spec.stands_alone kind }
{
    Class::BareName.contains(kind) || Class::Truth.contains(kind)
}

// A word with its arguments, or alone.
fn worded_of(word: Symbol, arguments: Option<Vec<Expression>>) -> Expression
    ensures { tree_of result ≡ spec.worded_of word (option_map arguments_in arguments) }
{
    match arguments {
        Some(arguments) => call(word, arguments),
        None if Class::BareName.contains(word.kind) => Expression::Name(Name::Word(word)),
        None => Expression::Literal(word),
    }
}

impl<F: Fn(Global, &mut Cursor<'_>, usize) -> Result<Expression, Stop>> Reader<F> {
    #[tactic(auto, unfolding(crate::specs::Reading::grouped))]
    fn grouped(&self, cursor: &mut Cursor<'_>) -> Result<Expression, Stop>
        requires { Nests self.now.budget (F.pre self.now.expression) (F.post self.now.expression) }
        ensures { IsOutcome tree_of (spec.grouped (spec.expression self.now.budget) self.now.turns cursor.old) result cursor.new }
    {
        let parenthesis = cursor.expect(Class::Sign(Punctuation::OpenParenthesis))?;
        let inner = Nested(self).read(cursor)?;
        cursor.expect(Class::Sign(Punctuation::CloseParenthesis))?;
        Ok(group(self.alloc, parenthesis, inner)?)
    }

    #[tactic(auto, unfolding(crate::specs::Reading::arguments))]
    fn arguments(&self, cursor: &mut Cursor<'_>) -> Result<Vec<Expression>, Stop>
        requires { Nests self.now.budget (F.pre self.now.expression) (F.post self.now.expression) }
        ensures { IsOutcome arguments_in (spec.arguments (spec.expression self.now.budget) self.now.turns cursor.old) result cursor.new }
    {
        let mut found = Vec::new(self.alloc);
        if !cursor.sees(Class::ExpressionStart) {
            return Ok(found);
        }
        let argument = Nested(self);
        found.push(argument.read(cursor)?)?;
        let comma = Class::Sign(Punctuation::Comma);
        let next = Behind {
            class: comma,
            part: &argument,
        };
        more(self.turns, comma, &next, cursor, found)
    }

    #[tactic(auto, unfolding(crate::specs::Reading::in_parentheses))]
    fn in_parentheses(&self, cursor: &mut Cursor<'_>) -> Result<Vec<Expression>, Stop>
        requires { Nests self.now.budget (F.pre self.now.expression) (F.post self.now.expression) }
        ensures { IsOutcome arguments_in (spec.in_parentheses (spec.expression self.now.budget) self.now.turns cursor.old) result cursor.new }
    {
        cursor.expect(Class::Sign(Punctuation::OpenParenthesis))?;
        let arguments = self.arguments(cursor)?;
        cursor.expect(Class::Sign(Punctuation::CloseParenthesis))?;
        Ok(arguments)
    }

    // The arguments of a word, which has to have some unless it may stand alone.
    fn arguments_of(
        &self,
        alone: bool,
        cursor: &mut Cursor<'_>,
    ) -> Result<Option<Vec<Expression>>, Stop>
        requires { Nests self.now.budget (F.pre self.now.expression) (F.post self.now.expression) }
        ensures { IsOutcome (option_map arguments_in) (spec.arguments_of (spec.expression self.now.budget) self.now.turns alone cursor.old) result cursor.new }
    {
        if alone && !cursor.sees(Class::Sign(Punctuation::OpenParenthesis)) {
            return Ok(None);
        }
        Ok(Some(self.in_parentheses(cursor)?))
    }

    #[tactic(auto, unfolding(crate::specs::Reading::worded))]
    fn worded(&self, cursor: &mut Cursor<'_>) -> Result<Expression, Stop>
        requires { Nests self.now.budget (F.pre self.now.expression) (F.post self.now.expression) }
        ensures { IsOutcome tree_of (spec.worded (spec.expression self.now.budget) self.now.turns cursor.old) result cursor.new }
    {
        let word = cursor.expect(Class::Word)?;
        let arguments = self.arguments_of(stands_alone(word.kind), cursor)?;
        Ok(worded_of(word, arguments))
    }

    #[tactic(auto, unfolding(crate::specs::Reading::primary))]
    pub(crate) fn primary(&self, cursor: &mut Cursor<'_>) -> Result<Expression, Stop>
        requires { Nests self.now.budget (F.pre self.now.expression) (F.post self.now.expression) }
        ensures { IsOutcome tree_of (spec.primary (spec.expression self.now.budget) self.now.turns cursor.old) result cursor.new }
    {
        if cursor.sees(Class::Sign(Punctuation::OpenParenthesis)) {
            return self.grouped(cursor);
        }
        if cursor.sees(Class::Sign(Punctuation::OpenBracket)) {
            return Ok(Expression::Name(bracketed_name(cursor)?));
        }
        if cursor.sees(Class::Word) {
            return self.worded(cursor);
        }
        Ok(Expression::Literal(cursor.expect(Class::Literal)?))
    }
}
