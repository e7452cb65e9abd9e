// Aggregates.
ghost use Rattle.std.specs.Prelude.{◌≡◌, map, true};
ghost use Rattle.kq_read_clauses.specs.Reading as spec;
ghost use Rattle.kq_read_grammar.specs.Clauses.{called};
ghost use Rattle.kq_read_grammar.specs.Views.{aggregate_view, argument_view};
ghost use Rattle.kq_read_symbols.specs.Classes as k;
ghost use Rattle.kq_read_symbols.specs.Classes.{of};
ghost use Rattle.kq_read_symbols.specs.Forms.{expect, starts};
ghost use Rattle.kq_read_symbols.specs.Outcomes.{IsOutcome};
ghost use Rattle.kq_read_symbols.specs.Several.{first_and_others};

use kq_read_expressions::{listed, read_expression, read_name};
use kq_read_grammar::{Aggregate, Argument, Name};
use kq_read_symbols::{Behind, Class, Cursor, Part, ReservedWord, Stop, Symbol, more};
use kq_read_tokens::{Operator, Punctuation};
use std::alloc::Global;

const ASSIGN: Class = Class::Operator(Operator::Assign);

const STAR: Class = Class::Operator(Operator::Star);

// One argument.
#[derive(Clone, Copy)]
struct AnArgument {
    alloc: Global,
    budget: usize,
}

impl Part for AnArgument {
    type Value = Argument;

    ghost use Rattle.kq_read_grammar.specs.Trees.{ArgumentTree};

    ghost Shape = { ArgumentTree };

    ghost view = { argument_view };

    ghost reader = { λ p. spec.argument p.budget };

    ghost callable = { λ _. Unit {0} };

    #[tactic(auto, unfolding(crate::specs::Reading::argument))]
    fn read(&self, cursor: &mut Cursor<'_>) -> Result<Argument, Stop> {
        if cursor.sees(STAR) {
            return Ok(Argument::Star(cursor.expect(STAR)?));
        }
        let value = read_expression(self.alloc, cursor, self.budget)?;
        Ok(Argument::Value(value))
    }
}

fn begins_argument(cursor: &Cursor<'_>) -> bool
    ensures { result ≡ starts (of spec.begins_argument) cursor.now }
{
    cursor.sees(Class::ExpressionStart) || cursor.sees(STAR)
}

#[tactic(auto, unfolding(crate::specs::Reading::arguments))]
fn arguments(alloc: Global, cursor: &mut Cursor<'_>, budget: usize) -> Result<Vec<Argument>, Stop>
    ensures { IsOutcome (λ v. map argument_view v.items) (spec.arguments budget cursor.old) result cursor.new }
{
    let mut found = Vec::new(alloc);
    if !begins_argument(cursor) {
        return Ok(found);
    }
    let argument = AnArgument { alloc, budget };
    found.push(argument.read(cursor)?)?;
    let comma = Class::Sign(Punctuation::Comma);
    let next = Behind {
        class: comma,
        part: &argument,
    };
    more(budget, comma, &next, cursor, found)
}

#[tactic(auto, unfolding(crate::specs::Reading::in_parentheses))]
fn in_parentheses(
    alloc: Global,
    cursor: &mut Cursor<'_>,
    budget: usize,
) -> Result<Vec<Argument>, Stop>
    ensures { IsOutcome (λ v. map argument_view v.items) (spec.in_parentheses budget cursor.old) result cursor.new }
{
    cursor.expect(Class::Sign(Punctuation::OpenParenthesis))?;
    let found = arguments(alloc, cursor, budget)?;
    cursor.expect(Class::Sign(Punctuation::CloseParenthesis))?;
    Ok(found)
}

// A word that can name an aggregate.
fn function(cursor: &mut Cursor<'_>) -> Result<Symbol, Stop>
    ensures { IsOutcome (λ t. t) (expect (of called) cursor.old) result cursor.new }
{
    if cursor.sees(Class::Reserved(ReservedWord::By)) {
        return Err(Stop::Syntax);
    }
    cursor.expect(Class::Word)
}

#[tactic(auto, unfolding(crate::specs::Reading::call))]
fn call(
    alloc: Global,
    cursor: &mut Cursor<'_>,
    budget: usize,
) -> Result<(Symbol, Vec<Argument>), Stop>
    ensures { IsOutcome (λ p. (p.0, map argument_view p.1.items)) (spec.call budget cursor.old) result cursor.new }
{
    let function = function(cursor)?;
    let arguments = in_parentheses(alloc, cursor, budget)?;
    Ok((function, arguments))
}

// An aggregate with a name in brackets.
#[tactic(auto, unfolding(crate::specs::Reading::bracketed_aggregate, kq_read_expressions::specs::Reading::name))]
fn bracketed_aggregate(
    alloc: Global,
    cursor: &mut Cursor<'_>,
    budget: usize,
) -> Result<Aggregate, Stop>
    requires { starts (of k.open_bracket) cursor.old ≡ true }
    ensures { IsOutcome aggregate_view (spec.bracketed_aggregate budget cursor.old) result cursor.new }
{
    let name = read_name(cursor)?;
    cursor.expect(ASSIGN)?;
    let (function, arguments) = call(alloc, cursor, budget)?;
    Ok(Aggregate {
        given: Some(name),
        function,
        arguments,
    })
}

// An aggregate that begins with a word: its name, or its function.
#[tactic(auto, unfolding(crate::specs::Reading::worded_aggregate))]
fn worded_aggregate(
    alloc: Global,
    cursor: &mut Cursor<'_>,
    budget: usize,
) -> Result<Aggregate, Stop>
    ensures { IsOutcome aggregate_view (spec.worded_aggregate budget cursor.old) result cursor.new }
{
    let word = function(cursor)?;
    if Class::BareName.contains(word.kind) {
        if cursor.sees(ASSIGN) {
            cursor.expect(ASSIGN)?;
            let (function, arguments) = call(alloc, cursor, budget)?;
            return Ok(Aggregate {
                given: Some(Name::Word(word)),
                function,
                arguments,
            });
        }
    }
    let arguments = in_parentheses(alloc, cursor, budget)?;
    Ok(Aggregate {
        given: None,
        function: word,
        arguments,
    })
}

/// One aggregate.
#[derive(Clone, Copy)]
pub struct AnAggregate {
    pub alloc: Global,
    /// At least the number of symbols that are left.
    pub budget: usize,
}

impl Part for AnAggregate {
    type Value = Aggregate;

    ghost use Rattle.kq_read_grammar.specs.Trees.{AggregateTree};

    ghost Shape = { AggregateTree };

    ghost view = { aggregate_view };

    ghost reader = { λ p. spec.aggregate p.budget };

    ghost callable = { λ _. Unit {0} };

    #[tactic(auto, unfolding(crate::specs::Reading::aggregate))]
    fn read(&self, cursor: &mut Cursor<'_>) -> Result<Aggregate, Stop> {
        if cursor.sees(Class::Sign(Punctuation::OpenBracket)) {
            return bracketed_aggregate(self.alloc, cursor, self.budget);
        }
        worded_aggregate(self.alloc, cursor, self.budget)
    }
}

/// One aggregate or more, with commas between them. The budget is at least the number of symbols that are left.
#[tactic(auto, unfolding(crate::specs::Reading::aggregates))]
pub fn read_aggregates(
    alloc: Global,
    cursor: &mut Cursor<'_>,
    budget: usize,
) -> Result<(Aggregate, Vec<Aggregate>), Stop>
    ensures { IsOutcome (first_and_others aggregate_view) (spec.aggregates budget cursor.old) result cursor.new }
{
    listed(alloc, cursor, budget, &AnAggregate { alloc, budget })
}
