// Lets and queries.
ghost use Rattle.std.specs.Prelude.{◌≡◌, map};
ghost use Rattle.kq_read_expressions.specs.Reading.{expression};
ghost use Rattle.kq_read_grammar.specs.TabularViews.{let_of, query_of, right_of, tabular_of};
ghost use Rattle.kq_read_grammar.specs.Trees as tree;
ghost use Rattle.kq_read_grammar.specs.Views.{tree_of};
ghost use Rattle.kq_read_queries.specs.Reading as spec;
ghost use Rattle.kq_read_symbols.specs.Classes as k;
ghost use Rattle.kq_read_symbols.specs.Classes.{of};
ghost use Rattle.kq_read_symbols.specs.Forms.{closed, expect, many, maybe, with_front};
ghost use Rattle.kq_read_symbols.specs.Outcomes.{IsOutcome};

use crate::pipes::read_tabular;
use kq_read_expressions::{read_expression, read_name};
use kq_read_grammar::{Expression, Let, LetRight, Query, Tabular};
use kq_read_symbols::{Class, Cursor, Part, ReservedWord, Stop, Symbol, more};
use kq_read_tokens::{Operator, Punctuation};
use std::alloc::Global;

// An expression up to its semicolon.
fn closed_expression(
    alloc: Global,
    cursor: &mut Cursor<'_>,
    budget: usize,
) -> Result<Box<Expression>, Stop>
    ensures { IsOutcome (λ b. tree_of b.value) (closed (expression budget) (of k.semicolon) cursor.old) result cursor.new }
{
    let value = read_expression(alloc, cursor, budget)?;
    let value = Box::new(alloc, value)?;
    cursor.expect(Class::Sign(Punctuation::Semicolon))?;
    Ok(value)
}

// A source with its operators, up to its semicolon.
fn closed_tabular(
    alloc: Global,
    cursor: &mut Cursor<'_>,
    budget: usize,
) -> Result<Box<Tabular>, Stop>
    ensures { IsOutcome (λ b. tabular_of b.value) (closed (spec.tabular budget) (of k.semicolon) cursor.old) result cursor.new }
{
    let rows = read_tabular(alloc, cursor, budget)?;
    cursor.expect(Class::Sign(Punctuation::Semicolon))?;
    Ok(rows)
}

// What a let stands for, up to the semicolon: it is read as an expression and as a source with operators.
#[tactic(auto, unfolding(crate::specs::Reading::right))]
fn read_right(alloc: Global, cursor: &mut Cursor<'_>, budget: usize) -> Result<LetRight, Stop>
    ensures { IsOutcome right_of (spec.right budget cursor.old) result cursor.new }
{
    let mut other = cursor.fork();
    let scalar = closed_expression(alloc, cursor, budget);
    let tabular = closed_tabular(alloc, &mut other, budget);
    match scalar {
        Ok(value) => match tabular {
            Ok(rows) => Ok(LetRight::Either(value, rows)),
            Err(stop) => match stop {
                Stop::Syntax => Ok(LetRight::Scalar(value)),
                Stop::Memory => Err(Stop::Memory),
            },
        },
        Err(stop) => match stop {
            Stop::Memory => Err(Stop::Memory),
            Stop::Syntax => match tabular {
                Ok(rows) => {
                    *cursor = other;
                    Ok(LetRight::Tabular(rows))
                }
                Err(stop) => match stop {
                    Stop::Memory => Err(Stop::Memory),
                    Stop::Syntax => {
                        if cursor.left() < other.left() {
                            return Err(Stop::Syntax);
                        }
                        *cursor = other;
                        Err(Stop::Syntax)
                    }
                },
            },
        },
    }
}

/// One let.
#[derive(Clone, Copy)]
pub struct ALet {
    alloc: Global,
    // At least the number of symbols that are left.
    budget: usize,
}

impl Part for ALet {
    type Value = Let;

    ghost Shape = { tree.LetTree };

    ghost view = { let_of };

    ghost reader = { λ p. spec.statement p.budget };

    ghost callable = { λ _. Unit {0} };

    #[tactic(auto, unfolding(crate::specs::Reading::statement))]
    fn read(&self, cursor: &mut Cursor<'_>) -> Result<Let, Stop> {
        cursor.expect(Class::Reserved(ReservedWord::Let))?;
        let name = read_name(cursor)?;
        cursor.expect(Class::Operator(Operator::Assign))?;
        let right = read_right(self.alloc, cursor, self.budget)?;
        Ok(Let { name, right })
    }
}

// The semicolon that may end a query.
fn maybe_semicolon(cursor: &mut Cursor<'_>) -> Result<Option<Symbol>, Stop>
    ensures { IsOutcome (λ o. o) (maybe (of k.semicolon) (expect (of k.semicolon)) cursor.old) result cursor.new }
{
    if !cursor.sees(Class::Sign(Punctuation::Semicolon)) {
        return Ok(None);
    }
    let semicolon = cursor.expect(Class::Sign(Punctuation::Semicolon))?;
    Ok(Some(semicolon))
}

/// The query that comes next. The budget is at least the number of symbols that are left.
#[tactic(auto, unfolding(crate::specs::Reading::query))]
pub fn read_query(alloc: Global, cursor: &mut Cursor<'_>, budget: usize) -> Result<Box<Query>, Stop>
    ensures { IsOutcome (λ b. query_of b.value) (spec.query budget cursor.old) result cursor.new }
{
    let a_let = ALet { alloc, budget };
    let lets = more(
        budget,
        Class::Reserved(ReservedWord::Let),
        &a_let,
        cursor,
        Vec::new(alloc),
    )?;
    let tabular = read_tabular(alloc, cursor, budget)?;
    let _semicolon = maybe_semicolon(cursor)?;
    Ok(Box::new(alloc, Query { lets, tabular })?)
}
