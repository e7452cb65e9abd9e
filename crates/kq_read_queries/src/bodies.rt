// Sources and operators that have no sources inside, without their words.
ghost use Rattle.std.specs.Prelude.{◌≡◌, map};
ghost use Rattle.std.specs.Option.{option_map};
ghost use Rattle.kq_read_clauses.specs.Reading.{grouping, item, items, keys};
ghost use Rattle.kq_read_expressions.specs.Reading.{expression};
ghost use Rattle.kq_read_grammar.specs.TabularViews.{body_of, from_of};
ghost use Rattle.kq_read_grammar.specs.Trees as tree;
ghost use Rattle.kq_read_grammar.specs.Views.{grouping_view, item_view, key_view, tree_of};
ghost use Rattle.kq_read_queries.specs.Reading as spec;
ghost use Rattle.kq_read_symbols.specs.Classes as k;
ghost use Rattle.kq_read_symbols.specs.Classes.{of};
ghost use Rattle.kq_read_symbols.specs.Forms.{both, skip};
ghost use Rattle.kq_read_symbols.specs.Outcomes.{IsOutcome};

use crate::words::expect_table_word;
use kq_read_clauses::{
    read_aggregates, read_cells, read_columns, read_grouping, read_item, read_items,
    read_join_kind, read_key, read_keys, read_names,
};
use kq_read_expressions::{read_expression, read_name};
use kq_read_grammar::{
    Cell, Column, Expression, Grouping, Item, Key, Name, OperatorBody, SourceBody,
};
use kq_read_symbols::{Class, ClauseWord, Cursor, ReservedWord, Stop, Symbol};
use kq_read_tokens::{Operator, Punctuation};
use std::alloc::Global;

// The name of a view in parentheses.
#[tactic(auto, unfolding(crate::specs::Reading::view))]
pub(crate) fn read_view(cursor: &mut Cursor<'_>) -> Result<Symbol, Stop>
    ensures { IsOutcome (λ t. t) (spec.view cursor.old) result cursor.new }
{
    cursor.expect(Class::Sign(Punctuation::OpenParenthesis))?;
    let text = cursor.expect(Class::Text)?;
    cursor.expect(Class::Sign(Punctuation::CloseParenthesis))?;
    Ok(text)
}

// What stands behind `range`.
#[tactic(auto, unfolding(crate::specs::Reading::range))]
pub(crate) fn read_range(
    alloc: Global,
    cursor: &mut Cursor<'_>,
    budget: usize,
) -> Result<SourceBody, Stop>
    ensures { IsOutcome from_of (spec.range budget cursor.old) result cursor.new }
{
    let name = read_name(cursor)?;
    let from = read_bound(alloc, cursor, ClauseWord::From, budget)?;
    let to = read_bound(alloc, cursor, ClauseWord::To, budget)?;
    let step = read_bound(alloc, cursor, ClauseWord::Step, budget)?;
    Ok(SourceBody::Range {
        name,
        from,
        to,
        step,
    })
}

// An expression in a box.
pub(crate) fn read_boxed_expression(
    alloc: Global,
    cursor: &mut Cursor<'_>,
    budget: usize,
) -> Result<Box<Expression>, Stop>
    ensures { IsOutcome (λ b. tree_of b.value) (expression budget cursor.old) result cursor.new }
{
    let value = read_expression(alloc, cursor, budget)?;
    Ok(Box::new(alloc, value)?)
}

// An expression behind a word, in a box.
fn read_bound(
    alloc: Global,
    cursor: &mut Cursor<'_>,
    word: ClauseWord,
    budget: usize,
) -> Result<Box<Expression>, Stop>
    ensures { IsOutcome (λ b. tree_of b.value) (skip (of (k.clause word)) (expression budget) cursor.old) result cursor.new }
{
    cursor.expect(Class::Clause(word))?;
    read_boxed_expression(alloc, cursor, budget)
}

fn columns_in_parentheses(
    alloc: Global,
    cursor: &mut Cursor<'_>,
    budget: usize,
) -> Result<(Column, Vec<Column>), Stop>
    ensures { IsOutcome (λ p. (p.0, p.1.items)) (spec.columns_in_parentheses budget cursor.old) result cursor.new }
{
    cursor.expect(Class::Sign(Punctuation::OpenParenthesis))?;
    let columns = read_columns(alloc, cursor, budget)?;
    cursor.expect(Class::Sign(Punctuation::CloseParenthesis))?;
    Ok(columns)
}

fn cells_in_brackets(
    alloc: Global,
    cursor: &mut Cursor<'_>,
    budget: usize,
) -> Result<Vec<Cell>, Stop>
    ensures { IsOutcome (λ v. v.items) (spec.cells_in_brackets budget cursor.old) result cursor.new }
{
    cursor.expect(Class::Sign(Punctuation::OpenBracket))?;
    let cells = read_cells(alloc, cursor, budget)?;
    cursor.expect(Class::Sign(Punctuation::CloseBracket))?;
    Ok(cells)
}

// What stands behind `datatable`.
#[tactic(auto, unfolding(crate::specs::Reading::datatable))]
pub(crate) fn read_datatable(
    alloc: Global,
    cursor: &mut Cursor<'_>,
    budget: usize,
) -> Result<SourceBody, Stop>
    ensures { IsOutcome from_of (spec.datatable budget cursor.old) result cursor.new }
{
    let (first, others) = columns_in_parentheses(alloc, cursor, budget)?;
    let cells = cells_in_brackets(alloc, cursor, budget)?;
    Ok(SourceBody::Datatable {
        first,
        others,
        cells,
    })
}

// A name that a source begins with.
#[tactic(auto, unfolding(crate::specs::Reading::table_name, kq_read_expressions::specs::Reading::name))]
pub(crate) fn read_table_name(cursor: &mut Cursor<'_>) -> Result<Name, Stop>
    ensures { IsOutcome (λ n. n) (spec.table_name cursor.old) result cursor.new }
{
    if cursor.sees(Class::Sign(Punctuation::OpenBracket)) {
        return read_name(cursor);
    }
    let word = expect_table_word(cursor)?;
    Ok(Name::Word(word))
}

// `to typeof` and the word of a type in parentheses.
#[tactic(auto, unfolding(crate::specs::Reading::element_type))]
fn read_element_type(cursor: &mut Cursor<'_>) -> Result<Symbol, Stop>
    ensures { IsOutcome (λ t. t) (spec.element_type cursor.old) result cursor.new }
{
    cursor.expect(Class::Clause(ClauseWord::To))?;
    cursor.expect(Class::Clause(ClauseWord::Typeof))?;
    cursor.expect(Class::Sign(Punctuation::OpenParenthesis))?;
    let word = cursor.expect(Class::Word)?;
    cursor.expect(Class::Sign(Punctuation::CloseParenthesis))?;
    Ok(word)
}

// The word of a type, where it is said.
fn maybe_element_type(cursor: &mut Cursor<'_>) -> Result<Option<Symbol>, Stop>
    ensures { IsOutcome (λ o. o) (spec.maybe_element_type cursor.old) result cursor.new }
{
    if !cursor.sees(Class::Clause(ClauseWord::To)) {
        return Ok(None);
    }
    let word = read_element_type(cursor)?;
    Ok(Some(word))
}

// `kind =` and the kind of a join.
#[tactic(auto, unfolding(crate::specs::Reading::kind))]
pub(crate) fn read_kind(cursor: &mut Cursor<'_>) -> Result<Name, Stop>
    ensures { IsOutcome (λ n. n) (spec.kind cursor.old) result cursor.new }
{
    cursor.expect(Class::Clause(ClauseWord::Kind))?;
    cursor.expect(Class::Operator(Operator::Assign))?;
    read_join_kind(cursor)
}

// One item or more, the first in a box.
pub(crate) fn read_boxed_items(
    alloc: Global,
    cursor: &mut Cursor<'_>,
    budget: usize,
) -> Result<(Box<Item>, Vec<Item>), Stop>
    ensures { IsOutcome (λ p. (item_view p.0.value, map item_view p.1.items)) (items budget cursor.old) result cursor.new }
{
    let (first, others) = read_items(alloc, cursor, budget)?;
    Ok((Box::new(alloc, first)?, others))
}

// One key or more, the first in a box.
pub(crate) fn read_boxed_keys(
    alloc: Global,
    cursor: &mut Cursor<'_>,
    budget: usize,
) -> Result<(Box<Key>, Vec<Key>), Stop>
    ensures { IsOutcome (λ p. (key_view p.0.value, map key_view p.1.items)) (keys budget cursor.old) result cursor.new }
{
    let (first, others) = read_keys(alloc, cursor, budget)?;
    Ok((Box::new(alloc, first)?, others))
}

// What stands behind `top`.
#[tactic(auto, unfolding(crate::specs::Reading::top))]
pub(crate) fn read_top(
    alloc: Global,
    cursor: &mut Cursor<'_>,
    budget: usize,
) -> Result<OperatorBody, Stop>
    ensures { IsOutcome body_of (spec.top budget cursor.old) result cursor.new }
{
    let count = cursor.expect(Class::WholeNumber)?;
    cursor.expect(Class::Reserved(ReservedWord::By))?;
    let key = Box::new(alloc, read_key(alloc, cursor, budget)?)?;
    Ok(OperatorBody::Top(count, key))
}

// What stands behind `distinct`.
#[tactic(auto, unfolding(crate::specs::Reading::distinction))]
pub(crate) fn read_distinct(
    alloc: Global,
    cursor: &mut Cursor<'_>,
    budget: usize,
) -> Result<OperatorBody, Stop>
    ensures { IsOutcome body_of (spec.distinction budget cursor.old) result cursor.new }
{
    if cursor.sees(Class::Operator(Operator::Star)) {
        let star = cursor.expect(Class::Operator(Operator::Star))?;
        return Ok(OperatorBody::DistinctAll(star));
    }
    let (first, others) = read_names(alloc, cursor, budget)?;
    Ok(OperatorBody::Distinct(first, others))
}

// `by` and what rows are grouped by, in a box.
fn read_boxed_grouping(
    alloc: Global,
    cursor: &mut Cursor<'_>,
    budget: usize,
) -> Result<Box<Grouping>, Stop>
    ensures { IsOutcome (λ b. grouping_view b.value) (grouping budget cursor.old) result cursor.new }
{
    let grouping = read_grouping(alloc, cursor, budget)?;
    Ok(Box::new(alloc, grouping)?)
}

// What rows are grouped by, where it is said.
fn maybe_grouping(
    alloc: Global,
    cursor: &mut Cursor<'_>,
    budget: usize,
) -> Result<Option<Box<Grouping>>, Stop>
    ensures { IsOutcome (option_map (λ b. grouping_view b.value)) (spec.maybe_grouping budget cursor.old) result cursor.new }
{
    if !cursor.sees(Class::Reserved(ReservedWord::By)) {
        return Ok(None);
    }
    let grouping = read_boxed_grouping(alloc, cursor, budget)?;
    Ok(Some(grouping))
}

// What stands behind `summarize`.
#[tactic(auto, unfolding(crate::specs::Reading::summarize))]
pub(crate) fn read_summarize(
    alloc: Global,
    cursor: &mut Cursor<'_>,
    budget: usize,
) -> Result<OperatorBody, Stop>
    ensures { IsOutcome body_of (spec.summarize budget cursor.old) result cursor.new }
{
    if cursor.sees(Class::Reserved(ReservedWord::By)) {
        let grouping = read_boxed_grouping(alloc, cursor, budget)?;
        return Ok(OperatorBody::SummarizeBy(grouping));
    }
    let (first, others) = read_aggregates(alloc, cursor, budget)?;
    let grouping = maybe_grouping(alloc, cursor, budget)?;
    Ok(OperatorBody::Summarize(first, others, grouping))
}

// What stands behind `count`, which is nothing.
pub(crate) fn counting() -> OperatorBody
    ensures { body_of result ≡ tree.count }
{
    OperatorBody::Count
}

// What stands behind `mv-expand`: the item, and the word of the type where it is said.
pub(crate) fn read_expanded(
    alloc: Global,
    cursor: &mut Cursor<'_>,
    budget: usize,
) -> Result<(Box<Item>, Option<Symbol>), Stop>
    ensures { IsOutcome (λ p. (item_view p.0.value, p.1)) (both (item budget) spec.maybe_element_type cursor.old) result cursor.new }
{
    let item = Box::new(alloc, read_item(alloc, cursor, budget)?)?;
    let word = maybe_element_type(cursor)?;
    Ok((item, word))
}
