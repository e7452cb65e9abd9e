// What makes views and exports.
ghost use Rattle.std.specs.Prelude.{◌≡◌};
ghost use Rattle.std.specs.Option.{option_map};
ghost use Rattle.kq_read_control.specs.ControlReading as spec;
ghost use Rattle.kq_read_control.specs.ControlViews.{body_of, export_of, properties_of, view_of};
ghost use Rattle.kq_read_symbols.specs.Outcomes.{IsOutcome};

use crate::parts::{body, property_list, table_name};
use crate::tree::{Body, ExportDefinition, PropertyList, ViewDefinition};
use kq_read_expressions::read_name;
use kq_read_grammar::Name;
use kq_read_symbols::{Class, ClauseWord, ControlWord, Cursor, Stop, Symbol};
use kq_read_tokens::{DashedWord, Punctuation};
use std::alloc::Global;

// What stands behind the word `with`, which may be the view's name.
#[tactic(auto, unfolding(crate::specs::ControlReading::behind_with))]
fn behind_with(
    alloc: Global,
    cursor: &mut Cursor<'_>,
    budget: usize,
    word: Symbol,
) -> Result<(Option<PropertyList>, Name), Stop>
    ensures { IsOutcome (λ p. (option_map properties_of p.0, p.1)) (spec.behind_with budget word cursor.old) result cursor.new }
{
    if !cursor.sees(Class::Sign(Punctuation::OpenParenthesis)) {
        return Ok((None, Name::Word(word)));
    }
    let list = property_list(alloc, cursor, budget)?;
    let name = read_name(cursor)?;
    Ok((Some(list), name))
}

// The view's properties and its name.
#[tactic(auto, unfolding(crate::specs::ControlReading::viewed))]
fn viewed(
    alloc: Global,
    cursor: &mut Cursor<'_>,
    budget: usize,
) -> Result<(Option<PropertyList>, Name), Stop>
    ensures { IsOutcome (λ p. (option_map properties_of p.0, p.1)) (spec.viewed budget cursor.old) result cursor.new }
{
    if cursor.sees(Class::Control(ControlWord::With)) {
        let word = cursor.expect(Class::Control(ControlWord::With))?;
        return behind_with(alloc, cursor, budget, word);
    }
    let name = read_name(cursor)?;
    Ok((None, name))
}

// The word, where it comes next.
#[tactic(auto, unfolding(crate::specs::ControlReading::word_if))]
fn word_if(cursor: &mut Cursor<'_>, word: ControlWord) -> Result<Option<Symbol>, Stop>
    ensures { IsOutcome (λ o. o) (spec.word_if word cursor.old) result cursor.new }
{
    if !cursor.sees(Class::Control(word)) {
        return Ok(None);
    }
    let found = cursor.expect(Class::Control(word))?;
    Ok(Some(found))
}

// The table that a view is on, and its query.
fn on_table(alloc: Global, cursor: &mut Cursor<'_>, budget: usize) -> Result<(Name, Body), Stop>
    ensures { IsOutcome (λ p. (p.0, body_of p.1)) (spec.on_table budget cursor.old) result cursor.new }
{
    cursor.expect(Class::Clause(ClauseWord::On))?;
    let table = table_name(cursor)?;
    let body = body(alloc, cursor, budget)?;
    Ok((table, body))
}

// What stands behind `create` where a view is made.
#[tactic(auto, unfolding(crate::specs::ControlReading::view))]
pub(crate) fn view(
    alloc: Global,
    cursor: &mut Cursor<'_>,
    budget: usize,
) -> Result<Box<ViewDefinition>, Stop>
    ensures { IsOutcome (λ b. view_of b.value) (spec.view budget cursor.old) result cursor.new }
{
    let at_leisure = word_if(cursor, ControlWord::Async)?;
    let unless_there = word_if(cursor, ControlWord::IfNotExists)?;
    cursor.expect(Class::Dashed(DashedWord::MaterializedView))?;
    let (properties, name) = viewed(alloc, cursor, budget)?;
    let (table, body) = on_table(alloc, cursor, budget)?;
    let view = ViewDefinition {
        at_leisure,
        unless_there,
        properties,
        name,
        table,
        body,
    };
    Ok(Box::new(alloc, view)?)
}

// What an export is to be.
#[tactic(auto, unfolding(crate::specs::ControlReading::export_definition))]
pub(crate) fn export_definition(
    alloc: Global,
    cursor: &mut Cursor<'_>,
    budget: usize,
) -> Result<Box<ExportDefinition>, Stop>
    ensures { IsOutcome (λ b. export_of b.value) (spec.export_definition budget cursor.old) result cursor.new }
{
    cursor.expect(Class::Control(ControlWord::Over))?;
    let table = read_name(cursor)?;
    let body = body(alloc, cursor, budget)?;
    Ok(Box::new(alloc, ExportDefinition { table, body })?)
}
