// Commands, by the words that they begin with.
ghost use Rattle.std.specs.Prelude.{◌≡◌};
ghost use Rattle.kq_read_control.specs.ControlReading as spec;
ghost use Rattle.kq_read_control.specs.ControlViews.{control_of, statement_of};
ghost use Rattle.kq_read_symbols.specs.Outcomes.{IsOutcome};

use crate::parts::{maybe_properties, table_columns, table_name};
use crate::tree::{Control, Statement};
use crate::views::{export_definition, view};
use kq_read_expressions::read_name;
use kq_read_queries::read_query;
use kq_read_symbols::{Class, ControlWord, Cursor, Stop};
use kq_read_tokens::{DashedWord, Punctuation};
use std::alloc::Global;

#[tactic(auto, unfolding(crate::specs::ControlReading::creation))]
fn creation(alloc: Global, cursor: &mut Cursor<'_>, budget: usize) -> Result<Control, Stop>
    ensures { IsOutcome control_of (spec.creation budget cursor.old) result cursor.new }
{
    if cursor.sees(Class::Control(ControlWord::Table)) {
        let (name, columns) = table_columns(alloc, cursor, budget)?;
        return Ok(Control::CreateTable(name, columns));
    }
    let view = view(alloc, cursor, budget)?;
    Ok(Control::CreateView(view))
}

#[tactic(auto, unfolding(crate::specs::ControlReading::ingestion))]
fn ingestion(alloc: Global, cursor: &mut Cursor<'_>, budget: usize) -> Result<Control, Stop>
    ensures { IsOutcome control_of (spec.ingestion budget cursor.old) result cursor.new }
{
    cursor.expect(Class::Control(ControlWord::Inline))?;
    cursor.expect(Class::Control(ControlWord::Into))?;
    let table = table_name(cursor)?;
    let list = maybe_properties(alloc, cursor, budget)?;
    let mark = cursor.expect(Class::Sign(Punctuation::BodyMark))?;
    Ok(Control::Ingest(table, list, mark))
}

#[tactic(auto, unfolding(crate::specs::ControlReading::policy))]
fn policy(cursor: &mut Cursor<'_>) -> Result<Control, Stop>
    ensures { IsOutcome control_of (spec.policy cursor.old) result cursor.new }
{
    let table = table_name(cursor)?;
    cursor.expect(Class::Control(ControlWord::Policy))?;
    cursor.expect(Class::Control(ControlWord::Update))?;
    let text = cursor.expect(Class::Text)?;
    Ok(Control::SetPolicy(table, text))
}

#[tactic(auto, unfolding(crate::specs::ControlReading::showing, crate::specs::ControlReading::shown_view, crate::specs::ControlReading::shown_failures, crate::specs::ControlReading::shown_extents, crate::specs::ControlReading::shown_journal))]
fn showing(cursor: &mut Cursor<'_>) -> Result<Control, Stop>
    ensures { IsOutcome control_of (spec.showing cursor.old) result cursor.new }
{
    if cursor.sees(Class::Dashed(DashedWord::MaterializedView)) {
        cursor.expect(Class::Dashed(DashedWord::MaterializedView))?;
        return Ok(Control::ShowView(read_name(cursor)?));
    }
    if cursor.sees(Class::Control(ControlWord::Ingestion)) {
        cursor.expect(Class::Control(ControlWord::Ingestion))?;
        cursor.expect(Class::Control(ControlWord::Failures))?;
        return Ok(Control::ShowFailures);
    }
    if cursor.sees(Class::Control(ControlWord::Table)) {
        let table = table_name(cursor)?;
        cursor.expect(Class::Control(ControlWord::Extents))?;
        return Ok(Control::ShowExtents(table));
    }
    cursor.expect(Class::Control(ControlWord::Journal))?;
    Ok(Control::ShowJournal)
}

#[tactic(auto, unfolding(crate::specs::ControlReading::exporting))]
fn exporting(alloc: Global, cursor: &mut Cursor<'_>, budget: usize) -> Result<Control, Stop>
    ensures { IsOutcome control_of (spec.exporting budget cursor.old) result cursor.new }
{
    let name = cursor.expect(Class::Word)?;
    if !cursor.sees(Class::Control(ControlWord::Over)) {
        return Ok(Control::Export(name, None));
    }
    let definition = export_definition(alloc, cursor, budget)?;
    Ok(Control::Export(name, Some(definition)))
}

// What stands behind `.`.
#[tactic(auto, unfolding(crate::specs::ControlReading::dotted))]
fn dotted(alloc: Global, cursor: &mut Cursor<'_>, budget: usize) -> Result<Control, Stop>
    ensures { IsOutcome control_of (spec.dotted budget cursor.old) result cursor.new }
{
    if cursor.sees(Class::Control(ControlWord::Create)) {
        cursor.expect(Class::Control(ControlWord::Create))?;
        return creation(alloc, cursor, budget);
    }
    if cursor.sees(Class::Control(ControlWord::Ingest)) {
        cursor.expect(Class::Control(ControlWord::Ingest))?;
        return ingestion(alloc, cursor, budget);
    }
    if cursor.sees(Class::Control(ControlWord::Alter)) {
        cursor.expect(Class::Control(ControlWord::Alter))?;
        return policy(cursor);
    }
    if cursor.sees(Class::Dashed(DashedWord::AlterMerge)) {
        cursor.expect(Class::Dashed(DashedWord::AlterMerge))?;
        let (name, columns) = table_columns(alloc, cursor, budget)?;
        return Ok(Control::AlterMerge(name, columns));
    }
    cursor.expect(Class::Control(ControlWord::Show))?;
    showing(cursor)
}

// What stands behind `#`.
#[tactic(auto, unfolding(crate::specs::ControlReading::hashed))]
fn hashed(alloc: Global, cursor: &mut Cursor<'_>, budget: usize) -> Result<Control, Stop>
    ensures { IsOutcome control_of (spec.hashed budget cursor.old) result cursor.new }
{
    if cursor.sees(Class::Control(ControlWord::Fold)) {
        cursor.expect(Class::Control(ControlWord::Fold))?;
        return Ok(Control::Fold(read_name(cursor)?));
    }
    if cursor.sees(Class::Control(ControlWord::Merge)) {
        cursor.expect(Class::Control(ControlWord::Merge))?;
        return Ok(Control::Merge(read_name(cursor)?));
    }
    cursor.expect(Class::Control(ControlWord::Export))?;
    exporting(alloc, cursor, budget)
}

// The command that comes next. The budget is at least the number of symbols that are left.
#[tactic(auto, unfolding(crate::specs::ControlReading::statement))]
pub(crate) fn read_statement(
    alloc: Global,
    cursor: &mut Cursor<'_>,
    budget: usize,
) -> Result<Statement, Stop>
    ensures { IsOutcome statement_of (spec.statement budget cursor.old) result cursor.new }
{
    if cursor.sees(Class::Sign(Punctuation::Dot)) {
        cursor.expect(Class::Sign(Punctuation::Dot))?;
        let control = dotted(alloc, cursor, budget)?;
        return Ok(Statement::Control(Box::new(alloc, control)?));
    }
    if cursor.sees(Class::Sign(Punctuation::Hash)) {
        cursor.expect(Class::Sign(Punctuation::Hash))?;
        let control = hashed(alloc, cursor, budget)?;
        return Ok(Statement::Control(Box::new(alloc, control)?));
    }
    Ok(Statement::Query(read_query(alloc, cursor, budget)?))
}
