// Reading a command.
ghost use Rattle.std.specs.Prelude.{◌≡◌, ◌≤◌, ◌∷◌, Some, None, true, All, IfErr, IfOk, OnErr, length};
ghost use Rattle.std.specs.Option.{option_map};
ghost use Rattle.kq_read_commands.specs.InText.{ColumnIn, ColumnsIn, ControlIn, IsPiece, IsString, MaybeExportIn, NameIn, PropertiesIn};
ghost use Rattle.kq_read_commands.specs.Meanings.{behind, column_of, columns_of, identifier_of, string_at as said};
ghost use Rattle.kq_read_commands.specs.Reads.{IsCommandOf, IsControlOf, IsExport, ReadsAs, ReadsText, ingestion_of};
ghost use Rattle.kq_read_commands.specs.Unsupported.{IsTyped, column_fault, control_fault, first_of, ingest_fault, properties_fault};
ghost use Rattle.kq_read_control.specs.ControlTrees.{control as command, query};
ghost use Rattle.kq_read_control.specs.ControlViews.{columns_of as columns_view, control_of, export_of, properties_of as properties_view};
ghost use Rattle.kq_read_control.specs.Statements.{IsStatement};
ghost use Rattle.kq_read_grammar.specs.TabularViews.{query_of};

use crate::columns::{Column, Columns, Identifier};
use crate::command::{Asked, Change, Command, CommandFault, Export, Query, Show};
use crate::ingestion::Ingestion;
use crate::meanings::{identifier, piece, string_at};
use crate::memory::Requests;
use crate::properties::read_properties;
use crate::rows::rows_after;
use crate::unsupported::unsupported;
use crate::views::{new_export, new_view};
use kq_read_control::{ColumnList, Control, ExportDefinition, PropertyList, Statement};
use kq_read_grammar::{Column as WrittenColumn, Name, Query as WrittenQuery};
use kq_read_meanings::ty_of;
use kq_read_symbols::Symbol;
use kq_value::{Memory, Text};
use std::alloc::Global;

/// The command that a block of text is.
pub fn read_command(alloc: Global, text: &[u8]) -> Result<Asked, CommandFault>
    ensures { ReadsAs text.now result }
{
    match std::str::from_utf8(text) {
        Ok(text) => read_text(alloc, text),
        Err(error) => Err(CommandFault::NotText {
            at: error.valid_up_to(),
        }),
    }
}

fn read_text(alloc: Global, text: &str) -> Result<Asked, CommandFault>
    ensures { ReadsText text.now result }
{
    read_in(&mut Requests::new(alloc), text)
}

fn read_in(memory: &mut Requests, text: &str) -> Result<Asked, CommandFault>
    ensures answer { ReadsText text.now result }
    ensures refused { IfErr result (λ f. f ≡ CommandFault.Memory → memory.new.refused ≡ true) }
{
    match memory.statement(text) {
        Ok(Statement::Query(tree)) => Ok(asked(memory, text, tree)?),
        Ok(Statement::Control(control)) => supported(memory, text, Box::into_inner(control)),
        Err(fault) => Err(fault.into()),
    }
}

// The query of the text, whose tree it is.
fn asked(memory: &mut Requests, text: &str, tree: Box<WrittenQuery>) -> Result<Asked, Memory>
    ensures value { IfOk result (IsCommandOf text.now (query (query_of tree.value))) }
    ensures refused { OnErr result (memory.new.refused ≡ true) }
{
    let text = memory.text(text)?;
    Ok(Asked::Engine(Command::Query(Query {
        text,
        tree: Box::into_inner(tree),
    })))
}

// The command, unless a symbol of it isn't supported.
fn supported(memory: &mut Requests, text: &str, control: Control) -> Result<Asked, CommandFault>
    requires { IsStatement text.now (command (control_of control)) }
    ensures answer { ReadsText text.now result }
    ensures refused { IfErr result (λ f. f ≡ CommandFault.Memory → memory.new.refused ≡ true) }
{
    match unsupported(memory, text, &control)? {
        Some(at) => Err(CommandFault::Unsupported { at }),
        None => Ok(command_in(memory, text, control)?),
    }
}

// The command, all of which is supported.
fn command_in(memory: &mut Requests, text: &str, control: Control) -> Result<Asked, Memory>
    requires stands { ControlIn text.now (control_of control) }
    requires supported { control_fault text.now (control_of control) ≡ None }
    ensures value { IfOk result (IsControlOf text.now (control_of control)) }
    ensures refused { OnErr result (memory.new.refused ≡ true) }
{
    Ok(Asked::Engine(match control {
        Control::CreateTable(name, columns) => {
            let (name, columns) = table_in(memory, text, name, &columns)?;
            Command::Change(Change::CreateTable { name, columns })
        }
        Control::AlterMerge(name, columns) => {
            let (name, columns) = table_in(memory, text, name, &columns)?;
            Command::Change(Change::AlterMerge { name, columns })
        }
        Control::Ingest(table, list, mark) => Command::Change(Change::Ingest(ingestion_in(
            memory, text, table, &list, mark,
        )?)),
        Control::CreateView(view) => {
            Command::Change(Change::CreateView(new_view(memory, text, view)?))
        }
        Control::SetPolicy(target, policy) => {
            let (target, policy) = policy_in(memory, text, target, policy)?;
            Command::Change(Change::SetPolicy { target, policy })
        }
        Control::ShowView(view) => Command::Show(Show::View(identifier(memory, text, view)?)),
        Control::ShowFailures => Command::Show(Show::Failures),
        Control::ShowExtents(table) => Command::Show(Show::Extents(identifier(
            memory, text, table,
        )?)),
        Control::ShowJournal => Command::Show(Show::Journal),
        Control::Merge(table) => Command::Merge(identifier(memory, text, table)?),
        Control::Fold(view) => Command::Fold(identifier(memory, text, view)?),
        Control::Export(name, export) => {
            return Ok(Asked::Exporter(export_in(memory, text, name, export)?));
        }
    }))
}

// A table's name and its columns.
fn table_in(
    memory: &mut Requests,
    text: &str,
    name: Name,
    list: &ColumnList,
) -> Result<(Identifier, Columns), Memory>
    requires stand { NameIn text.now name × ColumnsIn text.now (columns_view list.now) }
    requires typed { first_of (column_fault text.now) (list.now.first ∷ list.now.others.items) ≡ None }
    ensures name { IfOk result (λ p. p.0 ≡ identifier_of text.now name) }
    ensures columns { IfOk result (λ p. columns_of text.now (list.now.first ∷ list.now.others.items) ≡ Some p.1) }
    ensures refused { OnErr result (memory.new.refused ≡ true) }
{
    let name = identifier(memory, text, name)?;
    let columns = columns_in(memory, text, list)?;
    Ok((name, columns))
}

// What is to be ingested into a table.
fn ingestion_in(
    memory: &mut Requests,
    text: &str,
    table: Name,
    list: &Option<PropertyList>,
    mark: Symbol,
) -> Result<Ingestion, Memory>
    requires stand { NameIn text.now table × PropertiesIn text.now (option_map properties_view list.now) × IsPiece text.now mark }
    requires supported { properties_fault (ingest_fault text.now) (option_map properties_view list.now) ≡ None }
    ensures value { IfOk result (λ i. i ≡ ingestion_of text.now table (option_map properties_view list.now) mark) }
    ensures refused { OnErr result (memory.new.refused ≡ true) }
{
    Ok(Ingestion {
        table: identifier(memory, text, table)?,
        properties: read_properties(memory, text, list)?,
        body: memory.text(rows_after(text, mark))?,
    })
}

// The name of a policy's table, and what the policy says.
fn policy_in(
    memory: &mut Requests,
    text: &str,
    target: Name,
    policy: Symbol,
) -> Result<(Identifier, Text), Memory>
    requires stand { NameIn text.now target × IsString text.now policy }
    ensures target { IfOk result (λ p. p.0 ≡ identifier_of text.now target) }
    ensures policy { IfOk result (λ p. p.1 ≡ said text.now policy) }
    ensures refused { OnErr result (memory.new.refused ≡ true) }
{
    let target = identifier(memory, text, target)?;
    let policy = string_at(memory, text, policy)?;
    Ok((target, policy))
}

// An export that is to be made, or one that is to run.
fn export_in(
    memory: &mut Requests,
    text: &str,
    name: Symbol,
    export: Option<Box<ExportDefinition>>,
) -> Result<Export, Memory>
    requires name { IsPiece text.now name }
    requires parts { MaybeExportIn text.now (option_map (λ e. export_of e.value) export) }
    ensures value { IfOk result (IsExport text.now name (option_map (λ e. export_of e.value) export)) }
    ensures refused { OnErr result (memory.new.refused ≡ true) }
{
    match export {
        Some(export) => {
            let export = new_export(memory, text, name, export)?;
            Ok(Export::Define(export))
        }
        None => Ok(Export::Run(identifier(memory, text, Name::Word(name))?)),
    }
}

fn column_in(memory: &mut Requests, text: &str, column: WrittenColumn) -> Result<Column, Memory>
    requires stands { ColumnIn text.now column }
    requires typed { IsTyped text.now column }
    ensures value { IfOk result (λ c. column_of text.now column ≡ Some c) }
    ensures refused { OnErr result (memory.new.refused ≡ true) }
{
    let name = identifier(memory, text, column.name)?;
    match ty_of(piece(text, column.ty).as_bytes()) {
        Some(ty) => Ok(Column { name, ty }),
        None => unreachable!(),
    }
}

// The columns behind those that were found.
fn more_columns(
    memory: &mut Requests,
    text: &str,
    columns: &[WrittenColumn],
    mut found: Vec<Column>,
) -> Result<Vec<Column>, Memory>
    requires stand { All (ColumnIn text.now) columns.now }
    requires typed { All (IsTyped text.now) columns.now }
    ensures columns { IfOk result (λ v. behind found.items (columns_of text.now columns.now) ≡ Some v.items) }
    ensures some { IfOk result (λ v. length found.items ≤ length v.items) }
    ensures refused { OnErr result (memory.new.refused ≡ true) }
{
    for column in columns {
        let column = column_in(memory, text, *column)?;
        memory.push(&mut found, column)?;
    }
    Ok(found)
}

// The columns of a list, each of a known type.
#[tactic(auto, using(crate::proofs::Typed::first_typed, crate::proofs::Typed::others_typed))]
fn columns_in(memory: &mut Requests, text: &str, list: &ColumnList) -> Result<Columns, Memory>
    requires stand { ColumnsIn text.now (columns_view list.now) }
    requires typed { first_of (column_fault text.now) (list.now.first ∷ list.now.others.items) ≡ None }
    ensures value { IfOk result (λ cs. columns_of text.now (list.now.first ∷ list.now.others.items) ≡ Some cs) }
    ensures refused { OnErr result (memory.new.refused ≡ true) }
{
    let first = column_in(memory, text, list.first)?;
    let mut found = memory.empty();
    memory.push(&mut found, first)?;
    let columns = more_columns(memory, text, list.others.as_slice(), found)?;
    Ok(Columns::from_vec(columns))
}
