// The journal.
ghost use Rattle.std.specs.Prelude.{◌≡◌, ◌<◌, ◌≤◌, ◌+◌, ◌^◌, ◌++◌, [], All, IfOk, OnOk, false, length, map};
ghost use Rattle.std.specs.Arc.{arc_value};
ghost use Rattle.kq_value.specs.Typed.{HasTypes};
ghost use Rattle.kq_catalog_journal.specs.History.{commits_of, log};
ghost use Rattle.kq_engine_show.specs.JournalRows.{cursor_of, entity_of, event_row, journal_columns, journal_rows, kind_of, name_of, rows_behind, view_name_of};

use crate::cells::{number_cell, schema_of};
use kq_catalog::Snapshot;
use kq_catalog_journal::{Commit, Event, Operation};
use kq_store_rows::{Answer, Rows};
use kq_value::{Memory, Schema, Text, Ty, Value};
use std::alloc::Global;
use std::sync::Arc;

/// A row for each event: Place, from 1, Kind, Cursor, Actor, Number and Entity, the name of the table or view.
pub fn journal_of(snapshot: &Snapshot) -> Result<Answer, Memory>
    ensures schema { IfOk result (λ a. a.schema ≡ journal_columns) }
    ensures unordered { IfOk result (λ a. a.ordered ≡ false) }
    ensures rows { IfOk result (λ a. a.rows ≡ journal_rows snapshot.now.history) }
    ensures typed { IfOk result (λ a. All (HasTypes a.schema) a.rows) }
{
    Ok(Answer {
        schema: journal_schema(snapshot.allocator())?,
        ordered: false,
        rows: rows_of(snapshot)?,
    })
}

fn journal_schema(alloc: Global) -> Result<Schema, Memory>
    ensures { IfOk result (λ schema. schema ≡ journal_columns) }
{
    schema_of(
        alloc,
        &[
            ("Place", Ty::Long),
            ("Kind", Ty::Text),
            ("Cursor", Ty::Long),
            ("Actor", Ty::Long),
            ("Number", Ty::Long),
            ("Entity", Ty::Text),
        ],
    )
}

fn rows_of(snapshot: &Snapshot) -> Result<Rows, Memory>
    ensures rows { IfOk result (λ rows. rows ≡ journal_rows snapshot.now.history) }
    ensures typed { IfOk result (λ rows. All (HasTypes journal_columns) rows) }
{
    let count = snapshot.place();
    let mut rows = Rows::new(snapshot.allocator());
    let mut at = 0;
    let mut cursor = 0;
    while at < count {
        let events = snapshot.events_from(at as usize);
        cursor = add_rows(snapshot, events, at, cursor, &mut rows)?;
        at += events.len() as u64;
    }
    Ok(rows)
}

// Adds a row for each of these events, which stand behind so many events and commits, and gives the cursor after them.
fn add_rows(
    snapshot: &Snapshot,
    events: &[Arc<Event, Global>],
    place: u64,
    mut cursor: u64,
    rows: &mut Rows,
) -> Result<u64, Memory>
    requires room { place + length events.now < 2 ^ 64 }
    requires below { cursor ≤ place }
    requires typed { All (HasTypes journal_columns) rows.old }
    ensures rows { OnOk result (rows.new ≡ rows.old ++ rows_behind (log snapshot.now.history) place cursor (map arc_value events.now)) }
    ensures typed { OnOk result (All (HasTypes journal_columns) rows.new) }
    ensures cursor { IfOk result (λ after. after ≡ cursor + length (log (map arc_value events.now))) }
    ensures below { IfOk result (λ after. after ≤ place + length events.now) }
{
    let mut row = Vec::new(snapshot.allocator());
    for (i, event) in events.iter().enumerate() {
        cursor += commits_in(&event.operation);
        fill_row(snapshot, event, place + i as u64 + 1, cursor, &mut row)?;
        rows.push_from(&mut row)?;
    }
    Ok(cursor)
}

fn commits_in(operation: &Operation) -> u64
    ensures count { result ≡ length (commits_of operation.now) }
    ensures few { result ≤ 1 }
{
    match operation {
        Operation::Commit(_) => 1,
        Operation::Fold { .. } | Operation::Merge { .. } => 0,
    }
}

// Fills a row that has no cells yet.
fn fill_row(
    snapshot: &Snapshot,
    event: &Event,
    place: u64,
    cursor: u64,
    row: &mut Vec<Value>,
) -> Result<(), Memory>
    requires { row.old.items ≡ [] }
    ensures { OnOk result (row.new.items ≡ event_row (log snapshot.now.history) place cursor event.now) }
{
    let kind = Text::from_str(snapshot.allocator(), kind(&event.operation))?;
    let entity = entity(snapshot, &event.operation)?;
    row.push(number_cell(place))?;
    row.push(Value::Text(kind))?;
    row.push(number_cell(cursor_shown(&event.operation, cursor)))?;
    row.push(number_cell(u64::from(event.by.actor)))?;
    row.push(number_cell(event.by.number))?;
    row.push(Value::Text(entity))?;
    Ok(())
}

// A fold tells its target, and another operation the cursor after it.
fn cursor_shown(operation: &Operation, cursor: u64) -> u64
    ensures { result ≡ cursor_of cursor operation.now }
{
    match operation {
        Operation::Commit(_) | Operation::Merge { .. } => cursor,
        Operation::Fold { to, .. } => *to,
    }
}

fn kind(operation: &Operation) -> &'static str
    ensures { result.now ≡ kind_of operation.now }
{
    match operation {
        Operation::Commit(Commit::CreateTable { .. }) => "CreateTable",
        Operation::Commit(Commit::SetPolicy { .. }) => "SetPolicy",
        Operation::Commit(Commit::CreateView(_)) => "CreateView",
        Operation::Commit(Commit::AlterMerge { .. }) => "AlterMerge",
        Operation::Commit(Commit::Ingest { .. }) => "Ingest",
        Operation::Fold { .. } => "Fold",
        Operation::Merge { .. } => "Merge",
    }
}

fn entity(snapshot: &Snapshot, operation: &Operation) -> Result<Text, Memory>
    ensures { IfOk result (λ t. t ≡ entity_of (log snapshot.now.history) operation.now) }
{
    match operation {
        Operation::Commit(Commit::CreateTable { name, .. }) => name.clone_in(),
        Operation::Commit(Commit::SetPolicy { table, .. }) => table_name(snapshot, *table),
        Operation::Commit(Commit::CreateView(view)) => view.get().name.clone_in(),
        Operation::Commit(Commit::AlterMerge { table, .. }) => table_name(snapshot, *table),
        Operation::Commit(Commit::Ingest { batches, .. }) => match batches.as_slice().first() {
            Some(own) => table_name(snapshot, own.table),
            None => Text::from_str(snapshot.allocator(), ""),
        },
        Operation::Fold { view, .. } => view_name(snapshot, *view),
        Operation::Merge { table, .. } => table_name(snapshot, *table),
    }
}

pub(crate) fn table_name(snapshot: &Snapshot, number: u32) -> Result<Text, Memory>
    ensures { IfOk result (λ t. t ≡ name_of (log snapshot.now.history) number) }
{
    match snapshot.table_at(number) {
        Some(table) => table.name.clone_in(),
        None => Text::from_str(snapshot.allocator(), ""),
    }
}

fn view_name(snapshot: &Snapshot, number: u32) -> Result<Text, Memory>
    ensures { IfOk result (λ t. t ≡ view_name_of (log snapshot.now.history) number) }
{
    match snapshot.view_at(number) {
        Some(view) => view.name.clone_in(),
        None => Text::from_str(snapshot.allocator(), ""),
    }
}
