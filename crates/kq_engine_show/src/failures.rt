// The failures of ingestions.
ghost use Rattle.std.specs.Prelude.{◌≡◌, ◌++◌, [], All, IfOk, OnOk, codes, decimal, false, map};
ghost use Rattle.std.specs.Arc.{arc_value};
ghost use Rattle.kq_value.specs.Typed.{HasTypes};
ghost use Rattle.kq_store_rows.specs.Causes.{cause_text};
ghost use Rattle.kq_catalog_journal.specs.History.{log};
ghost use Rattle.kq_engine_show.specs.FailureRows.{failure_columns, failure_row, failure_rows};

use crate::cells::{number_cell, schema_of};
use crate::journal::table_name;
use itoa::Buffer;
use kq_catalog::Snapshot;
use kq_catalog_journal::Noted;
use kq_store_rows::{Answer, Cause, Rows};
use kq_value::{Memory, Schema, Text, Ty, Value};
use std::alloc::Global;
use std::sync::Arc;

/// A row for each failure that an ingestion noted: Cursor, Source, Target, Failed and Cause.
pub fn failures_of(snapshot: &Snapshot) -> Result<Answer, Memory>
    ensures schema { IfOk result (λ a. a.schema ≡ failure_columns) }
    ensures unordered { IfOk result (λ a. a.ordered ≡ false) }
    ensures rows { IfOk result (λ a. a.rows ≡ failure_rows snapshot.now.history) }
    ensures typed { IfOk result (λ a. All (HasTypes a.schema) a.rows) }
{
    Ok(Answer {
        schema: failure_schema(snapshot.allocator())?,
        ordered: false,
        rows: rows_of(snapshot)?,
    })
}

fn failure_schema(alloc: Global) -> Result<Schema, Memory>
    ensures { IfOk result (λ schema. schema ≡ failure_columns) }
{
    schema_of(
        alloc,
        &[
            ("Cursor", Ty::Long),
            ("Source", Ty::Text),
            ("Target", Ty::Text),
            ("Failed", Ty::Text),
            ("Cause", Ty::Text),
        ],
    )
}

fn rows_of(snapshot: &Snapshot) -> Result<Rows, Memory>
    ensures { IfOk result (λ rows. rows ≡ failure_rows snapshot.now.history) }
{
    let count = snapshot.failure_count();
    let mut rows = Rows::new(snapshot.allocator());
    let mut at = 0;
    while at < count {
        let part = snapshot.failures_from(at);
        add_rows(snapshot, part, &mut rows)?;
        at += part.len();
    }
    Ok(rows)
}

// Adds a row for each of these failures behind others.
fn add_rows(
    snapshot: &Snapshot,
    failures: &[Arc<Noted, Global>],
    rows: &mut Rows,
) -> Result<(), Memory>
    requires { All (HasTypes failure_columns) rows.old }
    ensures { OnOk result (rows.new ≡ rows.old ++ map (failure_row (log snapshot.now.history)) (map arc_value failures.now)) }
{
    let mut row = Vec::new(snapshot.allocator());
    for noted in failures {
        fill_row(snapshot, noted, &mut row)?;
        rows.push_from(&mut row)?;
    }
    Ok(())
}

// Fills a row that has no cells yet.
fn fill_row(snapshot: &Snapshot, noted: &Noted, row: &mut Vec<Value>) -> Result<(), Memory>
    requires { row.old.items ≡ [] }
    ensures { OnOk result (row.new.items ≡ failure_row (log snapshot.now.history) noted.now) }
{
    let failure = noted.failure;
    row.push(number_cell(noted.cursor))?;
    row.push(Value::Text(table_name(snapshot, failure.source)?))?;
    row.push(Value::Text(table_name(snapshot, failure.target)?))?;
    row.push(Value::Text(table_name(snapshot, failure.failed)?))?;
    row.push(Value::Text(told(snapshot.allocator(), failure.cause)?))?;
    Ok(())
}

// A cause as it is told.
fn told(alloc: Global, cause: Cause) -> Result<Text, Memory>
    ensures { IfOk result (λ text. text ≡ cause_text cause) }
{
    match cause {
        Cause::Overflow { stage } => counted(alloc, "Overflow stage ", u64::from(stage)),
        Cause::Full { limit } => counted(alloc, "Full limit ", limit),
    }
}

// Words, and then a number in decimal.
fn counted(alloc: Global, words: &str, number: u64) -> Result<Text, Memory>
    ensures { IfOk result (λ text. text ≡ words.now ++ decimal number) }
{
    let mut digits = Buffer::new();
    let mut text = String::from_str(alloc, words)?;
    text.push_str(digits.format(number))?;
    Text::from_string(alloc, text)
}
