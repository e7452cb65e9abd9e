// An ingestion, with what comes of it by the update policies.
ghost use Rattle.std.specs.Prelude.{◌≡◌, All, IfErr, IfOk, None, Some, length, map, nat_lt, true};
ghost use Rattle.std.specs.List.{slice_get};
ghost use Rattle.kq_policy_cascade.specs.Makes.{RefusesBy};
ghost use Rattle.kq_catalog.specs.Intents.{batch_of};
ghost use Rattle.kq_read_commands.specs.declared.command.Change.TheVariants as changes;
ghost use Rattle.kq_engine_prepare.specs.Due.{IsDueByLog, IsRowsDue, counted, refusal_of as refusal_by};
ghost use Rattle.kq_engine_prepare.specs.Found.{Finds, FindsRead, OffersCommit, OffersRead, OffersInto, OffersRows, Stands, refusal_by_cascade};
ghost use Rattle.kq_catalog_journal.specs.declared.event.Commit.TheVariants as commits;
ghost use Rattle.kq_catalog_journal.specs.History.{log, tables, table_numbered};
ghost use Rattle.kq_catalog_journal.specs.Records.{schema_of};
ghost use Rattle.kq_catalog_journal.specs.Tagged.{least_tagged};
ghost use Rattle.kq_catalog_journal.specs.Typed.{IsTyped};
ghost use Rattle.kq_reply.specs.declared.refusal.Refusal.TheVariants as refusals;
ghost use Rattle.kq_engine_show.specs.JournalRows.{name_of};
ghost use Rattle.kq_value.specs.Typed.{HasTypes};

use crate::changes::has_room;
use crate::found::{Barring, Found, Offer};
use crate::offers::is_alone;
use crate::tags::{Labels, least_cursor, read_labels};
use kq_catalog::{Intent, Part, Snapshot};
use kq_catalog_journal::Table;
use kq_policy_cascade::{BatchRows, CascadeFault, Derived, Given};
use kq_policy_run::{derive, looked};
use kq_read_commands::Ingestion;
use kq_reply::{Refusal, Reply};
use kq_store_extent::{Columns, Draft};
use kq_store_ingest::{IngestFault, read_rows};
use kq_store_rows::Rows;
use kq_value::{Memory, Schema, Tags, Text};

// What an ingestion is due whose text is good.
pub(crate) fn ingest(snapshot: &Snapshot, ingestion: &Ingestion) -> Result<Found, Refusal>
    ensures due { Finds (IsDueByLog snapshot.now.limits (log snapshot.now.history) (changes.Ingest ingestion.now)) result }
    ensures offers { IfOk result (OffersInto snapshot.now.limits (log snapshot.now.history) ingestion.now) }
    ensures memory { IfErr result (λ r. r ≡ refusals.Memory → Stands (table_numbered ingestion.now.table.text (tables (log snapshot.now.history)))) }
{
    let name = &ingestion.table;
    let Some((number, table)) = snapshot.table(&name.text) else {
        return Err(Refusal::Unknown { at: name.at as u64 });
    };
    read(snapshot, number, table, ingestion)
}

// The tags and the rows of an ingestion into a table that stands.
fn read(
    snapshot: &Snapshot,
    number: u32,
    table: &Table,
    ingestion: &Ingestion,
) -> Result<Found, Refusal>
    requires { slice_get (tables (log snapshot.now.history)) number ≡ Some table.now }
    ensures due { Finds (IsRowsDue snapshot.now.limits (log snapshot.now.history) ingestion.now (record { number = number; table = table.now })) result }
    ensures offers { IfOk result (OffersRows snapshot.now.limits (log snapshot.now.history) ingestion.now (record { number = number; table = table.now })) }
{
    let alloc = snapshot.allocator();
    let properties = &ingestion.properties;
    let labels = read_labels(alloc, properties)?;
    let limit = snapshot.limits().batch;
    let body = ingestion.body.as_str();
    match read_rows(alloc, body, &table.schema, properties.ignore_first, limit) {
        Ok(rows) => put_rows(snapshot, number, table, rows, labels),
        Err(fault) => Err(refusal_of(fault)),
    }
}

fn refusal_of(fault: IngestFault) -> Refusal
    ensures { result ≡ refusal_by fault }
{
    match fault {
        IngestFault::WideRow { row } => Refusal::WideRow { row },
        IngestFault::Full { limit } => Refusal::Full { limit },
        IngestFault::Memory => Refusal::Memory,
    }
}

// What comes of the rows, unless a tag bars them, which takes no memory.
fn put_rows(
    snapshot: &Snapshot,
    number: u32,
    table: &Table,
    rows: Columns,
    labels: Labels,
) -> Result<Found, Refusal>
    requires stands { slice_get (tables (log snapshot.now.history)) number ≡ Some table.now }
    requires typed { All (HasTypes table.now.schema) rows }
    ensures due { FindsRead snapshot.now (record { number = number; table = table.now }) rows labels result }
    ensures offers { OffersRead snapshot.now (record { number = number; table = table.now }) rows labels result }
    ensures memory { IfErr result (λ r. r ≡ refusals.Memory → least_tagged (log snapshot.now.history) number labels.barring ≡ None) }
{
    let Labels { tags, barring } = labels;
    if let Some(cursor) = least_cursor(snapshot, number, barring.as_slice()) {
        return Ok(Found::Says(Reply::Skipped { cursor }));
    }
    match derive(snapshot, number, rows, tags) {
        Ok(derived) => {
            let looked = looked(snapshot, derived.asked.as_slice())?;
            let unless = Some(Barring {
                table: number,
                widened: table.widened,
                tags: barring,
                looked,
                alone: is_alone(snapshot, number),
            });
            put_derived(snapshot, derived, unless)
        }
        Err(fault) => Err(refusal_of_cascade(snapshot, fault)?),
    }
}

fn refusal_of_cascade(snapshot: &Snapshot, fault: CascadeFault) -> Result<Refusal, Memory>
    ensures { IfOk result (λ r. r ≡ refusal_by_cascade (log snapshot.now.history) fault) }
{
    Ok(match fault {
        CascadeFault::PolicyFailed { target, cause } => Refusal::PolicyFailed {
            target: name_of_table(snapshot, target)?,
            cause,
        },
        CascadeFault::Full { limit } => Refusal::Full { limit },
        CascadeFault::Memory => Refusal::Memory,
    })
}

fn name_of_table(snapshot: &Snapshot, number: u32) -> Result<Text, Memory>
    ensures { IfOk result (λ t. t ≡ name_of (log snapshot.now.history) number) }
{
    match snapshot.table_at(number) {
        Some(table) => table.name.clone_in(),
        None => Text::from_str(snapshot.allocator(), ""),
    }
}

// The commit of all that came of a batch, where one more is allowed: only then what queries gave is laid out in columns.
fn put_derived(
    snapshot: &Snapshot,
    derived: Derived,
    unless: Option<Barring>,
) -> Result<Found, Refusal>
    requires { All (IsTyped (schema_of (log snapshot.now.history))) derived.batches.items }
    ensures due { Finds (λ due. due ≡ counted snapshot.now.limits (log snapshot.now.history) (commits.Ingest derived.batches.items derived.failures)) result }
    ensures offers { IfOk result (OffersCommit snapshot.now.limits (log snapshot.now.history) (commits.Ingest derived.batches.items derived.failures) unless) }
    ensures memory { IfErr result (λ r. r ≡ refusals.Memory → nat_lt (length (log snapshot.now.history)) snapshot.now.limits.commits ≡ true) }
{
    if !has_room(snapshot) {
        return Err(Refusal::Full {
            limit: snapshot.limits().commits,
        });
    }
    let Derived {
        batches,
        failures,
        asked: _,
    } = derived;
    let parts = parts_of(snapshot, batches)?;
    Ok(Found::Commits(Offer {
        intent: Intent::Ingest { parts, failures },
        unless,
    }))
}

// A part for each batch, under the columns of its table.
fn parts_of(snapshot: &Snapshot, batches: Vec<BatchRows>) -> Result<Vec<Part>, Memory>
    requires { All (IsTyped (schema_of (log snapshot.now.history))) batches.items }
    ensures { IfOk result (λ parts. map batch_of parts.items ≡ batches.items) }
{
    let mut parts = Vec::new(snapshot.allocator());
    for batch in batches {
        parts.push(part_of(snapshot, batch)?)?;
    }
    Ok(parts)
}

fn part_of(snapshot: &Snapshot, batch: BatchRows) -> Result<Part, Memory>
    requires { IsTyped (schema_of (log snapshot.now.history)) batch }
    ensures { IfOk result (λ part. batch_of part ≡ batch) }
{
    let (table, given, tags) = batch.into_parts();
    let draft = match given {
        Given::Columns(columns) => Draft::of(snapshot.allocator(), columns, tags)?,
        Given::Rows(rows) => draft_of(snapshot, table, &rows, tags)?,
    };
    Ok(Part { table, draft })
}

// Rows under the columns of a table.
fn draft_of(snapshot: &Snapshot, table: u32, rows: &Rows, tags: Tags) -> Result<Draft, Memory>
    requires { All (HasTypes (schema_of (log snapshot.now.history) table)) rows.now }
    ensures { IfOk result (λ draft. draft ≡ record { rows = rows.now; tags = tags }) }
{
    let alloc = snapshot.allocator();
    match snapshot.table_at(table) {
        Some(target) => Draft::build(alloc, &target.schema, rows, tags),
        None => Draft::build(alloc, &Schema::new(alloc), rows, tags),
    }
}
