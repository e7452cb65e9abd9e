// What a change is due, over a snapshot.
ghost use Rattle.std.specs.Prelude.{◌≡◌, ◌≢◌, ◌<◌, [], IfErr, IfOk, None, length, nat_lt};
ghost use Rattle.std.specs.Option.{option_copied};
ghost use Rattle.kq_read_commands.specs.declared.command.Change.TheVariants as changes;
ghost use Rattle.kq_read_commands.specs.declared.command.Command.TheVariants as commands;
ghost use Rattle.kq_read_commands.specs.Columns.{schema_of};
ghost use Rattle.kq_read_commands.specs.Widening.{new_columns};
ghost use Rattle.kq_engine_prepare.specs.Due.{IsDueByLog, kept_due, lacked_due, made_due, new_due, table_due};
ghost use Rattle.kq_engine_prepare.specs.Found.{Finds, Gains, OffersChange, TakesToFind};
ghost use Rattle.kq_catalog_journal.specs.History.{log, tables, table_named, table_numbered};
ghost use Rattle.kq_reply.specs.declared.refusal.Refusal.TheVariants as refusals;

use crate::found::{Found, Offer};
use crate::ingestions::ingest;
use crate::new_views::create_view;
use crate::policies::set_policy;
use kq_catalog::{Intent, Snapshot};
use kq_catalog_journal::Table;
use kq_read_commands::{Change, Columns, Identifier};
use kq_reply::{Refusal, Reply};
use kq_value::Text;

// What a change is due whose text is good. The rows of an ingestion are read here.
pub(crate) fn find_change(snapshot: &Snapshot, change: &Change) -> Result<Found, Refusal>
    ensures due { Finds (IsDueByLog snapshot.now.limits (log snapshot.now.history) change.now) result }
    ensures offers { IfOk result (OffersChange snapshot.now.limits (log snapshot.now.history) change.now) }
    ensures memory { IfErr result (λ r. r ≡ refusals.Memory → TakesToFind snapshot.now.history (commands.Change change.now)) }
{
    match change {
        Change::CreateTable { name, columns } => create(snapshot, name, columns),
        Change::AlterMerge { name, columns } => alter(snapshot, name, columns),
        Change::Ingest(ingestion) => ingest(snapshot, ingestion),
        Change::CreateView(view) => create_view(snapshot, view),
        Change::SetPolicy { target, policy } => set_policy(snapshot, target, policy),
    }
}

/// Whether one more commit is allowed.
pub fn has_room(snapshot: &Snapshot) -> bool
    ensures { result ≡ nat_lt (length (log snapshot.now.history)) snapshot.now.limits.commits }
{
    snapshot.cursor() < snapshot.limits().commits
}

fn create(snapshot: &Snapshot, name: &Identifier, columns: &Columns) -> Result<Found, Refusal>
    ensures due { Finds (λ due. due ≡ table_due snapshot.now.limits (log snapshot.now.history) name.now (schema_of columns.now)) result }
    ensures memory { IfErr result (λ r. r ≡ refusals.Memory → table_named name.now.text (tables (log snapshot.now.history)) ≡ None) }
    ensures some { 0 < length columns.now }
{
    let limit = snapshot.limits().columns;
    if columns.len() as u64 > limit {
        return Err(Refusal::Full { limit });
    }
    match table_of(snapshot, &name.text) {
        Some(table) => keep(name, columns, table),
        None => make(snapshot, name, columns),
    }
}

fn table_of<'a>(snapshot: &'a Snapshot, name: &Text) -> Option<&'a Table>
    ensures { option_copied result ≡ table_named name.now (tables (log snapshot.now.history)) }
{
    let (_number, table) = snapshot.table(name)?;
    Some(table)
}

// The table stands that has the name.
fn keep(name: &Identifier, columns: &Columns, table: &Table) -> Result<Found, Refusal>
    ensures due { Finds (λ due. due ≡ kept_due name.now (schema_of columns.now) table.now) result }
    ensures no_memory { IfErr result (λ r. r ≢ refusals.Memory) }
{
    if columns.are(&table.schema) {
        Ok(Found::Says(Reply::Kept { cursor: table.made }))
    } else {
        Err(Refusal::Exists { at: name.at as u64 })
    }
}

// No table has the name.
fn make(snapshot: &Snapshot, name: &Identifier, columns: &Columns) -> Result<Found, Refusal>
    ensures { Finds (λ due. due ≡ new_due snapshot.now.limits (log snapshot.now.history) name.now (schema_of columns.now)) result }
{
    if snapshot.is_view(&name.text) {
        Err(Refusal::Exists { at: name.at as u64 })
    } else {
        make_new(snapshot, name, columns)
    }
}

// Neither a table nor a view has the name.
fn make_new(snapshot: &Snapshot, name: &Identifier, columns: &Columns) -> Result<Found, Refusal>
    ensures { Finds (λ due. due ≡ made_due snapshot.now.limits (log snapshot.now.history) name.now (schema_of columns.now)) result }
{
    let limits = snapshot.limits();
    if snapshot.table_count() as u64 >= limits.tables {
        return Err(Refusal::Full {
            limit: limits.tables,
        });
    }
    if !has_room(snapshot) {
        return Err(Refusal::Full {
            limit: limits.commits,
        });
    }
    let name = name.text.clone_in()?;
    let schema = columns.schema()?;
    Ok(Found::Commits(Offer {
        intent: Intent::CreateTable { name, schema },
        unless: None,
    }))
}

fn alter(snapshot: &Snapshot, name: &Identifier, columns: &Columns) -> Result<Found, Refusal>
    ensures due { Finds (IsDueByLog snapshot.now.limits (log snapshot.now.history) (changes.AlterMerge name.now columns.now)) result }
    ensures memory { IfErr result (λ r. r ≡ refusals.Memory → Gains columns.now (table_numbered name.now.text (tables (log snapshot.now.history)))) }
{
    let Some((number, table)) = snapshot.table(&name.text) else {
        return Err(Refusal::Unknown { at: name.at as u64 });
    };
    match columns.first_clash(&table.schema) {
        Some(at) => Err(Refusal::Mistyped { at: at as u64 }),
        None => widen(snapshot, number, table, columns),
    }
}

// The table has none of the columns with another type.
fn widen(
    snapshot: &Snapshot,
    number: u32,
    table: &Table,
    columns: &Columns,
) -> Result<Found, Refusal>
    ensures due { Finds (λ due. due ≡ lacked_due snapshot.now.limits (log snapshot.now.history) (record { number = number; table = table.now }) columns.now) result }
    ensures memory { IfErr result (λ r. r ≡ refusals.Memory → new_columns table.now.schema columns.now ≢ []) }
{
    let new = columns.count_new(&table.schema);
    if new == 0 {
        return Ok(Found::Says(Reply::Kept {
            cursor: table.widened,
        }));
    }
    let limits = snapshot.limits();
    if (table.schema.len() as u64).saturating_add(new as u64) > limits.columns {
        return Err(Refusal::Full {
            limit: limits.columns,
        });
    }
    if !has_room(snapshot) {
        return Err(Refusal::Full {
            limit: limits.commits,
        });
    }
    Ok(Found::Commits(Offer {
        intent: Intent::AlterMerge {
            table: number,
            columns: columns.new_columns(snapshot.allocator(), &table.schema)?,
        },
        unless: None,
    }))
}
