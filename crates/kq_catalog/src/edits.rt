// Commits with their edits.
ghost use Rattle.std.specs.Prelude.{ℕ, ◌≡◌, ◌<◌, ◌+◌, ◌^◌, IfOk, length, map};
ghost use Rattle.kq_catalog.specs.declared.intent.Intent.TheVariants.{CreateTable, SetPolicy, CreateView, AlterMerge, Ingest};
ghost use Rattle.kq_catalog.specs.Edits.{AreEdits, total_rows};
ghost use Rattle.kq_catalog.specs.Intents.{batch_of};

use crate::edit::Change;
use crate::held_view::HeldView;
use crate::intent::Part;
use crate::ordinals::{give_rows, rows_given};
use kq_catalog_journal::{Batch, Batches, Commit, Entries, Failures, SharedView, Table};
use kq_run_shards::Parted;
use kq_value::{Memory, Schema, Text};
use std::alloc::Global;
use std::collections::HashMap;
use std::sync::Arc;

// A commit, the changes that it makes of tables, the view that it makes, and the number of extents among the changes.
#[derive(Drop)]
pub(crate) struct Edits {
    pub commit: Commit,
    pub changes: Vec<Change>,
    pub view: Option<HeldView>,
    pub made: u64,
}

// The edits of a new table.
pub(crate) fn table_edits(
    alloc: Global,
    cursor: u64,
    name: Text,
    schema: Schema,
) -> Result<Edits, Memory>
    ensures { (id : ℕ) → IfOk result (AreEdits cursor id (CreateTable name schema)) }
{
    let table = Table {
        name: name.clone_in()?,
        schema: schema.clone_in()?,
        made: cursor,
        widened: cursor,
    };
    let mut changes = Vec::with_capacity(alloc, 1)?;
    changes.push(Change::PutTable(Arc::new(alloc, table)?))?;
    Ok(Edits {
        commit: Commit::CreateTable { name, schema },
        changes,
        view: None,
        made: 0,
    })
}

// The edits of a table's update policy.
pub(crate) fn policy_edits(alloc: Global, table: u32, entries: Entries) -> Edits
    ensures { (cursor id : ℕ) → AreEdits cursor id (SetPolicy table entries) result }
{
    Edits {
        commit: Commit::SetPolicy { table, entries },
        changes: Vec::new(alloc),
        view: None,
        made: 0,
    }
}

// The edits of a new view.
pub(crate) fn view_edits(
    alloc: Global,
    cursor: u64,
    view: SharedView,
    part: Parted,
) -> Result<Edits, Memory>
    ensures { (id : ℕ) → IfOk result (AreEdits cursor id (CreateView view part)) }
{
    Ok(Edits {
        commit: Commit::CreateView(view.share()?),
        changes: Vec::new(alloc),
        view: Some(HeldView::new(view, cursor, part)),
        made: 0,
    })
}

// The edits of further columns of a table.
pub(crate) fn column_edits(
    alloc: Global,
    cursor: u64,
    table: u32,
    columns: Schema,
) -> Result<Edits, Memory>
    ensures { (id : ℕ) → IfOk result (AreEdits cursor id (AlterMerge table columns)) }
{
    let mut changes = Vec::with_capacity(alloc, 1)?;
    changes.push(Change::PutColumns {
        table,
        cursor,
        columns: columns.clone_in()?,
    })?;
    Ok(Edits {
        commit: Commit::AlterMerge { table, columns },
        changes,
        view: None,
        made: 0,
    })
}

// The edits of an ingestion: each part becomes an extent, under the ids from `id` on.
pub(crate) fn part_edits(
    alloc: Global,
    cursor: u64,
    id: u64,
    parts: Vec<Part>,
    failures: Failures,
) -> Result<Edits, Memory>
    requires rows { total_rows (map batch_of parts.items) < 2 ^ 63 }
    requires ids { id + length parts.items < 2 ^ 64 }
    ensures { IfOk result (AreEdits cursor id (Ingest parts failures)) }
{
    let mut batches = Batches::new(alloc);
    let mut changes = Vec::with_capacity(alloc, parts.len())?;
    let mut given = HashMap::new(alloc);
    let mut next = id;
    for part in parts {
        let Part { table, draft } = part;
        let first = rows_given(&given, table);
        let tags = draft.tags().clone_in()?;
        let rows = draft.recorded();
        let count = rows.len();
        give_rows(&mut given, table, count)?;
        let extent = Arc::new(alloc, draft.stamp(next, cursor, first))?;
        changes.push(Change::PutExtent { table, extent })?;
        batches.push(Batch { table, rows, tags })?;
        next += 1;
    }
    Ok(Edits {
        commit: Commit::Ingest { batches, failures },
        made: changes.len() as u64,
        changes,
        view: None,
    })
}
