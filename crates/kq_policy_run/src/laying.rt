// Rows that are laid out as an extent.
ghost use Rattle.std.specs.Prelude.{◌≡◌, All, IfOk};
ghost use Rattle.kq_policy_cascade.specs.Lent.{HoldsRows};
ghost use Rattle.kq_catalog_journal.specs.History.{log};
ghost use Rattle.kq_catalog_journal.specs.Records.{schema_of};
ghost use Rattle.kq_value.specs.Typed.{HasTypes};

use kq_catalog::Snapshot;
use kq_store_extent::{Draft, TableExtents};
use kq_store_rows::Rows;
use kq_value::{Memory, Schema, Tags};
use std::alloc::Global;
use std::sync::Arc;

// Rows of a table as the records of one extent. Nothing looks at its id, its cursor or its tags.
pub(crate) fn lay_out(
    alloc: Global,
    snapshot: &Snapshot,
    table: u32,
    rows: &Rows,
) -> Result<TableExtents, Memory>
    requires { All (HasTypes (schema_of (log snapshot.now.history) table)) rows.now }
    ensures { IfOk result (λ held. HoldsRows held rows.now) }
{
    let draft = draft_of(alloc, snapshot, table, rows)?;
    // Its rows are not too many for one extent.
    let _count = draft.len();
    let mut extents = TableExtents::new(alloc);
    let extent = Arc::new(alloc, draft.stamp(0, 0, 0))?;
    extents.push(extent)?;
    Ok(extents)
}

fn draft_of(alloc: Global, snapshot: &Snapshot, table: u32, rows: &Rows) -> Result<Draft, Memory>
    requires { All (HasTypes (schema_of (log snapshot.now.history) table)) rows.now }
    ensures { IfOk result (λ d. d.rows ≡ rows.now) }
{
    let tags = Tags::new(alloc);
    match snapshot.table_at(table) {
        Some(target) => Draft::build(alloc, &target.schema, rows, tags),
        None => Draft::build(alloc, &Schema::new(alloc), rows, tags),
    }
}
