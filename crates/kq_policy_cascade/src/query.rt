// The query of one entry, and the batch of what it gives.
ghost use Rattle.std.specs.Prelude.{◌≡◌, ◌++◌, [], All, IfOk, OnOk, if◌then◌else◌, map};
ghost use Rattle.kq_catalog_journal.specs.Derived.{next_batch};
ghost use Rattle.kq_catalog_journal.specs.Force.{IsStanding};
ghost use Rattle.kq_policy_cascade.specs.Queried.{IsQueried};
ghost use Rattle.kq_catalog_journal.specs.Typed.{IsLead, IsTyped};
ghost use Rattle.kq_value.specs.Typed.{HasTypes};
ghost use Rattle.kq_store_rows.specs.Widened.{widened};

use crate::batch::{BatchRows, Given};
use crate::tables::{QueryFault, Tables};
use kq_catalog_journal::Due;
use kq_store_rows::{Cause, Rows, widen};
use kq_value::{Field, Memory, Tags, Value};
use std::alloc::Global;

// The most rows of a batch that comes of another.
const MOST_ROWS: u64 = 1048576;

// The rows that the query of an entry gives over a batch of its source, or the cause by which it fails.
pub(crate) fn query<T: Tables>(
    alloc: Global,
    tables: &T,
    due: Due,
    batch: &BatchRows,
) -> Result<Rows, QueryFault>
    requires standing { IsStanding (T.rules tables.now).policies due }
    requires typed { All (HasTypes ((T.rules tables.now).columns due.source)) batch.now.rows }
    ensures answer { IsQueried (T.gives tables.now) due batch.now.rows result }
    ensures typed { IfOk result (All (IsLead ((T.rules tables.now).columns due.target))) }
{
    match tables.run(alloc, due, batch) {
        Ok(given) if given.len() as u64 > MOST_ROWS => {
            Err(QueryFault::Fails(Cause::Full { limit: MOST_ROWS }))
        }
        Ok(given) => Ok(given),
        Err(fault) => Err(fault),
    }
}

// What a query gave, as a batch of the entry's target.
pub(crate) fn next_batch<T: Tables>(
    alloc: Global,
    tables: &T,
    batch: &BatchRows,
    due: Due,
    given: Rows,
) -> Result<BatchRows, Memory>
    requires { All (IsLead ((T.rules tables.now).columns due.target)) given }
    ensures batch { IfOk result (λ b. b ≡ next_batch (T.rules tables.now).columns batch.now due given) }
    ensures typed { IfOk result (IsTyped (T.rules tables.now).columns) }
{
    let rows = widen_all(alloc, tables.columns(due.target), given)?;
    Ok(BatchRows::new(
        due.target,
        Given::Rows(rows),
        tags_for(alloc, due, batch.tags())?,
    ))
}

fn tags_for(alloc: Global, due: Due, tags: &Tags) -> Result<Tags, Memory>
    ensures { IfOk result (λ own. own ≡ (if due.propagate then tags.now else [])) }
{
    if due.propagate {
        tags.clone_in()
    } else {
        Ok(Tags::new(alloc))
    }
}

// Rows widened to columns. Where they lack none they stay as they are.
fn widen_all(alloc: Global, fields: &[Field], rows: Rows) -> Result<Rows, Memory>
    requires { All (IsLead fields.now) rows }
    ensures { IfOk result (λ wide. wide ≡ map (widened fields.now) rows) }
{
    if rows.has_width(fields.len()) {
        return Ok(rows);
    }
    let mut wide = Rows::new(alloc);
    let mut row = Vec::new(alloc);
    for index in 0..rows.len() {
        put_copies(&mut row, rows.row(index))?;
        widen(fields, &mut row)?;
        wide.push_from(&mut row)?;
    }
    Ok(wide)
}

// Copies of these cells, after those that are there.
fn put_copies(row: &mut Vec<Value>, cells: &[Value]) -> Result<(), Memory>
    ensures { OnOk result (row.new.items ≡ row.old.items ++ cells.now) }
{
    row.extend_from_slice(cells)
}
