// The rows of views.
ghost use Rattle.std.specs.Prelude.{◌≡◌, ◌<◌, ◌≤◌, ◌+◌, ◌^◌, IfOk, Some, if◌then◌else◌, length, nat_lt};
ghost use Rattle.kq_store_extent.specs.Seen.{held_extents, held_records};
ghost use Rattle.kq_run_plan.specs.kq_run_gather.Bodies.{columns_read};
ghost use Rattle.kq_catalog_journal.specs.declared.view.View.{View as Seen};
ghost use Rattle.kq_catalog_journal.specs.History.{log, view_count};
ghost use Rattle.kq_run_plan.specs.kq_run_scan.Ranges.{count_read, rows_between};
ghost use Rattle.kq_run_plan.specs.Operators.{AnswersOne};
ghost use Rattle.kq_plan.specs.Plans.{planned_of};
ghost use Rattle.kq_engine_query.specs.Views.{ViewGives, looked_at, up_to, view_numbered};

use crate::made::copy_of;
use kq_catalog::Snapshot;
use kq_catalog_journal::View;
use kq_plan::{LeafKind, Plan};
use kq_run_plan::{Held, records_later};
use kq_store_extent::TableExtents;
use kq_store_rows::Rows;
use kq_value::{EvalFault, Field, Memory};
use kq_view_fold::view_rows;
use std::alloc::Global;

/// The rows of a view by its number: over all records that it covers, or over those of its part alone. They come from its part and the records behind
/// its cursor; `read` rises by the number of records that were looked at.
pub fn view_rows_of(
    snapshot: &Snapshot,
    number: u32,
    kind: LeafKind,
    read: &mut u64,
) -> Result<Rows, EvalFault>
    requires stands { number < view_count (log snapshot.now.history) }
    requires read { read.old < 2 ^ 63 }
    ensures rows { (v : Seen) → view_numbered snapshot.now.history number ≡ Some v → AnswersOne (ViewGives snapshot.now.history kind number v) result }
    ensures read { (v : Seen) → view_numbered snapshot.now.history number ≡ Some v → read.new ≤ read.old + looked_at snapshot.now.history kind number v }
{
    match snapshot.view_at(number) {
        Some(view) => rows_of_view(snapshot, number, view, kind, read),
        None => unreachable!(),
    }
}

// The same of a view that is at hand.
pub(crate) fn rows_of_view(
    snapshot: &Snapshot,
    number: u32,
    view: &View,
    kind: LeafKind,
    read: &mut u64,
) -> Result<Rows, EvalFault>
    requires stands { view_numbered snapshot.now.history number ≡ Some view.now }
    requires read { read.old < 2 ^ 63 }
    ensures rows { AnswersOne (ViewGives snapshot.now.history kind number view.now) result }
    ensures read { read.new ≤ read.old + looked_at snapshot.now.history kind number view.now }
{
    let alloc = snapshot.allocator();
    let cursor = snapshot.cursor();
    let mark = snapshot.view_cursor(number);
    let extents = snapshot.extents(view.source);
    let to = up_to(kind, mark, cursor);
    let rows = rows_behind(alloc, extents, &view.body, mark, to, read)?;
    view_rows(alloc, &view.body, snapshot.part(number), &rows)
}

fn up_to(kind: LeafKind, mark: u64, cursor: u64) -> u64
    ensures { result ≡ up_to kind mark cursor }
{
    match kind {
        LeafKind::Part => mark,
        LeafKind::Table | LeafKind::View => cursor,
    }
}

// The rows of the records in a range of cursors, under the columns that a body reads. No record is looked at where the range has none.
fn rows_behind(
    alloc: Global,
    extents: &TableExtents,
    body: &Plan,
    above: u64,
    to: u64,
    read: &mut u64,
) -> Result<Held, Memory>
    requires read { read.old < 2 ^ 63 }
    requires few { length (held_records extents.now) < 2 ^ 63 }
    ensures rows { IfOk result (λ rows. rows ≡ rows_between above to (columns_read (planned_of body.now)) (held_records extents.now)) }
    ensures read { read.new ≤ read.old + (if nat_lt above to then count_read above (held_extents extents.now) else 0) }
{
    if above < to {
        let rows = read_between(alloc, extents, body, above, to)?;
        *read += records_later(extents, above);
        Ok(rows)
    } else {
        Ok(Held::own(Rows::new(alloc)))
    }
}

/// The rows of the records with a cursor above the one and not above the other, under the columns that a body reads. None is copied.
pub fn read_between(
    alloc: Global,
    extents: &TableExtents,
    body: &Plan,
    above: u64,
    to: u64,
) -> Result<Held, Memory>
    requires { length (held_records extents.now) < 2 ^ 63 }
    ensures { IfOk result (λ rows. rows ≡ rows_between above to (columns_read (planned_of body.now)) (held_records extents.now)) }
{
    let columns = copy_of(alloc, columns_read(body))?;
    Held::between(alloc, extents.share()?, columns, above, to)
}

// The columns under which a body reads its table.
fn columns_read(body: &Plan) -> &[Field]
    ensures { result.now ≡ columns_read (planned_of body.now) }
{
    match body.steps.first() {
        Some(step) => step.columns.as_slice(),
        None => &[],
    }
}
