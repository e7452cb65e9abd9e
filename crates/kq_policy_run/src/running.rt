// The query of an entry over the rows of a batch.
ghost use Rattle.std.specs.Prelude.{◌≡◌, All, IfOk, Some, slice_get};
ghost use Rattle.kq_policy_cascade.specs.Queried.{AnswersEntry};
ghost use Rattle.kq_catalog.specs.Seen.{Sound};
ghost use Rattle.kq_catalog_journal.specs.Beside.{DueGives, EntryGives, TellsCause};
ghost use Rattle.kq_catalog_journal.specs.Force.{IsStanding, policy_at};
ghost use Rattle.kq_catalog_journal.specs.History.{log};
ghost use Rattle.kq_catalog_journal.specs.Policies.{policies};
ghost use Rattle.kq_catalog_journal.specs.Records.{schema_of};
ghost use Rattle.kq_catalog_journal.specs.Typed.{IsLead};
ghost use Rattle.kq_value.specs.Typed.{HasTypes};
ghost use Rattle.kq_policy_run.specs.World.{IsNoCell};

use crate::beside::Beside;
use kq_catalog::Snapshot;
use kq_catalog_journal::{Due, Entry};
use kq_policy_cascade::{BatchRows, QueryFault};
use kq_run_plan::{Outcome, run_plan};
use kq_store_rows::{Cause, Rows};
use std::alloc::Global;

// What the query of an entry gives over a batch of its source, by the entry's place.
pub(crate) fn run_due(
    alloc: Global,
    snapshot: &Snapshot,
    due: Due,
    batch: &BatchRows,
) -> Result<Rows, QueryFault>
    requires standing { IsStanding (policies (log snapshot.now.history)) due }
    requires typed { All (HasTypes (schema_of (log snapshot.now.history) due.source)) batch.now.rows }
    ensures answer { AnswersEntry (DueGives (log snapshot.now.history) due batch.now.rows) result }
    ensures typed { IfOk result (All (IsLead (schema_of (log snapshot.now.history) due.target))) }
{
    // The snapshot is sound.
    let _cursor = snapshot.cursor();
    let entry = &snapshot.entries(due.target)[due.place];
    run_entry(alloc, snapshot, due, entry, batch)
}

// The same of an entry that is at hand.
fn run_entry(
    alloc: Global,
    snapshot: &Snapshot,
    due: Due,
    entry: &Entry,
    batch: &BatchRows,
) -> Result<Rows, QueryFault>
    requires sound { Sound snapshot.now }
    requires stands { slice_get (policy_at (policies (log snapshot.now.history)) due.target) due.place ≡ Some entry.now }
    requires typed { All (HasTypes (schema_of (log snapshot.now.history) entry.now.source)) batch.now.rows }
    ensures { AnswersEntry (EntryGives (log snapshot.now.history) entry.now batch.now.rows) result }
{
    let tables = Beside::new(snapshot, entry.source, batch, &entry.plan);
    let outcome = run_plan(alloc, &entry.plan, &tables, 0)?;
    told(alloc, outcome)
}

fn told(alloc: Global, outcome: Outcome) -> Result<Rows, QueryFault>
    requires { IsNoCell outcome }
    ensures { AnswersEntry (TellsCause outcome) result }
{
    match outcome {
        Outcome::Table { rows, .. } => Ok(rows.into_rows(alloc)?),
        Outcome::Cell(_) => unreachable!(),
        Outcome::Overflow { stage } => Err(QueryFault::Fails(Cause::Overflow { stage })),
        Outcome::Full { limit } => Err(QueryFault::Fails(Cause::Full { limit })),
    }
}
