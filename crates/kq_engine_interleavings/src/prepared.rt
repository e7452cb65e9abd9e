// Work that is prepared, and finished later.
ghost use Rattle.std.specs.Prelude.{◌≡◌, IfErr, IfOk, OnErr, false, take};
ghost use Rattle.kq_catalog.specs.Seen.{hist};
ghost use Rattle.kq_engine.specs.Acts.{Advances, WantsToFinish, outcome_of};
ghost use Rattle.kq_engine_prepare.specs.Fits.{FitsNow};
ghost use Rattle.kq_engine_prepare.specs.Found.{TakesMemory};
ghost use Rattle.kq_reply.specs.declared.refusal.Refusal.TheVariants as refusals;
ghost use Rattle.kq_reply.specs.declared.reply.Reply.TheVariants as replies;
ghost use Rattle.kq_engine_interleavings.specs.Steps.{BeginsWork, IsPrepared};

use kq_catalog::{Catalog, Snapshot};
use kq_engine::{Outcome, Work, conclude};
use kq_engine_prepare::{Alone, Found, look};
use kq_reply::Refusal;

/// Work, the place of the snapshot on which it was prepared, and what was found there.
#[derive(Drop)]
pub struct Prepared {
    pub work: Work,
    pub place: u64,
    pub found: Found,
}

/// Prepares the work on the snapshot, as `look` does. The place of a refusal is the snapshot's.
pub fn begin(snapshot: &Snapshot, work: Work) -> Result<Prepared, Refusal>
    ensures prepared { IfOk result (BeginsWork snapshot.now.limits snapshot.now.history work) }
    ensures refused { IfErr result (λ r. FitsNow snapshot.now.limits snapshot.now.history work.by work.command work.now false (replies.Refused r)) }
    ensures memory { IfErr result (λ r. r ≡ refusals.Memory → TakesMemory snapshot.now.history work.command) }
{
    let found = look(snapshot, &work.command, &Alone, work.now)?;
    Ok(Prepared {
        work,
        place: snapshot.place(),
        found,
    })
}

/// Makes at most one event of what was prepared, as `conclude` does.
pub fn finish(catalog: &mut Catalog, prepared: Prepared) -> Result<Outcome, Refusal>
    requires { IsPrepared catalog.old.limits (take prepared.place (hist catalog.old)) prepared }
    ensures limits { catalog.new.limits ≡ catalog.old.limits }
    ensures kept { OnErr result (catalog.new ≡ catalog.old) }
    ensures step { Advances catalog.old.limits (hist catalog.old) (hist catalog.new) prepared.work prepared.place (outcome_of (hist catalog.new) result) }
    ensures memory { WantsToFinish prepared.place (hist catalog.new) prepared.work.command prepared.found (outcome_of (hist catalog.new) result) }
{
    let Prepared { work, place, found } = prepared;
    conclude(catalog, &work, place, found)
}
