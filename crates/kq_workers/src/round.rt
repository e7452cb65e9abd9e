// One round of a worker.
ghost use Rattle.std.specs.Prelude.{◌≡◌, false, length};
ghost use Rattle.kq_engine.specs.Upkeeps.{IsThere, KeepsUp};
ghost use Rattle.kq_catalog_journal.specs.History.{log, tables, view_count};
ghost use Rattle.kq_workers.specs.Kept.{AreKept, AreKeptBelow, IsKept};
ghost use Rattle.kq_workers.specs.Rounds.{SeenGoesOn, HasRound, HasChores, TakesOne, wants_memory as wants_memory_by};

use crate::worker::{Post, Worker};
use kq_catalog_journal::By;
use kq_engine::{Outcome, Pass, Snapshot, Upkeep};
use kq_reply::{Refusal, Reply};
use kq_world::{Gate, Point};
use std::sync::Wait;

// Folds each view that is behind, and merges each table that has something to merge. True where something was done.
pub(crate) fn round<R: Wait, G: Gate>(post: &Post<R, G>, worker: &mut Worker) -> bool
    requires { worker.old.pass.of ≡ post.now.shared.now.turn }
    ensures round { HasRound post.now.shared.now.limits post.now.actor worker.old worker.new }
    ensures kept { worker.new.short ≡ false → AreKept worker.old.pass.seen worker.new.pass.seen }
{
    match worker.refused.look(post.rt, post.shared, &mut worker.pass) {
        Ok(snapshot) => keep_up(post, worker, &snapshot),
        Err(_) => {
            worker.short = true;
            false
        }
    }
}

// Folds and merges what was behind at a look. True where something was done.
fn keep_up<R: Wait, G: Gate>(post: &Post<R, G>, worker: &mut Worker, snapshot: &Snapshot) -> bool
    requires of { worker.old.pass.of ≡ post.now.shared.now.turn }
    requires since { SeenGoesOn post.now.shared.now.limits snapshot.now.history worker.old.pass.seen }
    ensures chores { HasChores post.now.shared.now.limits post.now.actor snapshot.now.history worker.old worker.new }
    ensures kept { worker.new.short ≡ false → AreKept snapshot.now.history worker.new.pass.seen }
{
    let folded = fold_views(post, worker, snapshot);
    let merged = merge_tables(post, worker, snapshot);
    folded || merged
}

fn fold_views<R: Wait, G: Gate>(post: &Post<R, G>, worker: &mut Worker, snapshot: &Snapshot) -> bool
    requires of { worker.old.pass.of ≡ post.now.shared.now.turn }
    requires since { SeenGoesOn post.now.shared.now.limits snapshot.now.history worker.old.pass.seen }
    ensures chores { HasChores post.now.shared.now.limits post.now.actor snapshot.now.history worker.old worker.new }
    ensures since { SeenGoesOn post.now.shared.now.limits snapshot.now.history worker.new.pass.seen }
    ensures kept { worker.new.short ≡ false → AreKeptBelow snapshot.now.history worker.new.pass.seen Upkeep.Fold (view_count (log snapshot.now.history)) }
{
    let mut moved = false;
    for view in 0..snapshot.view_count() {
        if tend(post, worker, snapshot, Upkeep::Fold(view)) {
            moved = true;
        }
    }
    moved
}

fn merge_tables<R: Wait, G: Gate>(
    post: &Post<R, G>,
    worker: &mut Worker,
    snapshot: &Snapshot,
) -> bool
    requires of { worker.old.pass.of ≡ post.now.shared.now.turn }
    requires since { SeenGoesOn post.now.shared.now.limits snapshot.now.history worker.old.pass.seen }
    ensures chores { HasChores post.now.shared.now.limits post.now.actor snapshot.now.history worker.old worker.new }
    ensures since { SeenGoesOn post.now.shared.now.limits snapshot.now.history worker.new.pass.seen }
    ensures kept { worker.new.short ≡ false → AreKeptBelow snapshot.now.history worker.new.pass.seen Upkeep.Merge (length (tables (log snapshot.now.history))) }
{
    let mut moved = false;
    for table in 0..snapshot.table_count() {
        if tend(post, worker, snapshot, Upkeep::Merge(table)) {
            moved = true;
        }
    }
    moved
}

// Takes a chore where there was something to do. True where something was done.
fn tend<R: Wait, G: Gate>(
    post: &Post<R, G>,
    worker: &mut Worker,
    snapshot: &Snapshot,
    upkeep: Upkeep,
) -> bool
    requires of { worker.old.pass.of ≡ post.now.shared.now.turn }
    requires since { SeenGoesOn post.now.shared.now.limits snapshot.now.history worker.old.pass.seen }
    requires there { IsThere (log snapshot.now.history) upkeep }
    ensures chores { HasChores post.now.shared.now.limits post.now.actor snapshot.now.history worker.old worker.new }
    ensures since { SeenGoesOn post.now.shared.now.limits snapshot.now.history worker.new.pass.seen }
    ensures kept { worker.new.short ≡ false → IsKept snapshot.now.history worker.new.pass.seen upkeep }
{
    if upkeep.is_wanted(snapshot) {
        chore(post, worker, upkeep)
    } else {
        false
    }
}

// One chore, under the next number. True where something was done; a refusal does nothing.
fn chore<R: Wait, G: Gate>(post: &Post<R, G>, worker: &mut Worker, upkeep: Upkeep) -> bool
    requires of { worker.old.pass.of ≡ post.now.shared.now.turn }
    requires there { IsThere (log worker.old.pass.seen) upkeep }
    ensures { TakesOne post.now.shared.now.limits post.now.actor worker.old worker.new upkeep }
{
    let actor = post.actor;
    let number = worker.number.saturating_add(1);
    post.gate.at(Point::Starting { actor, number });
    let outcome = apply(post, &mut worker.pass, By { actor, number }, upkeep);
    worker.number = number;
    worker.short = worker.short || wants_memory(&outcome.reply);
    post.gate.at(Point::Answered { actor, number });
    matches!(outcome.reply, Reply::Folded { .. } | Reply::Merged { .. })
}

fn apply<R: Wait, G: Gate>(post: &Post<R, G>, pass: &mut Pass, by: By, upkeep: Upkeep) -> Outcome
    requires of { pass.old.of ≡ post.now.shared.now.turn }
    requires there { IsThere (log pass.old.seen) upkeep }
    ensures { KeepsUp post.now.shared.now.limits pass.old pass.new by upkeep result }
{
    match upkeep {
        Upkeep::Fold(view) => post.shared.fold(post.rt, pass, by, view, post.gate),
        Upkeep::Merge(table) => post.shared.merge(post.rt, pass, by, table, post.gate),
    }
}

fn wants_memory(reply: &Reply) -> bool
    ensures { result ≡ wants_memory_by reply.now }
{
    matches!(reply, Reply::Refused(Refusal::Memory))
}
