// A worker's rounds.
ghost use Rattle.std.specs.Prelude.{◌≡◌, ◌<◌, ℕ, false, length};
ghost use Rattle.kq_catalog_journal.specs.History.{log, tables, view_count};
ghost use Rattle.kq_workers.specs.Kept.{AreKept, IsForward, IsMerged};
ghost use Rattle.kq_workers.specs.Rounds.{HasRounds, Works};

use crate::rest::Rest;
use crate::round::round;
use crate::worker::{Post, Worker};
use kq_engine::{Pass, Shared};
use kq_world::Gate;
use std::sync::Wait;
use std::sync::atomic::{AtomicBool, Ordering};

/// What a worker hands back: its pass, how many of its looks were refused for want of memory, and whether memory was wanting
/// at all: for a look or for a chore.
#[derive(Drop)]
pub struct Worked {
    pub pass: Pass,
    pub refused: u64,
    pub short: bool,
}

/// Works until `stop` is set, which is looked at after each round. In a round each view that is behind the cursor is folded,
/// and each table that has something to merge is merged; a refusal ends nothing. Where a round did nothing the worker
/// rests, for at most 50 milliseconds. Others may work and be served at the same time, each with a pass of its own. It
/// waits.
pub fn work<R: Wait, G: Gate>(
    rt: &R,
    shared: &Shared,
    pass: Pass,
    actor: u32,
    gate: &G,
    stop: &AtomicBool,
) -> Worked
    requires { pass.of ≡ shared.now.turn }
    ensures pass { Works shared.now.limits actor pass result.pass result.refused result.short }
    ensures views { result.short ≡ false → (view : ℕ) → view < view_count (log pass.seen) → IsForward pass.seen result.pass.seen view }
    ensures tables { result.short ≡ false → (table : ℕ) → table < length (tables (log pass.seen)) → IsMerged pass.seen result.pass.seen table }
{
    let post = Post {
        rt,
        shared,
        actor,
        gate,
    };
    let mut worker = Worker::begun(pass);
    go_rounds(&post, &mut worker, stop);
    let Worker {
        pass,
        refused,
        number: _,
        short,
    } = worker;
    let refused = refused.count();
    Worked {
        pass,
        refused,
        short,
    }
}

fn go_rounds<R: Wait, G: Gate>(post: &Post<R, G>, worker: &mut Worker, stop: &AtomicBool)
    requires { worker.old.pass.of ≡ post.now.shared.now.turn }
    ensures rounds { HasRounds post.now.shared.now.limits post.now.actor worker.old worker.new }
    ensures kept { worker.new.short ≡ false → AreKept worker.old.pass.seen worker.new.pass.seen }
{
    let mut rest = Rest::new();
    for _ in post.rt.forever() {
        let moved = round(post, worker);
        if stop.load(Ordering::SeqCst) {
            return;
        }
        rest = rest.after(post.rt, moved);
    }
    unreachable!()
}
