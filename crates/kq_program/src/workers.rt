// Workers beside the sessions.
ghost use Rattle.std.specs.Prelude.{◌≡◌, ◌<◌, ◌≤◌, ◌+◌, ◌∷◌, [], length, true, vec_capacity};
ghost use Rattle.kq_program.specs.Together.{IsUnasked, Passed, ServedBeside};
ghost use Rattle.kq_program.specs.Whole.{RestsOrWorks};
ghost use Rattle.kq_workers.specs.Rounds.{is_upkeep};

use crate::ended::EndedSession;
use crate::opened::OpenedSession;
use crate::together::{Together, serve_all};
use kq_session::Exporter;
use kq_workers::{Pass, Shared, work};
use kq_world::{Clock, Gate, Sink, Source};
use std::alloc::Global;
use std::sync::Wait;
use std::sync::atomic::{AtomicBool, Ordering};
use std::thread;
use std::thread::Threads;

// The workers' actors begin after the sessions'.
const FIRST_WORKER: u32 = 8;

// The actor of a worker by its number, from 0.
fn actor_of(worker: u32) -> u32
    requires { worker < 8 }
    ensures { result ≡ 8 + worker }
{
    FIRST_WORKER + worker
}

// Serves the sessions as `serve_all` does. Beside them each worker works in a thread of its own, until all sessions have
// ended, when `stop` is set. A worker for which no thread can be made is left out.
pub(crate) fn serve_beside_workers<
    R: Threads + Wait + Sync,
    S: Source + Send,
    K: Sink + Send,
    C: Clock + Send,
    G: Gate + Sync,
    E: Exporter,
>(
    rt: &R,
    alloc: Global,
    shared: &Shared,
    pass: Pass,
    workers: u32,
    stop: &AtomicBool,
    first: OpenedSession<S, K, C>,
    exporter: E,
    feeds: Vec<OpenedSession<S, K, C>>,
    sessions: Vec<EndedSession<S, K, C>>,
    gate: &G,
) -> Together<S, K, C, E>
    requires of { pass.of ≡ shared.now.turn }
    requires exporter { IsUnasked true (E.told exporter) }
    requires worth { length feeds.items + workers < pass.worth }
    requires few { length feeds.items ≤ 7 }
    requires few_workers { workers ≤ 8 }
    requires empty { sessions.items ≡ [] }
    requires room { length feeds.items < vec_capacity sessions }
    ensures served { ServedBeside shared.now.limits workers pass result.pass (E.told result.exporter) (first ∷ feeds.items) result.sessions.items }
{
    if workers == 0 {
        let together = serve_all(
            rt, alloc, shared, pass, first, exporter, feeds, sessions, gate,
        );
        stop.store(true, Ordering::SeqCst);
        return together;
    }
    let others = workers - 1;
    let actor = actor_of(others);
    let (rest, mine) = shared.split(pass);
    let (worked, together) = thread::join(
        rt,
        move || -> Pass
            requires of { mine.of ≡ shared.now.turn }
            ensures passed { Passed (is_upkeep actor) mine result [] }
            ensures worked { RestsOrWorks shared.entry.now.limits actor mine result }
        { work_until(rt, shared, mine, actor, gate, stop) },
        move || -> Together<S, K, C, E>
            requires of { rest.of ≡ shared.now.turn }
            requires exporter { IsUnasked true (E.told exporter) }
            requires worth { length feeds.items + others < rest.worth }
            requires few { length feeds.items ≤ 7 }
            requires few_workers { others ≤ 8 }
            requires empty { sessions.items ≡ [] }
            requires room { length feeds.items < vec_capacity sessions }
            ensures served { ServedBeside shared.entry.now.limits others rest result.pass (E.told result.exporter) (first ∷ feeds.items) result.sessions.items }
        {
            serve_beside_workers(
                rt, alloc, shared, rest, others, stop, first, exporter, feeds, sessions, gate,
            )
        },
    );
    let Together {
        pass: rest,
        exporter,
        sessions,
    } = together;
    Together {
        pass: shared.join(rest, worked),
        exporter,
        sessions,
    }
}

// Works until `stop` is set, and not at all where it was set before: then the sessions have ended.
fn work_until<R: Wait, G: Gate>(
    rt: &R,
    shared: &Shared,
    pass: Pass,
    actor: u32,
    gate: &G,
    stop: &AtomicBool,
) -> Pass
    requires { pass.of ≡ shared.now.turn }
    ensures passed { Passed (is_upkeep actor) pass result [] }
    ensures worked { RestsOrWorks shared.now.limits actor pass result }
{
    if stop.load(Ordering::SeqCst) {
        return pass;
    }
    work(rt, shared, pass, actor, gate, stop).pass
}
