// Sessions beside each other.
ghost use Rattle.std.specs.Prelude.{◌≡◌, ◌<◌, ◌≤◌, ◌+◌, ◌∷◌, [], length, Some, true, vec_capacity};
ghost use Rattle.kq_session.specs.Objects.{objects};
ghost use Rattle.kq_session.specs.Blocks.{serves_to};
ghost use Rattle.kq_session.specs.kq_export_interface.Due.{none_told};
ghost use Rattle.kq_program.specs.Together.{IsUnasked, ServedOne, ServedAll, scripted, unserved};

use crate::ended::EndedSession;
use crate::opened::OpenedSession;
use crate::program::MEMORY;
use kq_session::{End, Exporter, NoExporter, Receipts, Requests, Served, serve};
use kq_value::Text;
use kq_workers::{Pass, Shared};
use kq_world::{Clock, Gate, Parts, Sink, Source};
use std::alloc::Global;
use std::sync::Wait;
use std::thread;
use std::thread::Threads;

// Sessions that have ended, in order, the one pass that is left of theirs, and the exporter of session 0.
#[derive(Drop)]
pub(crate) struct Together<S: Source, K: Sink, C: Clock, E: Exporter> {
    pub pass: Pass,
    pub exporter: E,
    pub sessions: Vec<EndedSession<S, K, C>>,
}

// A session that has ended, with its pass and its exporter.
#[derive(Drop)]
pub(crate) struct One<S: Source, K: Sink, C: Clock, E: Exporter> {
    pub pass: Pass,
    pub exporter: E,
    pub session: EndedSession<S, K, C>,
}

// Serves session 0 in this thread and each feed in a thread of its own. Where none can be made for a feed, it is served
// here after session 0. Session 0 alone has an exporter that serves. There is room for all of them in `sessions`.
pub(crate) fn serve_all<
    R: Threads + Wait + Sync,
    S: Source + Send,
    K: Sink + Send,
    C: Clock + Send,
    G: Gate + Sync,
    E: Exporter,
>(
    rt: &R,
    alloc: Global,
    shared: &Shared,
    pass: Pass,
    first: OpenedSession<S, K, C>,
    exporter: E,
    feeds: Vec<OpenedSession<S, K, C>>,
    sessions: Vec<EndedSession<S, K, C>>,
    gate: &G,
) -> Together<S, K, C, E>
    requires of { pass.of ≡ shared.now.turn }
    requires exporter { IsUnasked true (E.told exporter) }
    requires worth { length feeds.items < pass.worth }
    requires few { length feeds.items ≤ 7 }
    requires empty { sessions.items ≡ [] }
    requires room { length feeds.items < vec_capacity sessions }
    ensures room { vec_capacity result.sessions ≡ vec_capacity sessions }
    ensures served { ServedAll shared.now.limits 0 pass result.pass (E.told result.exporter) (first ∷ feeds.items) result.sessions.items }
{
    let mut feeds = feeds;
    let mut sessions = sessions;
    let Some(last) = feeds.pop() else {
        let One {
            pass,
            exporter,
            session,
        } = serve_one(rt, alloc, shared, pass, 0, first, exporter, gate);
        sessions.push_reserved(session);
        return Together {
            pass,
            exporter,
            sessions,
        };
    };
    let actor = feeds.len() as u32 + 1;
    let (rest, mine) = shared.split(pass);
    let (one, others) = thread::join(
        rt,
        move || -> One<S, K, C, NoExporter>
            requires of { mine.of ≡ shared.now.turn }
            requires feed { 0 < actor }
            ensures served { ServedOne shared.entry.now.limits mine result.pass actor none_told last result.session }
        { serve_one(rt, alloc, shared, mine, actor, last, NoExporter, gate) },
        move || -> Together<S, K, C, E>
            requires of { rest.of ≡ shared.now.turn }
            requires exporter { IsUnasked true (E.told exporter) }
            requires worth { length feeds.items < rest.worth }
            requires few { length feeds.items ≤ 7 }
            requires empty { sessions.items ≡ [] }
            requires room { length feeds.items < vec_capacity sessions }
            ensures room { vec_capacity result.sessions ≡ vec_capacity sessions }
            ensures served { ServedAll shared.entry.now.limits 0 rest result.pass (E.told result.exporter) (first ∷ feeds.items) result.sessions.items }
        {
            serve_all(
                rt, alloc, shared, rest, first, exporter, feeds, sessions, gate,
            )
        },
    );
    let One {
        pass: mine,
        exporter: _none,
        session,
    } = one;
    let Together {
        pass: rest,
        exporter,
        mut sessions,
    } = others;
    sessions.push_reserved(session);
    Together {
        pass: shared.join(rest, mine),
        exporter,
        sessions,
    }
}

// Serves one session, by its own source or by a generated script.
fn serve_one<R: Threads + Wait + Sync, S: Source, K: Sink, C: Clock, G: Gate, E: Exporter>(
    rt: &R,
    alloc: Global,
    shared: &Shared,
    pass: Pass,
    actor: u32,
    opened: OpenedSession<S, K, C>,
    exporter: E,
    gate: &G,
) -> One<S, K, C, E>
    requires of { pass.of ≡ shared.now.turn }
    requires exporter { IsUnasked (serves_to actor) (E.told exporter) }
    ensures { ServedOne shared.now.limits pass result.pass actor (E.told result.exporter) opened result.session }
{
    let OpenedSession {
        name,
        generate,
        parts,
    } = opened;
    if let Some(rows) = generate {
        return serve_script(
            rt, alloc, shared, pass, actor, rows, name, parts, exporter, gate,
        );
    }
    let Served {
        pass,
        parts: Parts {
            source,
            sink,
            clock,
        },
        exporter,
        receipts,
        requests,
        end,
        status,
    } = serve(rt, alloc, shared, pass, actor, parts, exporter, gate);
    let session = EndedSession {
        name,
        source,
        sink,
        clock,
        receipts,
        requests,
        end,
        status,
    };
    One {
        pass,
        exporter,
        session,
    }
}

// Serves one session by the generated script of so many rows. Its own source is handed back as it is.
fn serve_script<R: Threads + Wait + Sync, S: Source, K: Sink, C: Clock, G: Gate, E: Exporter>(
    rt: &R,
    alloc: Global,
    shared: &Shared,
    pass: Pass,
    actor: u32,
    rows: u32,
    name: Text,
    parts: Parts<S, K, C>,
    exporter: E,
    gate: &G,
) -> One<S, K, C, E>
    requires of { pass.of ≡ shared.now.turn }
    requires exporter { IsUnasked (serves_to actor) (E.told exporter) }
    ensures { ServedOne shared.now.limits pass result.pass actor (E.told result.exporter) (scripted S.told S.faults K.accepted K.faults C.readings name rows parts) result.session }
{
    let mut requests = Requests::new();
    let script = match requests.script(alloc, rows) {
        Ok(script) => script,
        Err(_) => {
            return One {
                pass,
                exporter,
                session: unserved(alloc, name, parts, requests),
            };
        }
    };
    let Parts {
        source,
        sink,
        clock,
    } = parts;
    let parts = Parts {
        source: script,
        sink,
        clock,
    };
    let Served {
        pass,
        parts: Parts {
            source: _script,
            sink,
            clock,
        },
        exporter,
        receipts,
        requests,
        end,
        status,
    } = serve(rt, alloc, shared, pass, actor, parts, exporter, gate);
    One {
        pass,
        exporter,
        session: EndedSession {
            name,
            source,
            sink,
            clock,
            receipts,
            requests,
            end,
            status,
        },
    }
}

// A session for whose script no memory was found.
fn unserved<S: Source, K: Sink, C: Clock>(
    alloc: Global,
    name: Text,
    parts: Parts<S, K, C>,
    requests: Requests,
) -> EndedSession<S, K, C>
    requires { requests ≡ Some 0 }
    ensures { result ≡ unserved name (objects S.told S.faults K.accepted K.faults C.readings parts) }
{
    let Parts {
        source,
        sink,
        clock,
    } = parts;
    EndedSession {
        name,
        source,
        sink,
        clock,
        receipts: Receipts::from_vec(Vec::new(alloc)),
        requests,
        end: End::Short,
        status: MEMORY,
    }
}
