// The top call.
ghost use Rattle.std.specs.Prelude.{◌≡◌, ◌≢◌, ◌≤◌, [], IsSome, None, false, length, true};
ghost use Rattle.kq_program_options.specs.Words.{are_distinct};
ghost use Rattle.kq_program.specs.Headline.{CompletesRun, RunsProgram, first_status};
ghost use Rattle.kq_program.specs.Opening.{OpensFeeds, RunsOpened};
ghost use Rattle.kq_program.specs.Views.{RunView};
ghost use Rattle.kq_program.specs.Words.{IsJustWhere, asked_in, feeds_of, generate_of, workers_of};

use crate::ended::{EndedSession, Run};
use crate::feeds::open_feeds;
use crate::opened::{Opened, OpenedSession};
use crate::together::Together;
use crate::workers::serve_beside_workers;
use kq_catalog_journal::Limits;
use kq_export_run::ArtefactExporter;
use kq_program_options::{Options, OptionsError};
use kq_value::Text;
use kq_workers::Shared;
use kq_world::{Clock, Gate, OpenFault, Sink, Source, World};
use std::alloc::Global;
use std::sync::Wait;
use std::sync::atomic::AtomicBool;
use std::thread::Threads;

/// The words haven't the form.
pub const WRONG_WORDS: u8 = 2;

/// Memory wasn't found.
pub const MEMORY: u8 = 1;

/// A feed couldn't be opened.
pub const NOT_OPENED: u8 = 5;

/// Runs session 0, the feeds and the workers beside each other on a new catalogue. `words` are the words after the
/// program's name. Where they ask for a generated script, session 0 has that in place of its own. It waits for all of them.
pub fn run<R: Threads + Wait + Sync, W: World, G: Gate + Sync>(
    rt: &R,
    alloc: Global,
    words: &[String],
    world: &mut W,
    gate: &G,
) -> Run<W>
    requires begun { W.begun world.old ≡ false }
    requires given { W.given world.old ≡ false }
    ensures form { IsJustWhere result.status WRONG_WORDS (asked_in words.now ≡ None) }
    ensures untouched { result.status ≡ WRONG_WORDS → world.new ≡ world.old }
    ensures served { IsSome result.catalog → IsSome (asked_in words.now) }
    ensures opens { OpensFeeds (feeds_of (asked_in words.now)) (W.asked world.old) (W.asked world.new) (W.faults world.old) (W.faults world.new) result }
    ensures run { let said = asked_in words.now in RunsProgram (workers_of said) (generate_of said) (feeds_of said) (W.first_contents world.old) (W.feed_contents world.old) result }
    ensures complete { CompletesRun (asked_in words.now) (W.faults world.old) (W.faults world.new) (W.first_contents world.old) (W.feed_contents world.old) result }
{
    match Options::from_words(alloc, words) {
        Ok(options) => run_sessions(rt, alloc, world, options, gate),
        Err(OptionsError::Form) => not_begun(alloc, WRONG_WORDS),
        Err(OptionsError::Memory) => not_begun(alloc, MEMORY),
    }
}

/// Runs as `run` does, and returns the status alone.
pub fn exit_status<R: Threads + Wait + Sync, W: World, G: Gate + Sync>(
    rt: &R,
    alloc: Global,
    words: &[String],
    world: &mut W,
    gate: &G,
) -> u8
    requires begun { W.begun world.old ≡ false }
    requires given { W.given world.old ≡ false }
    ensures untouched { result ≡ WRONG_WORDS → world.new ≡ world.old }
    ensures ran { let said = asked_in words.now in (ran : RunView) × (ran.status ≡ result)
        × RunsProgram (workers_of said) (generate_of said) (feeds_of said) (W.first_contents world.old) (W.feed_contents world.old) ran }
{
    run(rt, alloc, words, world, gate).status
}

// Opens the feeds, and runs them and the workers beside session 0.
fn run_sessions<R: Threads + Wait + Sync, W: World, G: Gate + Sync>(
    rt: &R,
    alloc: Global,
    world: &mut W,
    options: Options,
    gate: &G,
) -> Run<W>
    requires begun { W.begun world.old ≡ false }
    requires given { W.given world.old ≡ false }
    requires different { are_distinct options.feeds.items ≡ true }
    requires few { length options.feeds.items ≤ 7 }
    requires few_workers { options.workers ≤ 8 }
    ensures status { result.status ≢ WRONG_WORDS }
    ensures opens { OpensFeeds options.feeds.items (W.asked world.old) (W.asked world.new) (W.faults world.old) (W.faults world.new) result }
    ensures run { RunsProgram options.workers options.generate options.feeds.items (W.first_contents world.old) (W.feed_contents world.old) result }
{
    let Options {
        workers,
        generate,
        feeds,
    } = options;
    match open_feeds(alloc, world, feeds) {
        Ok(feeds) => run_opened(rt, alloc, world, generate, feeds, workers, gate),
        Err(OpenFault::Failed) => not_begun(alloc, NOT_OPENED),
        Err(OpenFault::Memory) => not_begun(alloc, MEMORY),
    }
}

// Runs the feeds that were opened, and the workers, beside session 0, whose script may be generated.
fn run_opened<R: Threads + Wait + Sync, W: World, G: Gate + Sync>(
    rt: &R,
    alloc: Global,
    world: &mut W,
    generate: Option<u32>,
    feeds: Vec<Opened<W>>,
    workers: u32,
    gate: &G,
) -> Run<W>
    requires begun { W.begun world.old ≡ false }
    requires given { W.given world.old ≡ false }
    requires few { length feeds.items ≤ 7 }
    requires few_workers { workers ≤ 8 }
    ensures status { result.status ≢ WRONG_WORDS }
    ensures opened { result.status ≢ NOT_OPENED }
    ensures asked { W.asked world.new ≡ W.asked world.old }
    ensures faults { W.faults world.new ≡ W.faults world.old }
    ensures run { RunsOpened workers generate feeds.items (W.first_contents world.old) result }
{
    let sessions = feeds.len() + 1;
    // One pass more than there are sessions and workers.
    let passes = sessions as u32 + workers + 1;
    let Ok((shared, pass)) = Shared::start(alloc, Limits::full(), passes) else {
        return not_begun(alloc, MEMORY);
    };
    let (Ok(room), Ok(name)) = (
        Vec::with_capacity(alloc, sessions),
        Text::from_str(alloc, ""),
    ) else {
        return not_begun(alloc, MEMORY);
    };
    let first = OpenedSession {
        name,
        generate,
        parts: world.first(),
    };
    let exporter = ArtefactExporter::new(alloc, world.artefacts());
    let stop = AtomicBool::new(false);
    let Together {
        pass,
        exporter,
        sessions,
    } = serve_beside_workers(
        rt, alloc, &shared, pass, workers, &stop, first, exporter, feeds, room, gate,
    );
    let catalog = shared.close(pass);
    // A catalogue is sound wherever it can be looked at, and so is what an exporter holds.
    let (_place, _count) = (catalog.place(), exporter.export_count());
    Run {
        status: first_status(sessions.as_slice()),
        catalog: Some(catalog),
        sessions,
        export: Some(exporter),
    }
}

// The first status that isn't 0.
fn first_status<S: Source, K: Sink, C: Clock>(sessions: &[EndedSession<S, K, C>]) -> u8
    ensures { result ≡ first_status sessions.now }
{
    for session in sessions {
        if session.status != 0 {
            return session.status;
        }
    }
    0
}

// A run whose sessions weren't begun.
fn not_begun<W: World>(alloc: Global, status: u8) -> Run<W>
    ensures status { result.status ≡ status }
    ensures catalog { result.catalog ≡ None }
    ensures sessions { result.sessions ≡ [] }
    ensures export { result.export ≡ None }
{
    Run {
        status,
        catalog: None,
        sessions: Vec::new(alloc),
        export: None,
    }
}
