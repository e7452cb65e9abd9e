// Interleavings of steps.
use kq_catalog_journal::{By, Limits};
use kq_engine_interleavings::{Step, Trace, Work, run_steps};
use kq_read_commands::{Asked, Command, read_command};
use kq_reply::{Refusal, Reply};
use std::alloc::Global;
use std::test::Fail;

// An actor's first command.
pub(super) fn first_of(actor: u32) -> By {
    By { actor, number: 1 }
}

fn for_the_engine(asked: Asked) -> Option<Command> {
    match asked {
        Asked::Engine(command) => Some(command),
        Asked::Exporter(_) => None,
    }
}

pub(super) fn work(alloc: Global, actor: u32, text: &[u8]) -> Result<Work, Fail> {
    let command = for_the_engine(read_command(alloc, text)?).ok_or("an export")?;
    Ok(Work {
        by: first_of(actor),
        command,
        now: 0,
    })
}

// An actor begins the command of a text, or finishes, at an empty text, what it began.
fn step(alloc: Global, actor: u32, text: &str) -> Result<Step, Fail> {
    if text.is_empty() {
        return Ok(Step::Finish(first_of(actor)));
    }
    Ok(Step::Begin(work(alloc, actor, text.as_bytes())?))
}

// The commands of these texts, each begun and finished by the next actor from 0 on.
fn one_by_one(alloc: Global, texts: &[&str]) -> Result<Vec<Step>, Fail> {
    let mut steps = Vec::new(alloc);
    for (text, actor) in texts.iter().zip(0..u32::MAX) {
        steps.push(step(alloc, actor, text)?)?;
        steps.push(Step::Finish(first_of(actor)))?;
    }
    Ok(steps)
}

// What comes of the commands that are made one by one, and then of these steps.
pub(super) fn ran(
    alloc: Global,
    limits: Limits,
    before: &[&str],
    rows: &[(u32, &str)],
) -> Result<Trace, Fail> {
    let mut steps = one_by_one(alloc, before)?;
    for (actor, text) in rows {
        steps.push(step(alloc, *actor, text)?)?;
    }
    Ok(run_steps(alloc, limits, steps)?)
}

// A letter for the kind of the reply, and its number.
fn code(reply: &Reply) -> (u8, u64) {
    match reply {
        Reply::Done { cursor } => (b'd', *cursor),
        Reply::Kept { cursor } => (b'k', *cursor),
        Reply::Ingested { cursor, rows: _ } => (b'i', *cursor),
        Reply::Skipped { cursor } => (b's', *cursor),
        Reply::Merged { extents } => (b'm', *extents),
        Reply::Folded { cursor } => (b'c', *cursor),
        Reply::Rows { text } => (b'r', text.len() as u64),
        Reply::Nothing => (b'n', 0),
        Reply::Refused(Refusal::Exists { at }) => (b'e', *at),
        Reply::Refused(Refusal::Full { limit }) => (b'f', *limit),
        _ => (b'?', 0),
    }
}

// Whether the outcomes are these, in order: the actor, and the code of the reply.
pub(super) fn tells(trace: &Trace, expected: &[(u32, u8, u64)]) -> bool {
    let mut same = trace.outcomes.len() == expected.len();
    for (told, (actor, letter, number)) in trace.outcomes.iter().zip(expected) {
        same &= told.by.same(first_of(*actor)) && code(&told.outcome.reply) == (*letter, *number);
    }
    same
}

// Whether all these outcomes come of it, and so many events.
fn come_to(
    alloc: Global,
    limits: Limits,
    before: &[&str],
    rows: &[(u32, &str)],
    expected: &[(u32, u8, u64)],
    events: u64,
) -> Result<bool, Fail> {
    let trace = ran(alloc, limits, before, rows)?;
    Ok(tells(&trace, expected) && trace.catalog.place() == events)
}

pub(super) const E: &str = ".create table E (k:long)";

const OTHER_E: &str = ".create table E (j:long)";

const F: &str = ".create table F (k:long)";

const INTO_E: &str = ".ingest inline into table E <|\n1";

const TWO_INTO_E: &str = ".ingest inline into table E <|\n2";

const MERGE_E: &str = "#merge E";

const WIDER_E: &str = ".alter-merge table E (v:long)";

pub(super) const VIEW: &str =
    ".create materialized-view V on table E { E | summarize n = count() by k }";

pub(super) const FOLD_V: &str = "#fold V";

// The rows of the view over three records, and over the first two.
const WHOLE: &str = "rows 2\nk:long\tn:long\n1\t2\n2\t1\n";

const PART: &str = "rows 1\nk:long\tn:long\n1\t2\n";

const ONCE_INTO_E: &str =
    ".ingest inline into table E with (tags='[\"ingest-by:a\"]', ingestIfNotExists='[\"a\"]') <|\n1";

#[test]
fn the_first_to_finish_makes_the_table(rt: HostRuntime) -> Result<(), Fail> {
    for (winner, loser) in [(0, 1), (1, 0)] {
        let rows = [(0, E), (1, E), (winner, ""), (loser, "")];
        let expected = [(winner, b'd', 1), (loser, b'k', 1)];
        let holds = come_to(rt.alloc(), Limits::full(), &[], &rows, &expected, 1)?;
        assert!(rt; holds, "{winner} first");
    }
    Ok(())
}

#[test]
fn a_name_taken_between_begin_and_finish_is_refused(rt: HostRuntime) -> Result<(), Fail> {
    let rows = [(0, E), (1, OTHER_E), (1, ""), (0, "")];
    let expected = [(1, b'd', 1), (0, b'e', 14)];
    let holds = come_to(rt.alloc(), Limits::full(), &[], &rows, &expected, 1)?;
    assert!(rt; holds);
    Ok(())
}

#[test]
fn what_was_not_begun_is_not_finished(rt: HostRuntime) -> Result<(), Fail> {
    let rows = [(0, ""), (0, E), (0, F), (0, ""), (0, ""), (0, F)];
    let holds = come_to(rt.alloc(), Limits::full(), &[], &rows, &[(0, b'd', 1)], 1)?;
    assert!(rt; holds);
    Ok(())
}

#[test]
fn a_limit_of_one_table_holds(rt: HostRuntime) -> Result<(), Fail> {
    let mut limits = Limits::full();
    limits.tables = 1;
    let before = [E, F];
    let expected = [(0, b'd', 1), (1, b'f', 1)];
    let holds = come_to(rt.alloc(), limits, &before, &[], &expected, 1)?;
    assert!(rt; holds);
    Ok(())
}

#[test]
fn rows_read_before_another_table_was_made_are_put_in(rt: HostRuntime) -> Result<(), Fail> {
    let before = [E];
    let rows = [(1, INTO_E), (2, F), (2, ""), (1, "")];
    let expected = [(0, b'd', 1), (2, b'd', 2), (1, b'i', 3)];
    let holds = come_to(rt.alloc(), Limits::full(), &before, &rows, &expected, 3)?;
    assert!(rt; holds);
    Ok(())
}

#[test]
fn rows_past_the_last_commit_are_refused(rt: HostRuntime) -> Result<(), Fail> {
    let mut limits = Limits::full();
    limits.commits = 1;
    let before = [E, INTO_E];
    let expected = [(0, b'd', 1), (1, b'f', 1)];
    let holds = come_to(rt.alloc(), limits, &before, &[], &expected, 1)?;
    assert!(rt; holds);
    Ok(())
}

#[test]
fn of_two_ingestions_by_one_tag_the_second_to_finish_is_skipped(
    rt: HostRuntime,
) -> Result<(), Fail> {
    let before = [E];
    let rows = [(1, ONCE_INTO_E), (2, ONCE_INTO_E), (2, ""), (1, "")];
    let expected = [(0, b'd', 1), (2, b'i', 2), (1, b's', 2)];
    let holds = come_to(rt.alloc(), Limits::full(), &before, &rows, &expected, 2)?;
    assert!(rt; holds);
    Ok(())
}

#[test]
fn a_merge_takes_what_was_picked_when_it_began(rt: HostRuntime) -> Result<(), Fail> {
    for (between, letter) in [(INTO_E, b'i'), (WIDER_E, b'd')] {
        let before = [E, INTO_E, INTO_E];
        let rows = [(3, MERGE_E), (4, between), (4, ""), (3, "")];
        let expected = [
            (0, b'd', 1),
            (1, b'i', 2),
            (2, b'i', 3),
            (4, letter, 4),
            (3, b'm', 2),
        ];
        let holds = come_to(rt.alloc(), Limits::full(), &before, &rows, &expected, 5)?;
        assert!(rt; holds, "{between} between");
    }
    Ok(())
}

#[test]
fn of_two_merges_the_second_to_finish_picks_again(rt: HostRuntime) -> Result<(), Fail> {
    let before = [E, INTO_E, INTO_E];
    let rows = [
        (3, MERGE_E),
        (4, MERGE_E),
        (5, MERGE_E),
        (4, ""),
        (3, ""),
        (6, INTO_E),
        (6, ""),
        (5, ""),
    ];
    let expected = [
        (0, b'd', 1),
        (1, b'i', 2),
        (2, b'i', 3),
        (4, b'm', 2),
        (3, b'n', 0),
        (6, b'i', 4),
        (5, b'm', 2),
    ];
    let holds = come_to(rt.alloc(), Limits::full(), &before, &rows, &expected, 6)?;
    assert!(rt; holds);
    Ok(())
}

fn place_of(trace: &Trace, at: usize) -> Option<u64> {
    let told = trace.outcomes.get(at)?;
    Some(told.outcome.place)
}

// The place of an outcome, and the rows that it printed.
pub(super) fn printed(trace: &Trace, at: usize) -> Option<(u64, &[u8])> {
    let told = trace.outcomes.get(at)?;
    match &told.outcome.reply {
        Reply::Rows { text } => Some((told.outcome.place, text.as_slice())),
        _ => None,
    }
}

#[test]
fn of_two_folds_the_second_to_finish_tells_the_cursor_of_the_first(
    rt: HostRuntime,
) -> Result<(), Fail> {
    let before = [E, VIEW, INTO_E, INTO_E];
    let rows = [
        (8, FOLD_V),
        (9, FOLD_V),
        (4, MERGE_E),
        (4, ""),
        (5, TWO_INTO_E),
        (5, ""),
        (8, ""),
        (9, ""),
        (6, "V | sort by k asc"),
        (6, ""),
        (7, "materialized_view('V')"),
        (7, ""),
    ];
    let expected = [
        (0, b'd', 1),
        (1, b'd', 2),
        (2, b'i', 3),
        (3, b'i', 4),
        (4, b'm', 2),
        (5, b'i', 5),
        (8, b'c', 4),
        (9, b'c', 4),
        (6, b'r', WHOLE.len() as u64),
        (7, b'r', PART.len() as u64),
    ];
    let trace = ran(rt.alloc(), Limits::full(), &before, &rows)?;
    assert!(rt; tells(&trace, &expected));
    for (at, place) in [(4, 5), (5, 6), (6, 7), (7, 7)] {
        assert!(rt; place_of(&trace, at) == Some(place), "outcome {at}");
    }
    assert!(rt; printed(&trace, 8) == Some((7, WHOLE.as_bytes())));
    assert!(rt; printed(&trace, 9) == Some((7, PART.as_bytes())));
    assert!(rt; trace.catalog.place() == 7);
    Ok(())
}

#[test]
fn a_fold_that_a_later_one_overtook_tells_the_cursor_of_that(rt: HostRuntime) -> Result<(), Fail> {
    let before = [E, VIEW, INTO_E];
    let rows = [
        (8, FOLD_V),
        (3, TWO_INTO_E),
        (3, ""),
        (9, FOLD_V),
        (9, ""),
        (8, ""),
    ];
    let expected = [
        (0, b'd', 1),
        (1, b'd', 2),
        (2, b'i', 3),
        (3, b'i', 4),
        (9, b'c', 4),
        (8, b'c', 4),
    ];
    let holds = come_to(rt.alloc(), Limits::full(), &before, &rows, &expected, 5)?;
    assert!(rt; holds);
    Ok(())
}

// The policy of B looks into D.
const POLICY: &str =
    r#".alter table B policy update '[{"Source":"A","Query":"A | join kind=leftouter (D) on v | project v, n"}]'"#;

#[test]
fn a_lookup_sees_what_came_since_its_ingestion_began(rt: HostRuntime) -> Result<(), Fail> {
    let before = [
        ".create table A (v:long)",
        ".create table D (v:long, n:string)",
        ".create table B (v:long, n:string)",
        POLICY,
    ];
    let rows = [
        (4, ".ingest inline into table A <|\n1"),
        (5, ".ingest inline into table D <|\n1,one"),
        (5, ""),
        (4, ""),
        (6, "B"),
        (6, ""),
    ];
    let trace = ran(rt.alloc(), Limits::full(), &before, &rows)?;
    assert!(rt; place_of(&trace, 4) == Some(5) && place_of(&trace, 5) == Some(6));
    assert!(rt; printed(&trace, 6) == Some((6, "rows 1\nv:long\tn:string\n1\tone\n".as_bytes())));
    Ok(())
}
