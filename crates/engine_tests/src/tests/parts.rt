// What threads gather beside each other of a row or two each.
use super::steps::{ran, work};
use kq_catalog_journal::Limits;
use kq_engine::Work;
use kq_engine_query::answer;
use kq_read_commands::{Command, Query};
use kq_reply::{Refusal, Reply};
use kq_run_parallel::Crew;
use std::alloc::Global;
use std::test::Fail;

const TWO_COLUMNS: &str = ".create table E (k:long, v:long)";

const FIRST: &str = ".ingest inline into table E <|\n1,10\n2,20\n1,30\n3,40\n2,50";

const LATER: &str = ".ingest inline into table E <|\n1,60\n3,70";

const BY_KEY: &str = "E | where v > 10 | summarize n = count(), s = sum(v) by k | sort by k asc";

const BY_KEY_OUT: &[u8] = b"rows 3\nk:long\tn:long\ts:long\n1\t2\t90\n2\t2\t70\n3\t2\t110\n";

const OF_ALL: &str = "E | summarize n = count(), a = min(v), arg_max(v, k)";

const OF_ALL_OUT: &[u8] = b"rows 1\nn:long\ta:long\tv:long\tk:long\n7\t10\t70\t3\n";

const JOINED: &str =
    "E | join kind=inner (datatable(k:long, w:string) [1, 'one', 3, 'three']) on k | summarize n = count(), s = sum(v) by w | sort by w asc";

const JOINED_OUT: &[u8] = b"rows 2\nw:string\tn:long\ts:long\none\t3\t100\nthree\t2\t110\n";

const GREATEST_TWO: &str = "E | where k < 3 | top 2 by v desc | project v";

const GREATEST_TWO_OUT: &[u8] = b"rows 2\nv:long\n60\n50\n";

const GREATEST: &str =
    ".ingest inline into table E <|\n1,9223372036854775807\n2,9223372036854775807";

const OVERFLOWS: &str =
    "E | extend a = iff(k == 2, v + 1, 0) | extend b = iff(k == 1, v + 1, 0) | summarize count()";

fn as_query(command: Command) -> Option<Query> {
    match command {
        Command::Query(query) => Some(query),
        _ => None,
    }
}

fn query_of(alloc: Global, text: &str) -> Result<Query, Fail> {
    let Work {
        by: _,
        command,
        now: _,
    } = work(alloc, 0, text.as_bytes())?;
    let query = as_query(command).ok_or("no query")?;
    Ok(query)
}

// Whether an answer prints this.
fn prints(reply: &Reply, output: &[u8]) -> bool {
    match reply {
        Reply::Rows { text } => text.as_slice() == output,
        _ => false,
    }
}

#[test]
fn parts_of_one_row_and_of_two_come_to_what_all_come_to(rt: HostRuntime) -> Result<(), Fail> {
    let alloc = rt.alloc();
    let trace = ran(alloc, Limits::full(), &[TWO_COLUMNS, FIRST, LATER], &[])?;
    let snapshot = trace.catalog.snapshot()?;
    for (text, piece, output) in [
        (BY_KEY, 1, BY_KEY_OUT),
        (BY_KEY, 2, BY_KEY_OUT),
        (OF_ALL, 1, OF_ALL_OUT),
        (OF_ALL, 2, OF_ALL_OUT),
        (JOINED, 1, JOINED_OUT),
        (JOINED, 2, JOINED_OUT),
        (GREATEST_TWO, 1, GREATEST_TWO_OUT),
        (GREATEST_TWO, 2, GREATEST_TWO_OUT),
    ] {
        let query = query_of(alloc, text)?;
        let crew = Crew::new(&rt, piece.max(1));
        let told = match answer(&snapshot, query.text.as_str(), &query.tree, &crew, 0) {
            Ok(reply) => prints(&reply, output),
            Err(_) => false,
        };
        assert!(rt; told, "{text} by parts of {piece}");
    }
    Ok(())
}

#[test]
fn the_least_stage_that_overflows_in_any_part_is_told(rt: HostRuntime) -> Result<(), Fail> {
    let alloc = rt.alloc();
    let trace = ran(alloc, Limits::full(), &[TWO_COLUMNS, GREATEST], &[])?;
    let snapshot = trace.catalog.snapshot()?;
    let query = query_of(alloc, OVERFLOWS)?;
    for piece in [1, 2, 8192] {
        let crew = Crew::new(&rt, piece.max(1));
        let told = match answer(&snapshot, query.text.as_str(), &query.tree, &crew, 0) {
            Err(Refusal::Overflow { stage }) => stage == 2,
            _ => false,
        };
        assert!(rt; told, "by parts of {piece}");
    }
    Ok(())
}
