// What refusals print, in the words of their table, and their numbers; and how a reply leaves.
ghost use Rattle.std.specs.Prelude.{◌<◌};

use kq_reply::{Refusal, Reply};
use kq_reply_print::write_reply;
use kq_store_rows::{Cause, Why};
use kq_value::{Bytes, Memory, Text};
use kq_world::{MemorySink, put_all};
use std::alloc::Global;

// Whether the reply prints this into a sink that takes `step` bytes a call.
fn is_printed(alloc: Global, reply: &Reply, step: usize, want: &str) -> Result<bool, Memory>
    requires { 0 < step }
{
    let mut sink = MemorySink::new(alloc, step, Vec::new(alloc))?;
    let written = write_reply(reply, &mut sink).is_ok();
    Ok(written && sink.bytes() == want.as_bytes())
}

// The reply prints this, however much the sink takes a call.
fn prints(alloc: Global, reply: &Reply, want: &str) -> Result<bool, Memory> {
    Ok(is_printed(alloc, reply, 1, want)? && is_printed(alloc, reply, 4096, want)?)
}

fn has_number(reply: &Reply, number: u8) -> bool {
    match reply {
        Reply::Refused(refusal) => refusal.number() == number && reply.kind() == number,
        _ => false,
    }
}

// The refusal has this number, and prints this.
fn is_refused(alloc: Global, reply: &Reply, number: u8, want: &str) -> Result<bool, Memory> {
    let text = format!(in alloc; "refused {want}\n\n")?;
    Ok(prints(alloc, reply, text.as_str())? && has_number(reply, number))
}

fn cycle(alloc: Global, table: &str) -> Result<Refusal, Memory> {
    let table = Text::from_str(alloc, table)?;
    Ok(Refusal::Cycle { table })
}

fn failed(alloc: Global, target: &str, cause: Cause) -> Result<Refusal, Memory> {
    let target = Text::from_str(alloc, target)?;
    Ok(Refusal::PolicyFailed { target, cause })
}

// A refusal of this number with its words, if the table of refusals has one.
fn refusal_of(alloc: Global, number: u8) -> Result<Option<(Refusal, &'static str)>, Memory> {
    let last = 18446744073709551615;
    let stage = Cause::Overflow { stage: 2 };
    let why = Why::Form;
    Ok(Some(match number {
        1 => (Refusal::Memory, "Memory"),
        2 => (Refusal::Syntax { at: 0 }, "Syntax at 0"),
        3 => (Refusal::Deep { at: 121 }, "Deep at 121"),
        6 => (
            Refusal::TooLong { bytes: 16777217 },
            "TooLong bytes 16777217",
        ),
        8 => (Refusal::Overflow { stage: 2 }, "Overflow stage 2"),
        9 => (Refusal::Full { limit: 256 }, "Full limit 256"),
        10 => (Refusal::WideRow { row: 10 }, "WideRow row 10"),
        11 => (Refusal::BadTags { at: 9 }, "BadTags at 9"),
        12 => (Refusal::Unsupported { at: 6 }, "Unsupported at 6"),
        13 => (
            Refusal::Unknown { at: last },
            "Unknown at 18446744073709551615",
        ),
        14 => (Refusal::Mistyped { at: 8 }, "Type at 8"),
        15 => (Refusal::Exists { at: 14 }, "Exists at 14"),
        16 => (cycle(alloc, "A")?, "Cycle A"),
        19 => (Refusal::BadView { at: 45 }, "BadView at 45"),
        20 => (
            Refusal::BadPolicy { entry: 0, why },
            "BadPolicy entry 0 Form",
        ),
        21 => (
            failed(alloc, "B", stage)?,
            "PolicyFailed target B cause Overflow stage 2",
        ),
        22 => (Refusal::NotText { at: 0 }, "NotText at 0"),
        24 => (Refusal::NoExporter, "NoExporter"),
        25 => (Refusal::ArtefactFault, "ArtefactFault"),
        26 => (Refusal::BadExport { at: 7 }, "BadExport at 7"),
        _ => return Ok(None),
    }))
}

// The refusal of this number prints its words, or there is none.
fn is_told(alloc: Global, number: u8) -> Result<bool, Memory> {
    match refusal_of(alloc, number)? {
        Some((refusal, want)) => is_refused(alloc, &Reply::Refused(refusal), number, want),
        None => Ok([4, 5, 7, 17, 18, 23].contains(&number)),
    }
}

#[test]
fn refusals_print_their_texts(rt: HostRuntime) {
    for number in 1..27 {
        let held = is_told(rt.alloc(), number);
        assert!(rt; held == Ok(true), "{number}");
    }
}

// The sink, of which the call of this number fails, gets a beginning of a reply.
fn gets_beginning(sink: &mut MemorySink, fails_at: u64) -> bool {
    let refused = write_reply(&Reply::Ingested { cursor: 2, rows: 3 }, sink).is_err();
    let begins = b"ingested 2 rows 3\n\n".starts_with(sink.bytes());
    let len = sink.bytes().len() as u64;
    refused && sink.faults() == 1 && begins && len == fails_at.saturating_sub(1)
}

// A reply that is cut at the call of this number, of one byte each, leaves a beginning of its text.
fn is_cut(alloc: Global, fails_at: u64) -> Result<bool, Memory> {
    let fails = [fails_at].to_vec(alloc)?;
    let mut sink = MemorySink::new(alloc, 1, fails)?;
    Ok(gets_beginning(&mut sink, fails_at))
}

#[test]
fn a_fault_at_any_call_is_answered_and_leaves_a_beginning(rt: HostRuntime) {
    for fails_at in 1..20 {
        let held = is_cut(rt.alloc(), fails_at);
        assert!(rt; held == Ok(true), "at {fails_at}");
    }
    assert!(rt; is_cut(rt.alloc(), 20) == Ok(false));
}

// The reply is out after so many calls, of which the next one fails.
fn is_out(alloc: Global, reply: &Reply, calls: u64) -> Result<bool, Memory> {
    let fails = [calls.saturating_add(1)].to_vec(alloc)?;
    let mut sink = MemorySink::new(alloc, 4096, fails)?;
    let written = write_reply(reply, &mut sink).is_ok();
    Ok(written && put_all(&mut sink, b"x").is_err())
}

// Rows of so many bytes are out after so many calls.
fn are_out(alloc: Global, len: usize, calls: u64) -> Result<bool, Memory> {
    let text = Bytes::from_vec(vec![in alloc; b'a'; len]?);
    is_out(alloc, &Reply::Rows { text }, calls)
}

// A short reply leaves in one write, and an answer that is longer than that in its own and its last line's.
#[test]
fn a_short_reply_leaves_in_one_write(rt: HostRuntime) {
    for (len, calls) in [(1, 1), (4095, 1), (4096, 2)] {
        let held = are_out(rt.alloc(), len, calls);
        assert!(rt; held == Ok(true), "at {len}");
    }
}
