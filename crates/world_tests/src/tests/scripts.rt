// Scripts read from memory.
ghost use Rattle.std.specs.Prelude.{◌<◌};
ghost use Rattle.kq_script_blocks.specs.Reading.{IsUnclosed};

use kq_script_blocks::{Item, ScriptFault, ScriptReader};
use kq_value::{Bytes, Memory};
use kq_world::MemorySource;
use std::alloc::Global;

// A source of these bytes: at most `step` a read, and the call of the number `fails` fails.
fn source(alloc: Global, script: &str, step: usize, fails: u64) -> Result<MemorySource, Memory>
    requires { 0 < step }
{
    let fails = [fails].to_vec(alloc)?;
    let bytes = Bytes::from_vec(script.as_bytes().to_vec(alloc)?);
    Ok(MemorySource::new(bytes, step, fails))
}

// Whether the item is told so.
fn is_item(item: &Item, word: &str) -> bool {
    match item {
        Item::Command(bytes) => bytes.as_slice() == word.as_bytes(),
        Item::TooLong { bytes } => *bytes == 9 && word == "TooLong 9",
        Item::Lost => word == "Lost",
        Item::Finished => word == "end",
    }
}

fn word_of(fault: ScriptFault) -> &'static str {
    match fault {
        ScriptFault::ReadFault => "ReadFault",
        ScriptFault::InputLimit => "InputLimit",
    }
}

// Whether the reader gives these items, of which each but the last has a bar behind it.
fn is_read(reader: &mut ScriptReader, source: &mut MemorySource, want: &str) -> bool
    requires { IsUnclosed reader.old }
{
    for word in want.split('|') {
        match reader.next_command(source) {
            Ok(Item::Finished) => return word == "end",
            Ok(item) => {
                if !is_item(&item, word) {
                    return false;
                }
            }
            Err(fault) => return word == word_of(fault),
        }
    }
    false
}

// Whether the source gives these items.
fn gives(
    alloc: Global,
    source: &mut MemorySource,
    command: u64,
    input: u64,
    want: &str,
) -> Result<bool, Memory> {
    let mut reader = ScriptReader::new(alloc, command, input)?;
    Ok(is_read(&mut reader, source, want))
}

fn is_split(alloc: Global, script: &str, step: usize, want: &str) -> Result<bool, Memory>
    requires { 0 < step }
{
    let mut source = source(alloc, script, step, 0)?;
    gives(alloc, &mut source, 64, 4294967296, want)
}

#[test]
fn scripts_are_split_however_the_reads_are_cut(rt: HostRuntime) {
    for (script, want) in [
        ("", "end"),
        ("print 1\n\nprint 2\n\nE\n", "print 1|print 2|E|end"),
        ("E", "E|end"),
        ("a\nb\n\n\n \t\r\nc\n \n", "a\nb|c|end"),
        ("a\r\n\r\nb\r\n", "a\r|b\r|end"),
        ("// a\n \t// b\n\n// c\nd\n\n//e", "// c\nd|end"),
        ("\x0c\n\na\n\x0c\nb", "\x0c|a\n\x0c\nb|end"),
        ("  /\n\n\r// a\n\n/ /", "  /|\r// a|/ /|end"),
    ] {
        for step in [1, 2, 3, 7, 4096] {
            let held = is_split(rt.alloc(), script, step, want);
            assert!(rt; held == Ok(true), "{script:?} by {step}");
        }
    }
}

// Commands have at most 8 bytes here, and scripts as many as `input` says.
fn is_limited(alloc: Global, script: &str, input: u64, want: &str) -> Result<bool, Memory> {
    let mut source = source(alloc, script, 6, 0)?;
    gives(alloc, &mut source, 8, input, want)
}

#[test]
fn blocks_and_scripts_have_limits(rt: HostRuntime) {
    let two = "print 1\n\nprint 2\n\nE\n";
    for (script, input, want) in [
        ("print 100\n\nE\n", 64, "TooLong 9|E|end"),
        ("print 10\n\t         \nE", 64, "print 10|E|end"),
        ("// 45678\n\n// 456789\n\nE", 64, "TooLong 9|E|end"),
        (two, 20, "print 1|print 2|InputLimit"),
        (two, 21, "print 1|print 2|E|end"),
    ] {
        let held = is_limited(rt.alloc(), script, input, want);
        assert!(rt; held == Ok(true), "{script:?}");
    }
}

// The second read fails, behind two closed blocks.
fn is_cut_off(alloc: Global) -> Result<bool, Memory> {
    let mut source = source(alloc, "a\n\nb\n\nc\n\nd", 7, 2)?;
    Ok(gives(alloc, &mut source, 64, 64, "a|b|ReadFault")? && source.faults() == 1)
}

#[test]
fn a_failing_read_comes_after_the_closed_blocks(rt: HostRuntime) {
    assert!(rt; is_cut_off(rt.alloc()) == Ok(true));
}
