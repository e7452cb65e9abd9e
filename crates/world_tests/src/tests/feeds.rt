// Feeds, in memory and as files.
ghost use Rattle.std.specs.Prelude.{◌≡◌, false, All, IfOk};
ghost use Rattle.kq_world.specs.World.{IsFresh};

use super::files::{had, name_of};
use kq_value::{Bytes, Memory, Text};
use kq_world::{
    Failed, Feed, FileSink, FileSource, ListClock, MemoryArtefacts, MemorySink, MemorySource,
    MemoryWorld, OpenFault, Parts, RealWorld, Sink, Source, World, put_all,
};
use std::alloc::Global;
use std::fs;
use std::fs::File;
use std::process::Abort;

fn parts(alloc: Global, bytes: &[u8]) -> Result<Parts<MemorySource, MemorySink, ListClock>, Memory>
    ensures { IfOk result IsFresh }
{
    let bytes = bytes.to_vec(alloc)?;
    let moments = [7].to_vec(alloc)?;
    let sink = MemorySink::new(alloc, 1, Vec::new(alloc))?;
    Ok(Parts {
        source: MemorySource::new(Bytes::from_vec(bytes), 1, Vec::new(alloc)),
        sink,
        clock: ListClock::new(moments),
    })
}

fn feed(alloc: Global, name: &str, bytes: &[u8]) -> Result<Feed, Memory>
    ensures { IfOk result (λ f. IsFresh f.parts) }
{
    let name = Text::from_str(alloc, name)?;
    let parts = parts(alloc, bytes)?;
    Ok(Feed { name, parts })
}

// The feeds a and b, of which b is there twice.
fn feeds(alloc: Global) -> Result<Vec<Feed>, Memory>
    ensures { IfOk result (λ fs. All (λ f. IsFresh f.parts) fs.items) }
{
    let a = feed(alloc, "a", b"1")?;
    let b = feed(alloc, "b", b"22")?;
    let again = feed(alloc, "b", b"333")?;
    Ok(Vec::from_array(alloc, [a, b, again])?)
}

// A world whose session 0 reads these bytes, with these feeds, of whose openings the second fails.
pub(super) fn world(alloc: Global, bytes: &[u8]) -> Result<MemoryWorld, Memory>
    ensures { IfOk result (λ w. ⟦<MemoryWorld as World>⟧.begun w ≡ false) }
{
    let opens = [2, 9].to_vec(alloc)?;
    let feeds = feeds(alloc)?;
    let first = parts(alloc, bytes)?;
    let artefacts = MemoryArtefacts::new(alloc, Vec::new(alloc));
    Ok(MemoryWorld::new(alloc, first, feeds, opens, artefacts))
}

// How many bytes the feed has, once it is opened.
fn opened(world: &mut MemoryWorld, name: &str) -> Result<usize, OpenFault> {
    let parts = world.open_feed(name)?;
    Ok(parts.source.left().len())
}

fn open_each(rt: &impl Abort, world: &mut MemoryWorld) {
    for (name, want) in [
        ("a", Ok(1)),
        ("b", Err(OpenFault::Failed)),
        ("b", Ok(2)),
        ("a", Err(OpenFault::Failed)),
        ("c", Err(OpenFault::Failed)),
        ("b", Ok(3)),
        ("b", Err(OpenFault::Failed)),
    ] {
        let found = opened(world, name);
        assert!(rt; found == want, "at {name}");
    }
    assert!(rt; world.faults() == 4 && world.asked().len() == 7);
}

#[test]
fn a_feed_is_opened_once_by_its_name(rt: HostRuntime) {
    let begun = match world(rt.alloc(), b"0") {
        Ok(mut world) => {
            let first = world.first().source.left() == b"0".as_slice();
            open_each(&rt, &mut world);
            first
        }
        Err(_) => false,
    };
    assert!(rt; begun);
}

// Reads `print 1` to its end.
fn is_read<S: Source>(source: &mut S) -> bool {
    let mut buf = [0; 9];
    let read = source.read(&mut buf);
    let ended = source.read(&mut [0; 9]);
    read == Ok(8) && buf == *b"print 1\n\0" && ended == Ok(0)
}

// Reads the feed to its end, and answers.
fn is_answered(world: &mut RealWorld, name: &str) -> bool {
    match world.open_feed(name) {
        Ok(mut parts) => {
            is_read(&mut parts.source) && put_all(&mut parts.sink, b"rows 1\n") == Ok(())
        }
        Err(_) => false,
    }
}

fn is_missing(world: &mut RealWorld, name: &str) -> bool {
    matches!(world.open_feed(name), Err(OpenFault::Failed))
}

// Whether the feed can be opened exactly while its file is there, and is answered.
fn is_served(rt: HostRuntime, world: &mut RealWorld, name: &str) -> bool {
    let missing = is_missing(world, name);
    let written = fs::write(&rt, name, b"print 1\n".as_slice()).is_ok();
    let answered = is_answered(world, name);
    let read = had(rt, name, b"print 1\n");
    missing && written && answered && read
}

fn has_answer(rt: HostRuntime, name: &str) -> Result<bool, Memory> {
    let out = format!(in rt.alloc(); "{name}.out")?;
    Ok(had(rt, out.as_str(), b"rows 1\n"))
}

fn is_file(rt: HostRuntime) -> Result<bool, Memory> {
    let name = name_of(rt, "kql")?;
    let served = is_served(rt, &mut RealWorld::new(rt), name.as_str());
    Ok(has_answer(rt, name.as_str())? && served)
}

#[test]
fn a_feed_is_a_file_and_answers_into_another(rt: HostRuntime) {
    assert!(rt; is_file(rt) == Ok(true));
}

fn fails_to_read(rt: HostRuntime) -> bool {
    match File::open(&rt, "/tmp") {
        Ok(file) => FileSource::new(file).read(&mut [0; 4]) == Err(Failed),
        Err(_) => false,
    }
}

fn fails_to_write(rt: HostRuntime) -> bool {
    match File::open(&rt, "/tmp") {
        Ok(file) => FileSink::new(file).write(b"a") == Err(Failed),
        Err(_) => false,
    }
}

// A folder can be opened, and is no file.
#[test]
fn files_that_fail(rt: HostRuntime) {
    assert!(rt; fails_to_read(rt) && fails_to_write(rt));
}
