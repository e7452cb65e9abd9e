// Each object once through its trait.
ghost use Rattle.std.specs.Prelude.{◌≡◌, ◌<◌, false, IfOk};

use super::feeds::world;
use kq_value::{Bytes, Memory};
use kq_world::{
    Clock, Failed, Gate, ListClock, MemorySink, MemorySource, MemoryWorld, OpenGate, Parts, Point,
    RealWorld, Source, StdinSource, StdoutSink, SystemClock, World, put_all,
};
use std::alloc::Global;
use std::cell::Cell;
use std::io;
use std::process::Abort;
use std::time::Duration;

// A source whose second read fails.
fn source(alloc: Global, bytes: &[u8], step: usize) -> Result<MemorySource, Memory>
    requires { 0 < step }
    ensures { IfOk result (λ s. s.faults ≡ 0) }
{
    let fails = [2].to_vec(alloc)?;
    Ok(MemorySource::new(Bytes::from_vec(bytes.to_vec(alloc)?), step, fails))
}

fn read_each(rt: &impl Abort, source: &mut MemorySource) {
    for (want, front, left) in [
        (Ok(2), *b"ab\0\0", b"cde".as_slice()),
        (Err(Failed), *b"\0\0\0\0", b"cde".as_slice()),
        (Ok(2), *b"cd\0\0", b"e".as_slice()),
        (Ok(1), *b"e\0\0\0", b"".as_slice()),
        (Ok(0), *b"\0\0\0\0", b"".as_slice()),
    ] {
        let mut buf = [0; 4];
        let read = source.read(&mut buf);
        assert!(rt; read == want && buf == front && source.left() == left);
    }
    assert_eq!(rt; source.faults(), 1);
}

#[test]
fn a_source_gives_its_bytes_in_steps(rt: HostRuntime) {
    match source(rt.alloc(), b"abcde", 2) {
        Ok(mut source) => read_each(&rt, &mut source),
        Err(_) => assert!(rt; false, "memory"),
    }
}

// A sink whose second write fails.
fn sink(alloc: Global) -> Result<MemorySink, Memory> {
    let fails = [2].to_vec(alloc)?;
    MemorySink::new(alloc, 3, fails)
}

fn write_each(rt: &impl Abort, sink: &mut MemorySink) {
    for (piece, want, bytes) in [
        (b"hello".as_slice(), Err(Failed), b"hel".as_slice()),
        (b"p".as_slice(), Ok(()), b"help".as_slice()),
    ] {
        let put = put_all(sink, piece);
        assert!(rt; put == want && sink.bytes() == bytes);
    }
    assert_eq!(rt; sink.faults(), 1);
}

#[test]
fn a_sink_takes_its_bytes_in_steps(rt: HostRuntime) {
    match sink(rt.alloc()) {
        Ok(mut sink) => write_each(&rt, &mut sink),
        Err(_) => assert!(rt; false, "memory"),
    }
}

const FIRST: i64 = 638_396_640_000_000_000;

fn clock(alloc: Global) -> Result<ListClock, Memory> {
    let list = [FIRST, 0, 3_155_378_975_999_999_999, FIRST + 1].to_vec(alloc)?;
    Ok(ListClock::new(list))
}

fn ask_each(rt: &impl Abort, clock: &mut ListClock) {
    for want in [FIRST, 0, 3_155_378_975_999_999_999, FIRST + 1, FIRST + 1] {
        assert_eq!(rt; clock.now(), want);
    }
}

#[test]
fn the_last_reading_of_a_list_repeats(rt: HostRuntime) {
    match clock(rt.alloc()) {
        Ok(mut clock) => ask_each(&rt, &mut clock),
        Err(_) => assert!(rt; false, "memory"),
    }
}

fn begins<W: World>(world: &mut W, gate: &impl Gate) -> Parts<W::Source, W::Sink, W::Clock>
    requires { W.begun world.old ≡ false }
{
    gate.at(Point::Starting {
        actor: 0,
        number: 1,
    });
    world.first()
}

fn sends<T: Send>(_x: &T) {}

fn gives_objects(world: &mut MemoryWorld) -> bool
    requires { ⟦<MemoryWorld as World>⟧.begun world.old ≡ false }
{
    let parts = begins(world, &OpenGate);
    sends(&parts.source);
    sends(&parts.sink);
    sends(&parts.clock);
    parts.source.left() == b"a".as_slice()
}

#[test]
fn a_world_in_memory_gives_its_objects(rt: HostRuntime) {
    let given = match world(rt.alloc(), b"a") {
        Ok(mut world) => gives_objects(&mut world),
        Err(_) => false,
    };
    assert!(rt; given);
}

#[test]
fn the_real_world_gives_objects_that_may_cross_threads(rt: HostRuntime) {
    let parts = begins(&mut RealWorld::new(rt), &OpenGate);
    sends(&parts.source);
    sends(&parts.sink);
    sends(&parts.clock);
}

// Whatever standard input is, a read stays within the buffer.
#[test]
fn standard_input_is_read(rt: HostRuntime) {
    let mut buf = [0; 16];
    match StdinSource::new(rt).read(&mut buf) {
        Ok(n) => assert!(rt; n <= 16),
        Err(Failed) => {}
    }
}

#[test]
fn standard_output_is_written(rt: HostRuntime) {
    assert!(rt; put_all(&mut StdoutSink::new(rt), b"\n") == Ok(()));
}

// It answers one reading, and fails from then on.
#[derive(Drop)]
struct Once(Cell<Option<Duration>>);

impl std::rt::Clock for Once {
    fn monotonic(&self) -> io::Result<Duration> {
        self.since_1970()
    }

    fn since_1970(&self) -> io::Result<Duration> {
        self.0
            .replace(None)
            .ok_or(io::Error::from(io::ErrorKind::Other))
    }
}

// Whether a clock gives this reading, and repeats it where the next one fails.
fn repeats(since: Duration, want: i64) -> bool {
    let mut clock = SystemClock::new(Once(Cell::new(Some(since))));
    clock.now() == want && clock.now() == want
}

#[test]
fn the_system_clock_counts_ticks_and_repeats(rt: HostRuntime) {
    // 9999-12-31 23:59:59, and the second after it.
    let last = 253_402_300_799;
    for (seconds, nanos, want) in [
        (0, 0, 621_355_968_000_000_000),
        (1, 250, 621_355_968_010_000_002),
        (last, 999_999_999, 3_155_378_975_999_999_999),
        (last + 1, 0, 0),
    ] {
        assert!(rt; repeats(Duration::new(seconds, nanos), want));
    }
    // 2024-01-01
    assert!(rt; SystemClock::new(rt).now() > FIRST);
}
