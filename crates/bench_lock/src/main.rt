//! How many takes and gives of a `Turn` one, two, four and eight threads reach a second. With the
//! argument `time` it measures; without it each thread takes and gives a few times, and what is
//! printed is always the same.
#![tactic(auto)]

ghost use Rattle.std.specs.Prelude.{◌≡◌, ◌≤◌, ◌-◌};
ghost use Rattle.std.specs.Thread.{IsSync};
ghost use Rattle.kq_lock.specs.Passes.{IsIdle};

use kq_lock::{Grows, Memory, Pass, Turn};
use std::alloc::{AllocError, Global};
use std::rt::Clock;
use std::sync::Wait;
use std::thread::Threads;
use std::time::Instant;
use std::{env, io, thread};

// How often each thread takes and gives where nothing is measured.
const FEW: u64 = 100;

// How often all threads together take and give where it is measured.
const MANY: u64 = 2_000_000;

// A value whose history stays empty.
#[derive(Drop)]
struct Still;

impl Grows for Still {
    type Entry = u64;

    ghost use Rattle.std.specs.Prelude.{[]};

    ghost history = { λ _. [] };

    ghost fixed = { λ _. [] };

    fn count(&self) -> u64 {
        0
    }
}

// One thread's takes and gives.
fn take_and_give<R: Wait>(
    rt: &R,
    turn: &Turn<Still>,
    mut pass: Pass<Still>,
    rounds: u64,
) -> Pass<Still>
    requires of { pass.of ≡ turn.now }
    requires idle { IsIdle pass }
    ensures of { result.of ≡ pass.of }
    ensures idle { IsIdle result }
    ensures worth { result.worth ≡ pass.worth }
{
    for _ in 0..rounds {
        let value = turn.take(rt, &mut pass);
        turn.give(&mut pass, value);
    }
    pass
}

// A thread for each unit of the pass's worth.
fn spread<R: Threads + Wait + Sync>(
    rt: &R,
    turn: &Turn<Still>,
    pass: Pass<Still>,
    threads: u32,
    rounds: u64,
) -> Pass<Still>
    requires of { pass.of ≡ turn.now }
    requires idle { IsIdle pass }
    requires worth { pass.worth ≡ threads }
    requires some { 1 ≤ threads }
    ensures of { result.of ≡ pass.of }
    ensures idle { IsIdle result }
    ensures worth { result.worth ≡ pass.worth }
{
    if threads == 1 {
        return take_and_give(rt, turn, pass, rounds);
    }
    let (rest, mine) = turn.split(pass);
    let (others, one) = thread::join(
        rt,
        move || -> Pass<Still>
            requires of { rest.of ≡ turn.now }
            requires idle { IsIdle rest }
            requires worth { rest.worth ≡ threads - 1 }
            requires some { 2 ≤ threads }
            requires sync { IsSync R.row }
            ensures of { result.of ≡ rest.of }
            ensures idle { IsIdle result }
            ensures worth { result.worth ≡ rest.worth }
        { spread(rt, turn, rest, threads - 1, rounds) },
        move || -> Pass<Still>
            requires of { mine.of ≡ turn.now }
            requires idle { IsIdle mine }
            ensures of { result.of ≡ mine.of }
            ensures idle { IsIdle result }
            ensures worth { result.worth ≡ mine.worth }
        { take_and_give(rt, turn, mine, rounds) },
    );
    turn.join(others, one)
}

fn run<R: Threads + Wait + Sync>(
    rt: &R,
    alloc: Global,
    threads: u32,
    rounds: u64,
) -> Result<(), Memory>
    requires { 1 ≤ threads }
{
    let (turn, pass) = Turn::start(alloc, Still, threads)?;
    let pass = spread(rt, &turn, pass, threads, rounds);
    turn.close(pass);
    Ok(())
}

fn report<R: Threads + Wait + Sync + Print + Clock>(
    rt: &R,
    alloc: Global,
    threads: u32,
    timed: bool,
) -> io::Result<()>
    requires { 1 ≤ threads }
{
    if !timed {
        run(rt, alloc, threads, FEW)?;
        return println!(rt; "{threads} threads took and gave {FEW} times each");
    }
    let start = Instant::now(rt)?;
    run(rt, alloc, threads, MANY / u64::from(threads))?;
    let millis = start.elapsed(rt)?.as_millis().max(1);
    let rate = u128::from(MANY) * 1000 / millis;
    println!(rt; "{threads} threads: {rate} takes and gives a second")
}

fn main(rt: HostRuntime) -> io::Result<()> {
    let mut timed = false;
    for word in env::args(&rt)? {
        timed = timed || word.as_str() == "time";
    }
    report(&rt, rt.alloc(), 1, timed)?;
    report(&rt, rt.alloc(), 2, timed)?;
    report(&rt, rt.alloc(), 4, timed)?;
    report(&rt, rt.alloc(), 8, timed)
}
