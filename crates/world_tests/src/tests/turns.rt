ghost use Rattle.std.specs.Prelude.{◌≡◌, ◌+◌, ◌-◌, ◌*◌, ◌≤◌, ◌^◌, ◌<◌, length, IfSome, if◌then◌else◌};
ghost use mathlib.Core.List.{IsPrefix};
ghost use Rattle.std.specs.Thread.{IsSync};
ghost use Rattle.kq_lock.specs.Passes.{IsIdle};

use kq_lock::{Grows, Pass, Turn};
use std::alloc::Global;
use std::process::Abort;
use std::sync::Wait;
use std::thread;
use std::thread::Threads;

// How many numbers each thread adds.
const ROUNDS: u64 = 1000;

// A list of numbers, each of which counts one, under a name.
#[derive(Drop)]
struct Log {
    items: Vec<u64>,
    name: u64,
}

impl Grows for Log {
    type Entry = u64;

    ghost use Rattle.std.specs.Prelude.{◌∷◌, []};

    ghost history = { λ l. l.items.items };

    ghost fixed = { λ l. l.name ∷ [] };

    fn count(&self) -> u64 {
        self.items.len() as u64
    }
}

// A pass that comes back, and how many numbers were added with it.
#[derive(Drop)]
struct Added {
    pass: Pass<Log>,
    count: u64,
}

// Adds one number, if there is memory for it.
fn add<R: Wait>(rt: &R, turn: &Turn<Log>, pass: &mut Pass<Log>, x: u64) -> bool
    requires of { pass.old.of ≡ turn.now }
    requires idle { IsIdle pass.old }
    ensures of { pass.new.of ≡ pass.old.of }
    ensures idle { IsIdle pass.new }
    ensures worth { pass.new.worth ≡ pass.old.worth }
    ensures seen { IsPrefix pass.old.seen pass.new.seen }
    ensures made { length pass.new.added ≡ length pass.old.added + (if result then 1 else 0) }
{
    let mut log = turn.take(rt, pass);
    let added = log.items.push(x).is_ok();
    turn.give(pass, log);
    added
}

// Adds numbers that go up from `first`.
fn add_all<R: Wait>(rt: &R, turn: &Turn<Log>, mut pass: Pass<Log>, first: u64) -> Added
    requires of { pass.of ≡ turn.now }
    requires idle { IsIdle pass }
    requires fits { first + 1000 < 2 ^ 64 }
    ensures of { result.pass.of ≡ pass.of }
    ensures idle { IsIdle result.pass }
    ensures worth { result.pass.worth ≡ pass.worth }
    ensures made { length result.pass.added ≡ length pass.added + result.count }
    ensures count { result.count ≤ 1000 }
{
    let mut count = 0;
    for x in 0..ROUNDS {
        if add(rt, turn, &mut pass, first + x) {
            count += 1;
        }
    }
    Added { pass, count }
}

// What two threads add to an empty list.
fn by_two<R: Threads + Wait + Sync>(rt: &R, alloc: Global) -> Option<(Log, u64)>
    ensures total { IfSome result (λ r. length r.0.items.items ≡ r.1) }
    ensures name { IfSome result (λ r. r.0.name ≡ 7) }
{
    let log = Log {
        items: Vec::new(alloc),
        name: 7,
    };
    let Ok((turn, pass)) = Turn::start(alloc, log, 2) else {
        return None;
    };
    let (one, two) = turn.split(pass);
    let lock = &turn;
    let (one, two) = thread::join(
        rt,
        move || -> Added
            requires of { one.of ≡ lock.now }
            requires idle { IsIdle one }
            ensures of { result.pass.of ≡ one.of }
            ensures idle { IsIdle result.pass }
            ensures worth { result.pass.worth ≡ one.worth }
            ensures made { length result.pass.added ≡ length one.added + result.count }
            ensures count { result.count ≤ 1000 }
        { add_all(rt, lock, one, 0) },
        move || -> Added
            requires of { two.of ≡ lock.now }
            requires idle { IsIdle two }
            ensures of { result.pass.of ≡ two.of }
            ensures idle { IsIdle result.pass }
            ensures worth { result.pass.worth ≡ two.worth }
            ensures made { length result.pass.added ≡ length two.added + result.count }
            ensures count { result.count ≤ 1000 }
        { add_all(rt, lock, two, 5000) },
    );
    let count = one.count + two.count;
    let pass = turn.join(one.pass, two.pass);
    Some((turn.close(pass), count))
}

// A run of numbers that go up by one from `first` to `end`, among others that lie outside.
fn is_run(items: &[u64], first: u64, end: u64) -> bool {
    let mut next = first;
    for x in items {
        if first <= *x && *x < end {
            if *x != next {
                return false;
            }
            next = next.wrapping_add(1);
        }
    }
    next == end
}

fn check_two(rt: &impl Abort, items: &[u64], count: u64) {
    assert_eq!(rt; count, 2000);
    assert_eq!(rt; items.len(), 2000);
    assert!(rt; is_run(items, 0, 1000));
    assert!(rt; is_run(items, 5000, 6000));
}

#[test]
fn two_threads_give_a_list_1000_times_each(rt: HostRuntime) {
    match by_two(&rt, rt.alloc()) {
        Some((log, count)) => check_two(&rt, log.items.as_slice(), count),
        None => assert!(rt; false, "memory"),
    }
}

// What several threads add to an empty list, a thread for each unit of the pass's worth. The passes
// are joined in another order at each depth.
fn spread<R: Threads + Wait + Sync>(
    rt: &R,
    turn: &Turn<Log>,
    pass: Pass<Log>,
    threads: u64,
) -> Added
    requires of { pass.of ≡ turn.now }
    requires idle { IsIdle pass }
    requires worth { pass.worth ≡ threads }
    requires some { 1 ≤ threads }
    requires few { threads ≤ 8 }
    ensures of { result.pass.of ≡ pass.of }
    ensures idle { IsIdle result.pass }
    ensures worth { result.pass.worth ≡ pass.worth }
    ensures made { length result.pass.added ≡ length pass.added + result.count }
    ensures count { result.count ≤ 1000 * threads }
{
    let first = 1000 * threads;
    if threads == 1 {
        return add_all(rt, turn, pass, first);
    }
    let (rest, mine) = turn.split(pass);
    let (others, one) = thread::join(
        rt,
        move || -> Added
            requires of { rest.of ≡ turn.now }
            requires idle { IsIdle rest }
            requires worth { rest.worth ≡ threads - 1 }
            requires some { 2 ≤ threads }
            requires few { threads ≤ 8 }
            requires sync { IsSync R.row }
            ensures of { result.pass.of ≡ rest.of }
            ensures idle { IsIdle result.pass }
            ensures worth { result.pass.worth ≡ rest.worth }
            ensures made { length result.pass.added ≡ length rest.added + result.count }
            ensures count { result.count ≤ 1000 * (threads - 1) }
        { spread(rt, turn, rest, threads - 1) },
        move || -> Added
            requires of { mine.of ≡ turn.now }
            requires idle { IsIdle mine }
            requires fits { first + 1000 < 2 ^ 64 }
            ensures of { result.pass.of ≡ mine.of }
            ensures idle { IsIdle result.pass }
            ensures worth { result.pass.worth ≡ mine.worth }
            ensures made { length result.pass.added ≡ length mine.added + result.count }
            ensures count { result.count ≤ 1000 }
        { add_all(rt, turn, mine, first) },
    );
    let count = others.count + one.count;
    let pass = if threads % 2 == 0 {
        turn.join(others.pass, one.pass)
    } else {
        turn.join(one.pass, others.pass)
    };
    Added { pass, count }
}

fn by_eight<R: Threads + Wait + Sync>(rt: &R, alloc: Global) -> Option<(Log, u64)>
    ensures total { IfSome result (λ r. length r.0.items.items ≡ r.1) }
{
    let log = Log {
        items: Vec::new(alloc),
        name: 8,
    };
    let Ok((turn, pass)) = Turn::start(alloc, log, 8) else {
        return None;
    };
    let all = spread(rt, &turn, pass, 8);
    Some((turn.close(all.pass), all.count))
}

fn check_eight(rt: &impl Abort, items: &[u64], count: u64) {
    assert_eq!(rt; count, 8000);
    assert_eq!(rt; items.len(), 8000);
    for thread in 1..9u64 {
        let held = is_run(items, 1000 * thread, 1000 * thread + 1000);
        assert!(rt; held, "thread {thread}");
    }
}

#[test]
fn eight_threads_with_passes_joined_in_turn(rt: HostRuntime) {
    match by_eight(&rt, rt.alloc()) {
        Some((log, count)) => check_eight(&rt, log.items.as_slice(), count),
        None => assert!(rt; false, "memory"),
    }
}

// Three passes on one thread, split and joined in several ways before the turn is closed.
fn by_three_passes<R: Wait>(rt: &R, alloc: Global) -> Option<Log>
    ensures name { IfSome result (λ log. log.name ≡ 3) }
{
    let log = Log {
        items: Vec::new(alloc),
        name: 3,
    };
    let Ok((turn, mut one)) = Turn::start(alloc, log, 3) else {
        return None;
    };
    add(rt, &turn, &mut one, 1);
    let (one, mut two) = turn.split(one);
    add(rt, &turn, &mut two, 2);
    let (mut one, mut three) = turn.split(one);
    add(rt, &turn, &mut three, 3);
    add(rt, &turn, &mut one, 4);
    let (mut two, mut three) = turn.split(turn.join(three, two));
    add(rt, &turn, &mut three, 5);
    add(rt, &turn, &mut two, 6);
    let mut all = turn.join(two, turn.join(one, three));
    add(rt, &turn, &mut all, 7);
    Some(turn.close(all))
}

#[test]
fn a_turn_closes_after_every_pass_was_joined(rt: HostRuntime) {
    let counted = match by_three_passes(&rt, rt.alloc()) {
        Some(log) => log.items.as_slice() == [1, 2, 3, 4, 5, 6, 7].as_slice(),
        None => false,
    };
    assert!(rt; counted);
}
