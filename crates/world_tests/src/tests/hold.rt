// The gate that makes threads overlap.
use kq_world::{Gate, HoldGate, Point};
use std::thread;
use std::thread::Threads;

// A session comes to the points of its first commands.
fn session<G: Gate>(gate: &G, actor: u32) {
    for number in 1..4 {
        gate.at(Point::Starting { actor, number });
        gate.at(Point::Answered { actor, number });
    }
}

// A worker comes to a fold.
fn worker<G: Gate>(gate: &G, actor: u32) {
    gate.at(Point::Between {
        actor,
        number: 1,
        fold: true,
    });
}

fn together<R: Threads + Sync, G: Gate + Sync>(rt: &R, gate: &G, workers: bool) {
    thread::join(
        rt,
        || {
            thread::join(rt, || session(gate, 0), || session(gate, 1));
        },
        || {
            if workers {
                thread::join(rt, || worker(gate, 8), || worker(gate, 9));
            }
        },
    );
}

#[test]
fn two_sessions_and_two_workers_overlap(rt: HostRuntime) {
    for (workers, count) in [(false, 0), (true, 2)] {
        let gate = HoldGate::new(count, 2, 3, 67_108_864);
        together(&rt, &gate, workers);
        assert!(rt; !gate.given_up());
    }
}

#[test]
fn a_gate_that_waits_in_vain_gives_up(rt: HostRuntime) {
    let gate = HoldGate::new(1, 2, 3, 5);
    gate.at(Point::Starting {
        actor: 0,
        number: 1,
    });
    gate.at(Point::Answered {
        actor: 1,
        number: 1,
    });
    assert!(rt; !gate.given_up());
    gate.at(Point::Starting {
        actor: 0,
        number: 2,
    });
    assert!(rt; gate.given_up());
}
