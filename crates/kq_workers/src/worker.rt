// A worker, and what it works with.
ghost use Rattle.std.specs.Prelude.{◌≡◌, IfOk, OnErr, OnOk};
ghost use Rattle.kq_catalog_journal.specs.Lawful.{AreLawful};
ghost use Rattle.kq_workers.specs.Rounds.{Looks, begun, next};

use kq_engine::{Pass, Shared, Snapshot};
use std::alloc::AllocError;
use std::sync::Wait;

// How many of a worker's looks were refused for want of memory: the number rises by the error of a look alone.
#[derive(Clone, Copy)]
pub(crate) struct RefusedLooks {
    count: u64,
}

impl RefusedLooks {
    pub(crate) fn count(self) -> u64
        ensures { result ≡ self.count }
    {
        self.count
    }

    // The catalogue as it stands.
    pub(crate) fn look<R: Wait>(
        &mut self,
        rt: &R,
        shared: &Shared,
        pass: &mut Pass,
    ) -> Result<Snapshot, AllocError>
        requires { pass.old.of ≡ shared.now.turn }
        ensures history { IfOk result (λ s. s.history ≡ pass.new.seen) }
        ensures lawful { AreLawful shared.now.limits pass.new.seen }
        ensures looks { Looks pass.old pass.new }
        ensures granted { OnOk result (self.new.count ≡ self.old.count) }
        ensures refused { OnErr result (self.new.count ≡ next self.old.count) }
    {
        match shared.snapshot(rt, pass) {
            Ok(snapshot) => Ok(snapshot),
            Err(error) => {
                self.count = self.count.saturating_add(1);
                Err(error)
            }
        }
    }
}

// A worker that is under way: its pass, its looks that were refused, the number of its last chore, and whether memory was wanting.
#[derive(Drop)]
pub(crate) struct Worker {
    pub pass: Pass,
    pub refused: RefusedLooks,
    pub number: u64,
    pub short: bool,
}

impl Worker {
    pub(crate) fn begun(pass: Pass) -> Worker
        ensures { result ≡ begun pass }
    {
        Worker {
            pass,
            refused: RefusedLooks { count: 0 },
            number: 0,
            short: false,
        }
    }
}

// What a worker works with: the engine, its own actor, and the gate that it passes.
#[derive(Drop)]
pub(crate) struct Post<'a, R, G> {
    pub rt: &'a R,
    pub shared: &'a Shared,
    pub actor: u32,
    pub gate: &'a G,
}
