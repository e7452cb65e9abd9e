// Rows that threads make beside each other.
ghost use Rattle.std.specs.Prelude.{◌<◌, IfOk};
ghost use Rattle.kq_run_gather.specs.Pipelines.{CollectsTo, ran_through, width_through};

use crate::halves::{halves, threads_for};
use crate::taking::Taking;
use kq_run_gather::{Collected, Held, Pipeline, collect_between, collected_together};
use kq_value::Memory;
use std::alloc::Global;
use std::thread::Threads;

/// The rows that come, in the order of those that they are made of: as many threads as there are processors take parts, of at least so many rows.
pub fn collect_in_parts<R: Threads + Sync>(
    rt: &R,
    alloc: Global,
    pipeline: &Pipeline,
    rows: &Held,
    piece: u64,
) -> Result<Collected, Memory>
    requires { 0 < piece }
    ensures { IfOk result (CollectsTo (width_through pipeline.now rows.now) (ran_through pipeline.now rows.now)) }
{
    let collecting = Collecting {
        pipeline: *pipeline,
        rows,
    };
    let most = threads_for(rt, rows.len(), piece);
    halves(rt, alloc, &collecting, 0, rows.len(), most)
}

// Rows and the operators that they go through, of which those that come are kept.
#[derive(Clone, Copy)]
pub(crate) struct Collecting<'a> {
    pub pipeline: Pipeline<'a>,
    pub rows: &'a Held,
}

impl<R> Taking<R> for Collecting<'_> {
    ghost use Rattle.kq_run_gather.specs.Pipelines.{CollectsTo, ran_through, width_through};
    ghost use Rattle.kq_run_gather.specs.kq_eval_pieces.Pieces.{piece_of};

    type Got = Collected;

    ghost ready = { λ a. Unit {0} };

    ghost comes = { λ a from to c. CollectsTo (width_through a.pipeline a.rows.now) (ran_through a.pipeline (piece_of a.rows.now from to)) c };

    fn take(&self, alloc: Global, from: u64, to: u64) -> Result<Collected, Memory> {
        collect_between(alloc, &self.pipeline, self.rows, from, to)
    }

    fn both(
        &self,
        _rt: &R,
        _alloc: Global,
        first: Collected,
        rest: Collected,
        _most: u64,
    ) -> Result<Collected, Memory> {
        collected_together(first, rest)
    }
}
