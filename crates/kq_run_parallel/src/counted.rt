// Rows that threads count beside each other.
ghost use Rattle.std.specs.Prelude.{◌<◌, IfOk};
ghost use Rattle.kq_run_gather.specs.Pipelines.{CountsTo, ran_through};

use crate::halves::{halves, threads_for};
use crate::taking::Taking;
use kq_run_gather::{Counted, Held, Pipeline, count_between, counted_together};
use kq_value::Memory;
use std::alloc::Global;
use std::thread::Threads;

/// How many rows come: as many threads as there are processors take parts of them, of at least so many rows.
pub fn count_in_parts<R: Threads + Sync>(
    rt: &R,
    alloc: Global,
    pipeline: &Pipeline,
    rows: &Held,
    piece: u64,
) -> Result<Counted, Memory>
    requires { 0 < piece }
    ensures { IfOk result (CountsTo (ran_through pipeline.now rows.now)) }
{
    let counting = Counting {
        pipeline: *pipeline,
        rows,
    };
    let most = threads_for(rt, rows.len(), piece);
    halves(rt, alloc, &counting, 0, rows.len(), most)
}

// Rows and the operators that they go through, of which those that come are counted.
#[derive(Clone, Copy)]
pub(crate) struct Counting<'a> {
    pub pipeline: Pipeline<'a>,
    pub rows: &'a Held,
}

impl<R> Taking<R> for Counting<'_> {
    ghost use Rattle.kq_run_gather.specs.Pipelines.{CountsTo, ran_through};
    ghost use Rattle.kq_run_gather.specs.kq_eval_pieces.Pieces.{piece_of};

    type Got = Counted;

    ghost ready = { λ a. Unit {0} };

    ghost comes = { λ a from to c. CountsTo (ran_through a.pipeline (piece_of a.rows.now from to)) c };

    fn take(&self, alloc: Global, from: u64, to: u64) -> Result<Counted, Memory> {
        count_between(alloc, &self.pipeline, self.rows, from, to)
    }

    fn both(
        &self,
        _rt: &R,
        _alloc: Global,
        first: Counted,
        rest: Counted,
        _most: u64,
    ) -> Result<Counted, Memory> {
        counted_together(first, rest)
    }
}
