// A summarize and the rows of which it is asked.
use crate::joining::joined_by;
use crate::taking::Taking;
use kq_run_gather::{Arrived, Held, Summarize, gather_between};
use kq_value::Memory;
use std::alloc::Global;
use std::thread::Threads;

#[derive(Clone, Copy)]
pub(crate) struct Asked<'a> {
    pub summarize: Summarize<'a>,
    pub rows: &'a Held,
}

impl<R: Threads + Sync> Taking<R> for Asked<'_> {
    ghost use Rattle.std.specs.Thread.{IsSync};
    ghost use Rattle.kq_run_gather.specs.Summaries.{ComesOf, IsAsked};
    ghost use Rattle.kq_run_gather.specs.kq_eval_pieces.Pieces.{piece_of};

    type Got = Arrived;

    ghost ready = { λ a. IsSync R.row × IsAsked a.summarize };

    ghost comes = { λ a from to c. ComesOf a.summarize (piece_of a.rows.now from to) c };

    fn take(&self, alloc: Global, from: u64, to: u64) -> Result<Arrived, Memory> {
        gather_between(alloc, &self.summarize, self.rows, from, to)
    }

    fn both(
        &self,
        rt: &R,
        alloc: Global,
        first: Arrived,
        rest: Arrived,
        most: u64,
    ) -> Result<Arrived, Memory> {
        joined_by(rt, alloc, first, rest, most)
    }
}
