// Threads that gather what rows come to, beside each other.
ghost use Rattle.std.specs.Prelude.{◌<◌};

use crate::counted::count_in_parts;
use crate::halves::gather_in_parts;
use crate::paired::pair_in_parts;
use crate::rows::collect_in_parts;
use crate::topped::top_in_parts;
use kq_run_gather::{
    Arrived, Collected, Counted, Gatherer, Held, Leading, Partners, Pipeline, Summarize, Top,
};
use kq_run_scan::Source;
use kq_value::Memory;
use std::alloc::Global;
use std::thread::Threads;

/// As many rows as are worth a thread.
pub const PIECE: u64 = 8192;

/// Threads that gather what rows come to, beside each other, each of at least so many rows.
#[derive(Drop)]
pub struct Crew<'a, R> {
    rt: &'a R,
    piece: u64,
    ghost some: { 0 < piece },
}

impl<'a, R: Threads + Sync> Crew<'a, R> {
    pub fn new(rt: &'a R, piece: u64) -> Crew<'a, R>
        requires { 0 < piece }
    {
        Crew { rt, piece }
    }
}

impl<R: Threads + Sync> Gatherer for Crew<'_, R> {
    ghost use Rattle.std.specs.Thread.{IsSync};
    ghost use Rattle.kq_run_parallel.specs.Crossed.{sync_once};

    ghost ready = { λ c. IsSync R.row };

    ghost ready_once = { λ c. sync_once R.row };

    fn gather(&self, alloc: Global, asked: &Summarize, rows: &Held) -> Result<Arrived, Memory> {
        gather_in_parts(self.rt, alloc, asked, rows, self.piece)
    }

    fn count(&self, alloc: Global, pipeline: &Pipeline, rows: &Held) -> Result<Counted, Memory> {
        count_in_parts(self.rt, alloc, pipeline, rows, self.piece)
    }

    fn collect(
        &self,
        alloc: Global,
        pipeline: &Pipeline,
        rows: &Held,
    ) -> Result<Collected, Memory> {
        collect_in_parts(self.rt, alloc, pipeline, rows, self.piece)
    }

    fn top(&self, alloc: Global, asked: &Top, rows: &Held) -> Result<Leading, Memory> {
        top_in_parts(self.rt, alloc, asked, rows, self.piece)
    }

    fn pair(
        &self,
        alloc: Global,
        partners: &Partners,
        rows: &Source,
    ) -> Result<Vec<(usize, usize)>, Memory> {
        pair_in_parts(self.rt, alloc, partners, rows, self.piece)
    }
}
