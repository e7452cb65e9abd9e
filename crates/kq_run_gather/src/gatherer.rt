// Who gathers what rows come to.
ghost use Rattle.std.specs.Prelude.{◌≡◌, IfOk};
ghost use Rattle.kq_run_gather.specs.Leading.{TopsOf};
ghost use Rattle.kq_run_gather.specs.Partnered.{partners_of};
ghost use Rattle.kq_run_gather.specs.Pipelines.{CollectsTo, CountsTo, ran_through, width_through};
ghost use Rattle.kq_run_gather.specs.Summaries.{ComesOf, IsAsked};
ghost use Rattle.kq_run_scan.specs.Beside.{places_found};
ghost use Rattle.kq_run_scan.specs.Sources.{source_rows};
ghost use Rattle.kq_run_scan.specs.kq_eval_pieces.Pieces.{piece_of};

use crate::arriving::{Arrived, gather_groups};
use crate::collecting::{Collected, collect_between};
use crate::counting::{Counted, count_between};
use crate::leading::{Leading, Top, top_between};
use crate::partners::{Partners, find_between};
use crate::pipeline::Pipeline;
use crate::summarize::Summarize;
use kq_run_scan::{Held, Relation, Source};
use kq_value::Memory;
use std::alloc::Global;

/// Who gathers what rows come to that go through row operators, and finds the partners of rows: one thread, or several beside each other.
pub trait Gatherer {
    /// It may work here.
    ghost ready: { Self → Type 0 };

    /// Their groups.
    fn gather(&self, alloc: Global, asked: &Summarize, rows: &Held) -> Result<Arrived, Memory>
        requires ready { ready self.now }
        requires asked { IsAsked asked.now }
        ensures { IfOk result (ComesOf asked.now rows.now) };

    /// How many come.
    fn count(&self, alloc: Global, pipeline: &Pipeline, rows: &Held) -> Result<Counted, Memory>
        requires { ready self.now }
        ensures { IfOk result (CountsTo (ran_through pipeline.now rows.now)) };

    /// The rows that come.
    fn collect(&self, alloc: Global, pipeline: &Pipeline, rows: &Held) -> Result<Collected, Memory>
        requires { ready self.now }
        ensures { IfOk result (CollectsTo (width_through pipeline.now rows.now) (ran_through pipeline.now rows.now)) };

    /// The first of those that come, in an order.
    fn top(&self, alloc: Global, asked: &Top, rows: &Held) -> Result<Leading, Memory>
        requires { ready self.now }
        ensures { IfOk result (TopsOf asked.now rows.now rows.now) };

    /// The places of all rows, each beside those of its partners.
    fn pair(
        &self,
        alloc: Global,
        partners: &Partners,
        rows: &Source,
    ) -> Result<Vec<(usize, usize)>, Memory>
        requires { ready self.now }
        ensures { IfOk result (λ pairs. pairs.items ≡ places_found (partners_of partners.now) 0 (source_rows rows.now)) };

    // That it may is shown in one way at most, so a struct can keep it.
    ghost ready_once: { (g : Self) → IsProp (ready g) };
}

/// The thread that asks.
#[derive(Clone, Copy)]
pub struct Alone;

impl Gatherer for Alone {
    ghost use Rattle.std.specs.Coded.{Unit-prop};

    ghost ready = { λ a. Unit {0} };

    ghost ready_once = { λ a. Unit-prop };

    fn gather(&self, alloc: Global, asked: &Summarize, rows: &Held) -> Result<Arrived, Memory> {
        gather_between(alloc, asked, rows, 0, rows.len())
    }

    fn count(&self, alloc: Global, pipeline: &Pipeline, rows: &Held) -> Result<Counted, Memory> {
        count_between(alloc, pipeline, rows, 0, rows.len())
    }

    fn collect(
        &self,
        alloc: Global,
        pipeline: &Pipeline,
        rows: &Held,
    ) -> Result<Collected, Memory> {
        collect_between(alloc, pipeline, rows, 0, rows.len())
    }

    fn top(&self, alloc: Global, asked: &Top, rows: &Held) -> Result<Leading, Memory> {
        top_between(alloc, asked, rows, 0, rows.len())
    }

    fn pair(
        &self,
        alloc: Global,
        partners: &Partners,
        rows: &Source,
    ) -> Result<Vec<(usize, usize)>, Memory> {
        find_between(alloc, partners, rows, 0, rows.len())
    }
}

/// What the rows from the one of a number on, up to that of another, come to in this thread.
pub fn gather_between(
    alloc: Global,
    asked: &Summarize,
    rows: &Held,
    from: u64,
    to: u64,
) -> Result<Arrived, Memory>
    requires { IsAsked asked.now }
    ensures { IfOk result (ComesOf asked.now (piece_of rows.now from to)) }
{
    let mut flow = rows.flow_between(alloc, from, to, asked.operators, asked.lets, asked.moment);
    gather_groups(
        alloc,
        &mut flow,
        asked.keys,
        asked.aggregates,
        asked.columns,
        asked.lets,
        asked.moment,
    )
}
