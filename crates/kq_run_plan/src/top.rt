// The first in an order of the rows that come through row operators.
ghost use Rattle.std.specs.Prelude.{◌≡◌, IfOk};
ghost use Rattle.kq_plan.specs.Plans.{sorting_of};
ghost use Rattle.kq_run_gather.specs.Pipelines.{ran_through};
ghost use Rattle.kq_run_gather.specs.kq_eval_row.Val.{surroundings};
ghost use Rattle.kq_run_plan.specs.Ended.{EndsAs};
ghost use Rattle.kq_run_plan.specs.Gives.{TopsTo};

use crate::outcome::Outcome;
use crate::sinks::Ended;
use kq_run_gather::{Collected, Gatherer, Leading, Top};
use kq_run_scan::Held;
use kq_run_sort::top_rows;
use kq_value::{EvalFault, Memory};
use std::alloc::{AllocError, Global};

// The first rows in the order, or an overflow of its key at this stage.
pub(crate) fn keep_first<G: Gatherer>(
    alloc: Global,
    gatherer: &G,
    asked: &Top,
    rows: &Held,
    stage: u32,
) -> Result<Ended, Memory>
    requires { G.ready gatherer.now }
    ensures { IfOk result (EndsAs (λ all. TopsTo asked.now.count (sorting_of asked.now.key.now) (surroundings asked.now.pipeline.moment asked.now.pipeline.lets.now) all stage) (ran_through asked.now.pipeline rows.now)) }
{
    if asked.count < rows.len() / 2 {
        keep_leading(alloc, gatherer, asked, rows, stage)
    } else {
        keep_sorted(alloc, gatherer, asked, rows, stage)
    }
}

// The same, where they are fewer than half of the rows that go in.
fn keep_leading<G: Gatherer>(
    alloc: Global,
    gatherer: &G,
    asked: &Top,
    rows: &Held,
    stage: u32,
) -> Result<Ended, Memory>
    requires { G.ready gatherer.now }
    ensures { IfOk result (EndsAs (λ all. TopsTo asked.now.count (sorting_of asked.now.key.now) (surroundings asked.now.pipeline.moment asked.now.pipeline.lets.now) all stage) (ran_through asked.now.pipeline rows.now)) }
{
    match gatherer.top(alloc, asked, rows)? {
        Leading::Rows(first) => Ok(Ended::Gave(Outcome::Table {
            ordered: true,
            rows: Held::own(first),
        })),
        Leading::Overflow => Ok(Ended::Gave(Outcome::Overflow { stage })),
        Leading::Failed(n) => Ok(Ended::Failed(n)),
    }
}

// The same where they are more: once all have come.
fn keep_sorted<G: Gatherer>(
    alloc: Global,
    gatherer: &G,
    asked: &Top,
    rows: &Held,
    stage: u32,
) -> Result<Ended, Memory>
    requires { G.ready gatherer.now }
    ensures { IfOk result (EndsAs (λ all. TopsTo asked.now.count (sorting_of asked.now.key.now) (surroundings asked.now.pipeline.moment asked.now.pipeline.lets.now) all stage) (ran_through asked.now.pipeline rows.now)) }
{
    let pipeline = asked.pipeline;
    match gatherer.collect(alloc, &pipeline, rows)? {
        Collected::Rows(all) => {
            match top_rows(
                alloc,
                &all,
                asked.count,
                asked.key,
                pipeline.lets,
                pipeline.moment,
            ) {
                Ok(first) => Ok(Ended::Gave(Outcome::Table {
                    ordered: true,
                    rows: Held::own(first),
                })),
                Err(EvalFault::Overflow) => Ok(Ended::Gave(Outcome::Overflow { stage })),
                Err(EvalFault::Memory) => Err(AllocError),
            }
        }
        Collected::Failed(n) => Ok(Ended::Failed(n)),
    }
}
