// A plan, stretch by stretch.
ghost use Rattle.std.specs.Prelude.{◌≡◌, ◌++◌, IfOk, OnOk, replicate};
ghost use Rattle.kq_plan.specs.Plans.{planned_of};
ghost use Rattle.kq_value.specs.Typed.{IsMoment};
ghost use Rattle.kq_run_plan.specs.Gives.{Gives};
ghost use Rattle.kq_run_plan.specs.Outcomes.{no_rows};
ghost use Rattle.kq_run_plan.specs.Stretches.{AreUnshared, planned_by};
ghost use Rattle.kq_run_plan.specs.Typed.{FitsWorld};

use crate::leaves::Leaves;
use crate::outcome::{Outcome, take_out};
use crate::shared::unshared;
use crate::stretch::{run_stretch, stretch_end};
use kq_plan::{Plan, Step};
use kq_run_gather::{Alone, Gatherer};
use kq_run_scan::Held;
use kq_store_rows::Rows;
use kq_value::Memory;
use std::alloc::Global;

/// What a plan gives over a world, at a moment: the first fault of its steps, or else what the step with the number `output` gives.
/// A number that is no step's stands for no rows, in an order. Rows that only the next step takes, one at a time, stand nowhere.
pub fn run_plan<L: Leaves>(
    alloc: Global,
    plan: &Plan,
    leaves: &L,
    now: i64,
) -> Result<Outcome, Memory>
    requires moment { IsMoment now }
    requires fits { FitsWorld (planned_of plan.now) (L.known leaves.now) (L.may_give leaves.now) }
    ensures { IfOk result (Gives (planned_of plan.now) (L.may_give leaves.now) now) }
{
    run_plan_by(alloc, plan, leaves, &Alone, now)
}

/// The same, where this gatherer gathers what comes through row operators: the groups of each summarize, a count, and rows that are kept. It finds
/// the partners of a join's rows too.
pub fn run_plan_by<L: Leaves, G: Gatherer>(
    alloc: Global,
    plan: &Plan,
    leaves: &L,
    gatherer: &G,
    now: i64,
) -> Result<Outcome, Memory>
    requires ready { G.ready gatherer.now }
    requires moment { IsMoment now }
    requires fits { FitsWorld (planned_of plan.now) (L.known leaves.now) (L.may_give leaves.now) }
    ensures { IfOk result (Gives (planned_of plan.now) (L.may_give leaves.now) now) }
{
    let marks = unshared(alloc, plan)?;
    run_steps(
        alloc,
        plan.steps.as_slice(),
        plan.output,
        marks.as_slice(),
        leaves,
        gatherer,
        now,
    )
}

// The same of a plan's steps, whose unshared rows are marked.
fn run_steps<L: Leaves, G: Gatherer>(
    alloc: Global,
    steps: &[Step],
    output: usize,
    marks: &[bool],
    leaves: &L,
    gatherer: &G,
    now: i64,
) -> Result<Outcome, Memory>
    requires ready { G.ready gatherer.now }
    requires moment { IsMoment now }
    requires fits { FitsWorld (planned_by steps.now output) (L.known leaves.now) (L.may_give leaves.now) }
    requires marks { AreUnshared (planned_by steps.now output) marks.now }
    ensures { IfOk result (Gives (planned_by steps.now output) (L.may_give leaves.now) now) }
{
    let mut done = Vec::new(alloc);
    let mut at = 0;
    while at < steps.len() {
        let end = stretch_end(steps, marks, at);
        let outcome = run_stretch(
            alloc,
            &steps[..at],
            &steps[at..end],
            done.as_slice(),
            leaves,
            gatherer,
            now,
        )?;
        if outcome.is_fault() {
            return Ok(outcome);
        }
        push_none(alloc, &mut done, end - at - 1)?;
        done.push(outcome)?;
        at = end;
    }
    Ok(take_out(alloc, done, output))
}

// No rows, so many times, in place of outcomes that no step takes any more.
fn push_none(alloc: Global, done: &mut Vec<Outcome>, count: usize) -> Result<(), Memory>
    ensures { OnOk result (done.new.items ≡ done.old.items ++ replicate count no_rows) }
{
    for _ in 0..count {
        done.push(Outcome::Table {
            ordered: true,
            rows: Held::own(Rows::new(alloc)),
        })?;
    }
    Ok(())
}
