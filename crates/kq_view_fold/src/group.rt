// The groups of rows that go through the operators of a view's body.
ghost use Rattle.std.specs.Prelude.{IfOk};
ghost use Rattle.kq_plan.specs.Plans.{planned_of};
ghost use Rattle.kq_run_gather.specs.Bodies.{IsViewBody};
ghost use Rattle.kq_view_fold.specs.Folds.{Arrives, GroupsTo};

use crate::body::{aggregates_in, behind_source, keys_in, last_step};
use kq_plan::Plan;
use kq_run_gather::{Arrived, Gatherer, Held, Summarize, operators, stage_in};
use kq_run_groups::Groups;
use kq_value::Memory;
use std::alloc::Global;

/// Why there are no groups of rows.
#[derive(Clone, Copy, PartialEq, Eq, Drop)]
pub enum GroupFault {
    /// A result was outside its type, at the stage of this number.
    Overflow { stage: u32 },
    Memory,
}

/// The groups of rows of a body's table, which this gatherer gathers.
pub fn group_rows<G: Gatherer>(
    alloc: Global,
    body: &Plan,
    rows: &Held,
    gatherer: &G,
) -> Result<Groups, GroupFault>
    requires ready { G.ready gatherer.now }
    requires body { IsViewBody (planned_of body.now) }
    ensures { GroupsTo (planned_of body.now) rows.now result }
{
    match arrived(alloc, body, rows, gatherer) {
        Ok(Arrived::Groups(groups)) => Ok(groups),
        Ok(Arrived::Overflow) => Err(GroupFault::Overflow {
            stage: last_step(body).stage,
        }),
        Ok(Arrived::Failed(n)) => Err(GroupFault::Overflow {
            stage: stage_in(behind_source(body), n),
        }),
        Err(_) => Err(GroupFault::Memory),
    }
}

// What the rows come to.
fn arrived<G: Gatherer>(
    alloc: Global,
    body: &Plan,
    rows: &Held,
    gatherer: &G,
) -> Result<Arrived, Memory>
    requires ready { G.ready gatherer.now }
    requires body { IsViewBody (planned_of body.now) }
    ensures { IfOk result (Arrives (planned_of body.now) rows.now) }
{
    let operators = operators(alloc, behind_source(body))?;
    let last = last_step(body);
    let asked = Summarize {
        operators: operators.as_slice(),
        keys: keys_in(last),
        aggregates: aggregates_in(last),
        columns: last.columns.as_slice(),
        lets: &[],
        moment: 0,
    };
    gatherer.gather(alloc, &asked, rows)
}
