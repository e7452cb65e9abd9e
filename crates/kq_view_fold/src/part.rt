// Parts of views.
ghost use Rattle.std.specs.Prelude.{◌++◌, List, [], IfOk};
ghost use Rattle.kq_run_gather.specs.kq_eval_pieces.Operators.{Row};
ghost use Rattle.kq_plan.specs.Plans.{planned_of};
ghost use Rattle.kq_run_gather.specs.Bodies.{AnswersMade, IsViewBody, StandsFor};
ghost use Rattle.kq_view_fold.specs.Folds.{FoldsTo, IsPartOf};

use crate::body::{aggregates_in, keys_in, last_step};
use crate::group::{GroupFault, group_rows};
use kq_plan::Plan;
use kq_run_gather::{Alone, Gatherer, Held, typed};
use kq_run_shards::Parted;
use kq_store_rows::Rows;
use kq_value::{EvalFault, Memory};
use std::alloc::Global;

/// The part of a view over no rows.
pub fn empty_part(alloc: Global, body: &Plan) -> Result<Parted, Memory>
    requires { IsViewBody (planned_of body.now) }
    ensures { IfOk result (StandsFor (planned_of body.now) []) }
{
    let last = last_step(body);
    let width = keys_in(last).len();
    let aggregates = typed(
        alloc,
        aggregates_in(last),
        &last.columns.as_slice()[width..],
    )?;
    Parted::empty(alloc, width, aggregates)
}

/// The part with rows more, or the stage at which one of them overflows. Of no rows, all shards are shared.
pub fn fold(alloc: Global, body: &Plan, part: &Parted, delta: &Held) -> Result<Parted, GroupFault>
    requires body { IsViewBody (planned_of body.now) }
    requires part { IsPartOf (planned_of body.now) part.now }
    ensures { FoldsTo (planned_of body.now) part.now delta.now result }
{
    fold_by(alloc, body, part, delta, &Alone)
}

/// The same, where this gatherer gathers the groups of the rows.
pub fn fold_by<G: Gatherer>(
    alloc: Global,
    body: &Plan,
    part: &Parted,
    delta: &Held,
    gatherer: &G,
) -> Result<Parted, GroupFault>
    requires ready { G.ready gatherer.now }
    requires body { IsViewBody (planned_of body.now) }
    requires part { IsPartOf (planned_of body.now) part.now }
    ensures { FoldsTo (planned_of body.now) part.now delta.now result }
{
    if delta.len() == 0 {
        return match part.share() {
            Ok(same) => Ok(same),
            Err(_) => Err(GroupFault::Memory),
        };
    }
    match group_rows(alloc, body, delta, gatherer) {
        Ok(groups) => match part.folded(alloc, &groups) {
            Ok(new) => Ok(new),
            Err(_) => Err(GroupFault::Memory),
        },
        Err(fault) => Err(fault),
    }
}

/// The rows of a view over those of its part and over rows more.
pub fn view_rows(alloc: Global, body: &Plan, part: &Parted, delta: &Held) -> Result<Rows, EvalFault>
    requires body { IsViewBody (planned_of body.now) }
    requires part { IsPartOf (planned_of body.now) part.now }
    ensures { (had : List Row) → StandsFor (planned_of body.now) had part.now → AnswersMade (planned_of body.now) (had ++ delta.now) result }
{
    match fold(alloc, body, part, delta) {
        Ok(all) => all.rows(alloc),
        Err(GroupFault::Overflow { .. }) => Err(EvalFault::Overflow),
        Err(GroupFault::Memory) => Err(EvalFault::Memory),
    }
}
