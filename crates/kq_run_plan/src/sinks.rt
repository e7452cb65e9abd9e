// What takes the rows that come through row operators.
ghost use Rattle.std.specs.Prelude.{◌≡◌, ◌<◌, ◌^◌, ◌∷◌, [], IfOk, false, map, pos};
ghost use Rattle.std.specs.List.{All};
ghost use Rattle.kq_plan_expressions.specs.Terms.{term_of};
ghost use Rattle.kq_run_gather.specs.kq_run_groups.Groups.{EndsWide, HasAllGroups, rows_from};
ghost use Rattle.kq_plan.specs.Plans.{aggregating_of};
ghost use Rattle.kq_run_gather.specs.kq_eval_row.Val.{surroundings};
ghost use Rattle.kq_value.specs.declared.value.Value.TheVariants.{Long};
ghost use Rattle.kq_run_plan.specs.declared.outcome.Outcome.TheVariants as outcome;
ghost use Rattle.kq_run_plan.specs.Ended.{EndsAs, EndsInGroups};
ghost use Rattle.kq_run_gather.specs.Pipelines.{ran_through};
ghost use Rattle.kq_run_gather.specs.Summaries.{IsAsked, ran_of};
ghost use Rattle.kq_run_plan.specs.Operators.{in_stage, tally};

use crate::outcome::Outcome;
use kq_run_gather::{Arrived, Collected, Counted, Gatherer, Groups, Pipeline, Summarize};
use kq_run_scan::Held;
use kq_store_rows::Rows;
use kq_value::{EvalFault, Memory, Value};
use std::alloc::{AllocError, Global};

// What became of rows that came, or the number of the operator that failed, from 0.
#[derive(Drop)]
pub(crate) enum Ended {
    Gave(Outcome),
    Failed(usize),
}

// The rows themselves.
pub(crate) fn keep_all<G: Gatherer>(
    alloc: Global,
    gatherer: &G,
    pipeline: &Pipeline,
    rows: &Held,
    ordered: bool,
) -> Result<Ended, Memory>
    requires { G.ready gatherer.now }
    ensures { IfOk result (EndsAs (λ rows o. o ≡ outcome.Table ordered rows) (ran_through pipeline.now rows.now)) }
{
    match gatherer.collect(alloc, pipeline, rows)? {
        Collected::Rows(rows) => {
            let rows = Held::own(rows);
            Ok(Ended::Gave(Outcome::Table { ordered, rows }))
        }
        Collected::Failed(n) => Ok(Ended::Failed(n)),
    }
}

// How many there are.
pub(crate) fn count_all<G: Gatherer>(
    alloc: Global,
    gatherer: &G,
    pipeline: &Pipeline,
    rows: &Held,
) -> Result<Ended, Memory>
    requires { G.ready gatherer.now }
    ensures { IfOk result (EndsAs (λ rows o. o ≡ outcome.Table false (tally rows)) (ran_through pipeline.now rows.now)) }
{
    match gatherer.count(alloc, pipeline, rows)? {
        Counted::Rows(count) => Ok(Ended::Gave(tally_of(alloc, count)?)),
        Counted::Failed(n) => Ok(Ended::Failed(n)),
    }
}

fn tally_of(alloc: Global, count: u64) -> Result<Outcome, Memory>
    requires { count < 2 ^ 63 }
    ensures { IfOk result (λ o. o ≡ outcome.Table false ((Long (pos count) ∷ []) ∷ [])) }
{
    let mut row = Vec::new(alloc);
    row.push(Value::Long(count as i64))?;
    let mut one = Rows::new(alloc);
    one.push_from(&mut row)?;
    Ok(Outcome::Table {
        ordered: false,
        rows: Held::own(one),
    })
}

// A row for each group of those that come to a summarize, or an overflow at this stage.
pub(crate) fn group_all<G: Gatherer>(
    alloc: Global,
    gatherer: &G,
    asked: &Summarize,
    rows: &Held,
    stage: u32,
) -> Result<Ended, Memory>
    requires ready { G.ready gatherer.now }
    requires asked { IsAsked asked.now }
    ensures { IfOk result (EndsInGroups (map term_of asked.now.keys.now) (map aggregating_of asked.now.aggregates.now) asked.now.columns.now stage (surroundings asked.now.moment asked.now.lets.now) (ran_of asked.now rows.now)) }
{
    match gatherer.gather(alloc, asked, rows)? {
        Arrived::Groups(groups) => Ok(Ended::Gave(rows_of(alloc, stage, &groups)?)),
        Arrived::Overflow => Ok(Ended::Gave(Outcome::Overflow { stage })),
        Arrived::Failed(n) => Ok(Ended::Failed(n)),
    }
}

fn rows_of(alloc: Global, stage: u32, groups: &Groups) -> Result<Outcome, Memory>
    requires whole { HasAllGroups groups.now }
    requires wide { All EndsWide groups.now.states }
    ensures { IfOk result (λ o. o ≡ in_stage stage false (rows_from groups.now.states groups.now.keys 0)) }
{
    match groups.rows(alloc) {
        Ok(rows) => Ok(Outcome::Table {
            ordered: false,
            rows: Held::own(rows),
        }),
        Err(EvalFault::Overflow) => Ok(Outcome::Overflow { stage }),
        Err(EvalFault::Memory) => Err(AllocError),
    }
}
