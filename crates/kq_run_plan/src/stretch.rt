// Stretches: steps in a row that take rows of one another, and run as one.
ghost use Rattle.std.specs.Prelude.{◌≡◌, ◌-◌, ◌<◌, ℕ, IfOk, Some, false, true, length, map};
ghost use Rattle.kq_plan.specs.Plans.{counted, doing_of, stepping_of};
ghost use Rattle.kq_run_gather.specs.kq_eval_row.Val.{surroundings};
ghost use Rattle.kq_run_gather.specs.kq_run_row_operators.Operators.{rowwise_of};
ghost use Rattle.kq_run_gather.specs.kq_run_row_operators.Ran.{ran};
ghost use Rattle.kq_run_plan.specs.declared.outcome.Outcome.TheVariants as outcome;
ghost use Rattle.kq_run_plan.specs.Ended.{EndsAs};
ghost use Rattle.kq_run_plan.specs.Gives.{around};
ghost use Rattle.kq_run_plan.specs.Operators.{tally};
ghost use Rattle.kq_run_plan.specs.Outcomes.{order_of, rows_of};
ghost use Rattle.kq_run_gather.specs.Steps.{is_rowwise, last_of};
ghost use Rattle.kq_run_plan.specs.Stretches.{AreNext, Closes, FollowsToEnd, FlowsOn, HasFields, IsStretch, Linked, MakesOf, flows_into, order_after};

use crate::distinct::keep_different;
use crate::leaves::Leaves;
use crate::outcome::{Outcome, cells, order_at, rows_at};
use crate::single::tally_row;
use crate::sinks::{Ended, count_all, group_all, keep_all};
use crate::step::run_step;
use crate::top::keep_first;
use kq_plan::{Step, Work};
use kq_run_gather::{Gatherer, Pipeline, Summarize, Top, operators, stage_in};
use kq_run_scan::{Held, Operator};
use kq_store_rows::Rows;
use kq_value::{Memory, Value};
use std::alloc::Global;

fn makes_by_row(step: &Step) -> bool
    ensures { result ≡ is_rowwise (doing_of step.now.work) }
{
    matches!(
        step.work,
        Work::Where(..) | Work::Project(..) | Work::MvExpand(..)
    )
}

// The number of the step whose rows may flow into this one.
fn input(step: &Step) -> Option<usize>
    ensures { result ≡ flows_into (doing_of step.now.work) }
{
    match &step.work {
        Work::Where(i, ..) | Work::Project(i, ..) | Work::MvExpand(i, ..) => Some(*i),
        Work::Count(i) | Work::Top(i, ..) => Some(*i),
        Work::Distinct(i, ..) | Work::Summarize(i, ..) => Some(*i),
        _ => None,
    }
}

fn takes(step: &Step, i: usize) -> bool
    ensures { result ≡ true → flows_into (doing_of step.now.work) ≡ Some i }
{
    match input(step) {
        Some(j) => i == j,
        None => false,
    }
}

// Where the stretch that begins here ends.
pub(crate) fn stretch_end(steps: &[Step], unshared: &[bool], at: usize) -> usize
    requires some { at < length steps.now }
    requires marks { length unshared.now ≡ length steps.now }
    ensures { IsStretch (map stepping_of steps.now) unshared.now at result }
{
    for end in at + 1..steps.len() {
        if !goes_on(steps, unshared, end) {
            return end;
        }
    }
    steps.len()
}

// Whether the rows of the step before this one flow into it, and are unshared.
fn goes_on(steps: &[Step], unshared: &[bool], end: usize) -> bool
    requires some { 0 < end }
    requires within { end < length steps.now }
    requires marks { length unshared.now ≡ length steps.now }
    ensures { result ≡ true → FlowsOn (map stepping_of steps.now) unshared.now (end - 1) }
{
    let m = end - 1;
    unshared[m] && makes_by_row(&steps[m]) && takes(&steps[end], m)
}

// What a stretch gives behind these steps, which gave these outcomes: what its last step gives, or the first fault.
pub(crate) fn run_stretch<L: Leaves, G: Gatherer>(
    alloc: Global,
    before: &[Step],
    stretch: &[Step],
    done: &[Outcome],
    leaves: &L,
    gatherer: &G,
    now: i64,
) -> Result<Outcome, Memory>
    requires ready { G.ready gatherer.now }
    requires next { AreNext (L.known leaves.now) (L.may_give leaves.now) (map stepping_of before.now) done.now (map stepping_of stretch.now) }
    requires linked { Linked (length done.now) (map stepping_of stretch.now) }
    ensures { IfOk result (FollowsToEnd (L.may_give leaves.now) now before.now done.now stretch.now) }
{
    let first = &stretch[0];
    match input(first) {
        Some(i) => flow_from(alloc, stretch, i, done, gatherer, now),
        None => run_step(alloc, before, first, done, leaves, gatherer, now),
    }
}

// The same where rows of the step i flow into it.
fn flow_from<G: Gatherer>(
    alloc: Global,
    stretch: &[Step],
    i: usize,
    done: &[Outcome],
    gatherer: &G,
    now: i64,
) -> Result<Outcome, Memory>
    requires ready { G.ready gatherer.now }
    requires linked { Linked (length done.now) (map stepping_of stretch.now) }
    requires columns { HasFields (last_of (map stepping_of stretch.now)).doing (last_of (map stepping_of stretch.now)).columns }
    ensures { IfOk result (MakesOf (map stepping_of stretch.now) (around now done.now) (order_of done.now i) (rows_of done.now i)) }
{
    let none = Held::own(Rows::new(alloc));
    let rows = rows_at(done, i, &none);
    flow_in(alloc, stretch, rows, order_at(done, i), done, gatherer, now)
}

// The same of these rows.
fn flow_in<G: Gatherer>(
    alloc: Global,
    stretch: &[Step],
    rows: &Held,
    ordered: bool,
    done: &[Outcome],
    gatherer: &G,
    now: i64,
) -> Result<Outcome, Memory>
    requires ready { G.ready gatherer.now }
    requires linked { Linked (length done.now) (map stepping_of stretch.now) }
    requires columns { HasFields (last_of (map stepping_of stretch.now)).doing (last_of (map stepping_of stretch.now)).columns }
    ensures { IfOk result (MakesOf (map stepping_of stretch.now) (around now done.now) ordered rows.now) }
{
    if is_count(&stretch[0]) {
        return count(alloc, rows);
    }
    let lets = cells(alloc, done)?;
    flow(
        alloc,
        stretch,
        rows,
        ordered,
        lets.as_slice(),
        gatherer,
        now,
    )
}

fn is_count(step: &Step) -> bool
    ensures { result ≡ true → (i : ℕ) × (doing_of step.now.work ≡ counted i) }
{
    matches!(step.work, Work::Count(..))
}

// How many rows there are, of which none is read.
fn count(alloc: Global, rows: &Held) -> Result<Outcome, Memory>
    ensures { IfOk result (λ o. o ≡ outcome.Table false (tally rows.now)) }
{
    let rows = tally_row(alloc, rows)?;
    Ok(Outcome::Table {
        ordered: false,
        rows: Held::own(rows),
    })
}

// The rows flow by pieces through the row-wise steps, and what comes out into the last.
fn flow<G: Gatherer>(
    alloc: Global,
    stretch: &[Step],
    rows: &Held,
    ordered: bool,
    lets: &[Value],
    gatherer: &G,
    now: i64,
) -> Result<Outcome, Memory>
    requires ready { G.ready gatherer.now }
    requires some { 0 < length stretch.now }
    requires columns { HasFields (last_of (map stepping_of stretch.now)).doing (last_of (map stepping_of stretch.now)).columns }
    ensures { IfOk result (MakesOf (map stepping_of stretch.now) (surroundings now lets.now) ordered rows.now) }
{
    let operators = operators(alloc, stretch)?;
    let last = &stretch[stretch.len() - 1];
    let ended = close(
        alloc,
        rows,
        operators.as_slice(),
        last,
        keeps_order(stretch, ordered),
        lets,
        gatherer,
        now,
    )?;
    match ended {
        Ended::Gave(outcome) => Ok(outcome),
        Ended::Failed(n) => Ok(Outcome::Overflow {
            stage: stage_in(stretch, n),
        }),
    }
}

fn keeps_order(stretch: &[Step], ordered: bool) -> bool
    ensures { result ≡ order_after (map stepping_of stretch.now) ordered }
{
    let mut ordered = ordered;
    for step in stretch {
        if matches!(step.work, Work::MvExpand(..)) {
            ordered = false;
        }
    }
    ordered
}

// What the last step makes of the rows that come to it through the operators.
fn close<G: Gatherer>(
    alloc: Global,
    rows: &Held,
    operators: &[Operator],
    last: &Step,
    ordered: bool,
    lets: &[Value],
    gatherer: &G,
    now: i64,
) -> Result<Ended, Memory>
    requires ready { G.ready gatherer.now }
    requires columns { HasFields (doing_of last.now.work) last.now.columns.items }
    ensures { IfOk result (EndsAs (Closes (doing_of last.now.work) last.now.stage last.now.columns.items (surroundings now lets.now) ordered) (ran (map rowwise_of operators.now) (surroundings now lets.now) rows.now)) }
{
    let pipeline = Pipeline {
        operators,
        lets,
        moment: now,
    };
    match &last.work {
        Work::Count(..) => count_all(alloc, gatherer, &pipeline, rows),
        Work::Top(_, count, key) => keep_first(
            alloc,
            gatherer,
            &Top {
                pipeline,
                count: *count,
                key,
            },
            rows,
            last.stage,
        ),
        Work::Distinct(_, columns) => keep_different(
            alloc,
            gatherer,
            &pipeline,
            rows,
            columns.as_slice(),
            last.columns.as_slice(),
        ),
        Work::Summarize(_, keys, aggregates) => group_all(
            alloc,
            gatherer,
            &Summarize {
                operators,
                keys: keys.as_slice(),
                aggregates: aggregates.as_slice(),
                columns: last.columns.as_slice(),
                lets,
                moment: now,
            },
            rows,
            last.stage,
        ),
        _ => keep_all(alloc, gatherer, &pipeline, rows, ordered),
    }
}
