// One step of a plan.
ghost use Rattle.std.specs.Prelude.{◌≡◌, [], IfOk, None, false, length, map};
ghost use Rattle.std.specs.List.{All};
ghost use Rattle.kq_plan_expressions.specs.Terms.{term_of};
ghost use Rattle.kq_plan.specs.Fits.{FitsLeaf};
ghost use Rattle.kq_plan.specs.Plans.{cells_seen, doing_of, sorting_of, stepping_of};
ghost use Rattle.kq_run_gather.specs.kq_eval_row.Val.{meaning, surroundings};
ghost use Rattle.kq_run_plan.specs.Gives.{Case, Handed, SortsTo};
ghost use Rattle.kq_run_plan.specs.Outcomes.{cells_of};
ghost use Rattle.kq_run_plan.specs.Stretches.{flows_into};
ghost use Rattle.kq_run_plan.specs.Typed.{IsNext};
ghost use Rattle.kq_run_plan.specs.Operators.{Taken, cell_in_stage, in_stage, single};

use crate::joined::{fields_at, join};
use crate::leaves::Leaves;
use crate::outcome::{Outcome, cells, order_at, rows_at};
use crate::reshaped::{range, union};
use crate::single::{single_row, written_rows};
use crate::sorted::sort_held;
use crate::terms::value_of;
use kq_plan::{LeafKind, SortKey, Step, Work};
use kq_plan_expressions::Expr;
use kq_run_gather::Gatherer;
use kq_run_scan::Held;
use kq_store_rows::Rows;
use kq_value::{EvalFault, Field, Memory, Text, Value};
use std::alloc::{AllocError, Global};

// What a step gives behind these steps, which gave these outcomes: one that takes its rows as a whole, if any.
pub(crate) fn run_step<L: Leaves, G: Gatherer>(
    alloc: Global,
    before: &[Step],
    step: &Step,
    done: &[Outcome],
    leaves: &L,
    gatherer: &G,
    now: i64,
) -> Result<Outcome, Memory>
    requires ready { G.ready gatherer.now }
    requires next { IsNext (L.known leaves.now) (L.may_give leaves.now) (map stepping_of before.now) done.now (stepping_of step.now) }
    requires whole { flows_into (doing_of step.now.work) ≡ None }
    ensures { IfOk result (Case (L.may_give leaves.now) now (map stepping_of before.now) done.now (stepping_of step.now)) }
{
    let none = Held::own(Rows::new(alloc));
    let lets = cells(alloc, done)?;
    work(
        alloc,
        before,
        step,
        done,
        leaves,
        gatherer,
        &none,
        lets.as_slice(),
        now,
    )
}

// The same, with no rows, and the cells of the lets, at hand.
fn work<L: Leaves, G: Gatherer>(
    alloc: Global,
    before: &[Step],
    step: &Step,
    done: &[Outcome],
    leaves: &L,
    gatherer: &G,
    none: &Held,
    lets: &[Value],
    now: i64,
) -> Result<Outcome, Memory>
    requires ready { G.ready gatherer.now }
    requires next { IsNext (L.known leaves.now) (L.may_give leaves.now) (map stepping_of before.now) done.now (stepping_of step.now) }
    requires whole { flows_into (doing_of step.now.work) ≡ None }
    requires none { none.now ≡ [] }
    requires lets { lets.now ≡ cells_of done.now }
    ensures { IfOk result (Case (L.may_give leaves.now) now (map stepping_of before.now) done.now (stepping_of step.now)) }
{
    let stage = step.stage;
    match &step.work {
        Work::Leaf(kind, name) => leaf(alloc, stage, *kind, name, step.columns.as_slice(), leaves),
        Work::Row(exprs) => print(alloc, stage, exprs.as_slice(), lets, now),
        Work::Table(rows) => datatable(alloc, rows.as_slice(), step.columns.len()),
        Work::Scalar(expr) => scalar(alloc, stage, expr, lets, now),
        Work::Take(i, count) => take(alloc, order_at(done, *i), rows_at(done, *i, none), *count),
        Work::Sort(i, keys) => {
            let rows = rows_at(done, *i, none);
            sort(alloc, stage, rows, keys.as_slice(), lets, now)
        }
        Work::Range(from, to, by) => range(alloc, stage, from, to, by, lets, now),
        Work::Join(kind, i, j, on) => join(
            alloc,
            gatherer,
            *kind,
            rows_at(done, *i, none),
            rows_at(done, *j, none),
            fields_at(before, *i),
            fields_at(before, *j),
            on.as_slice(),
        ),
        Work::Union(arms) => union(alloc, done, arms.as_slice(), step.columns.as_slice()),
        Work::Where(..) | Work::Project(..) | Work::MvExpand(..) => unreachable!(),
        Work::Count(..) | Work::Top(..) => unreachable!(),
        Work::Distinct(..) | Work::Summarize(..) => unreachable!(),
    }
}

fn leaf<L: Leaves>(
    alloc: Global,
    stage: u32,
    kind: LeafKind,
    name: &Text,
    columns: &[Field],
    leaves: &L,
) -> Result<Outcome, Memory>
    requires { FitsLeaf kind (L.known leaves.now name.now) columns.now }
    ensures { IfOk result (Handed (L.may_give leaves.now name.now kind columns.now) stage) }
{
    match leaves.rows(alloc, kind, name, columns) {
        Ok(rows) => Ok(Outcome::Table {
            ordered: false,
            rows,
        }),
        Err(EvalFault::Overflow) => Ok(Outcome::Overflow { stage }),
        Err(EvalFault::Memory) => Err(AllocError),
    }
}

fn print(
    alloc: Global,
    stage: u32,
    exprs: &[Expr],
    lets: &[Value],
    now: i64,
) -> Result<Outcome, Memory>
    ensures { IfOk result (λ o. o ≡ in_stage stage false (single (map term_of exprs.now) (surroundings now lets.now))) }
{
    match single_row(alloc, exprs, lets, now) {
        Ok(rows) => Ok(Outcome::Table {
            ordered: false,
            rows: Held::own(rows),
        }),
        Err(EvalFault::Overflow) => Ok(Outcome::Overflow { stage }),
        Err(EvalFault::Memory) => Err(AllocError),
    }
}

fn datatable(alloc: Global, rows: &[Vec<Value>], width: usize) -> Result<Outcome, Memory>
    requires { All (λ row. length row.items ≡ width) rows.now }
    ensures { IfOk result (λ o. o ≡ Outcome.Table false (map cells_seen rows.now)) }
{
    let rows = written_rows(alloc, rows, width)?;
    Ok(Outcome::Table {
        ordered: false,
        rows: Held::own(rows),
    })
}

fn scalar(
    alloc: Global,
    stage: u32,
    expr: &Expr,
    lets: &[Value],
    now: i64,
) -> Result<Outcome, Memory>
    ensures { IfOk result (λ o. o ≡ cell_in_stage stage (meaning (term_of expr.now) (surroundings now lets.now) [])) }
{
    match value_of(alloc, expr, &[], lets, now) {
        Ok(value) => Ok(Outcome::Cell(value)),
        Err(EvalFault::Overflow) => Ok(Outcome::Overflow { stage }),
        Err(EvalFault::Memory) => Err(AllocError),
    }
}

fn sort(
    alloc: Global,
    stage: u32,
    rows: &Held,
    keys: &[SortKey],
    lets: &[Value],
    now: i64,
) -> Result<Outcome, Memory>
    ensures { IfOk result (SortsTo (map sorting_of keys.now) (surroundings now lets.now) rows.now stage) }
{
    match sort_held(alloc, rows, keys, lets, now) {
        Ok(rows) => Ok(Outcome::Table {
            ordered: true,
            rows,
        }),
        Err(EvalFault::Overflow) => Ok(Outcome::Overflow { stage }),
        Err(EvalFault::Memory) => Err(AllocError),
    }
}

fn take(alloc: Global, ordered: bool, rows: &Held, count: u64) -> Result<Outcome, Memory>
    ensures { IfOk result (Taken ordered rows.now count) }
{
    let few = rows.first(alloc, count)?;
    if ordered {
        Ok(Outcome::Table {
            ordered: true,
            rows: few,
        })
    } else {
        Ok(Outcome::Table {
            ordered: false,
            rows: few,
        })
    }
}
