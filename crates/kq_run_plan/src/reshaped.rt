// Rows that are made anew: ranges and unions.
ghost use Rattle.std.specs.Prelude.{◌≡◌, ◌++◌, [], IfOk, OnOk, length, map};
ghost use Rattle.std.specs.List.{All};
ghost use Rattle.kq_value.specs.Computed.{Answers};
ghost use Rattle.kq_plan_expressions.specs.Terms.{term_of};
ghost use Rattle.kq_plan.specs.Plans.{filling_of};
ghost use Rattle.kq_run_reshape.specs.Union.{filled};
ghost use Rattle.kq_store_rows.specs.Chunks.{HasWidth};
ghost use Rattle.kq_run_gather.specs.kq_eval_row.Val.{surroundings};
ghost use Rattle.kq_run_plan.specs.Reshaped.{arms_together, come_in_stage, range_at};

use crate::outcome::{Outcome, rows_at};
use crate::terms::value_of;
use kq_plan::Arm;
use kq_plan_expressions::Expr;
use kq_run_reshape::{RangeFault, append_arm, range_rows};
use kq_run_scan::Held;
use kq_store_rows::Rows;
use kq_value::{EvalFault, Field, Memory, Value};
use std::alloc::{AllocError, Global};

pub(crate) fn range(
    alloc: Global,
    stage: u32,
    from: &Expr,
    to: &Expr,
    by: &Expr,
    lets: &[Value],
    now: i64,
) -> Result<Outcome, Memory>
    ensures { IfOk result (λ o. o ≡ come_in_stage stage (range_at (term_of from.now) (term_of to.now) (term_of by.now) (surroundings now lets.now))) }
{
    match range_between(alloc, from, to, by, lets, now) {
        Ok(outcome) => Ok(outcome),
        Err(EvalFault::Overflow) => Ok(Outcome::Overflow { stage }),
        Err(EvalFault::Memory) => Err(AllocError),
    }
}

fn range_between(
    alloc: Global,
    from: &Expr,
    to: &Expr,
    by: &Expr,
    lets: &[Value],
    now: i64,
) -> Result<Outcome, EvalFault>
    ensures { Answers (range_at (term_of from.now) (term_of to.now) (term_of by.now) (surroundings now lets.now)) result }
{
    let from = value_of(alloc, from, &[], lets, now)?;
    let to = value_of(alloc, to, &[], lets, now)?;
    let by = value_of(alloc, by, &[], lets, now)?;
    match range_rows(alloc, &from, &to, &by) {
        Ok(rows) => Ok(Outcome::Table {
            ordered: false,
            rows: Held::own(rows),
        }),
        Err(RangeFault::Full { limit }) => Ok(Outcome::Full { limit }),
        Err(RangeFault::Memory) => Err(EvalFault::Memory),
    }
}

// The rows of the arms one after another.
pub(crate) fn union(
    alloc: Global,
    done: &[Outcome],
    arms: &[Arm],
    columns: &[Field],
) -> Result<Outcome, Memory>
    ensures { IfOk result (λ o. o ≡ arms_together done.now columns.now (map filling_of arms.now)) }
{
    let none = Held::own(Rows::new(alloc));
    together(alloc, done, arms, columns, &none)
}

// The same, where these are no rows.
fn together(
    alloc: Global,
    done: &[Outcome],
    arms: &[Arm],
    columns: &[Field],
    none: &Held,
) -> Result<Outcome, Memory>
    requires { none.now ≡ [] }
    ensures { IfOk result (λ o. o ≡ arms_together done.now columns.now (map filling_of arms.now)) }
{
    let mut rows = Rows::new(alloc);
    for arm in arms {
        append(
            alloc,
            &mut rows,
            rows_at(done, arm.input, none),
            arm,
            columns,
        )?;
    }
    Ok(Outcome::Table {
        ordered: false,
        rows: Held::own(rows),
    })
}

// Puts the rows of an arm last.
fn append(
    alloc: Global,
    union: &mut Rows,
    rows: &Held,
    arm: &Arm,
    columns: &[Field],
) -> Result<(), Memory>
    requires { All (HasWidth (length columns.now)) union.old }
    ensures rows { OnOk result (union.new ≡ union.old ++ map (filled columns.now (filling_of arm.now).1) rows.now) }
    ensures wide { OnOk result (All (HasWidth (length columns.now)) union.new) }
{
    let given = rows.gather(alloc)?;
    append_arm(alloc, union, given.rows(), arm.cells.as_slice(), columns)
}
