// Rows of no other rows.
ghost use Rattle.std.specs.Prelude.{◌≡◌, ◌++◌, ◌∷◌, [], IfOk, OnOk, length, map};
ghost use Rattle.std.specs.List.{All};
ghost use Rattle.kq_value.specs.Computed.{Answers};
ghost use Rattle.kq_plan_expressions.specs.Terms.{term_of};
ghost use Rattle.kq_plan.specs.Plans.{cells_seen};
ghost use Rattle.kq_store_rows.specs.Chunks.{HasWidth};
ghost use Rattle.kq_run_gather.specs.kq_eval_row.Val.{surroundings};
ghost use Rattle.kq_run_plan.specs.Operators.{single, tally};

use crate::terms::values_of;
use kq_plan_expressions::Expr;
use kq_run_scan::Held;
use kq_store_rows::Rows;
use kq_value::{EvalFault, Memory, Value};
use std::alloc::Global;

// The one row of these values.
pub(crate) fn single_row(
    alloc: Global,
    exprs: &[Expr],
    lets: &[Value],
    now: i64,
) -> Result<Rows, EvalFault>
    ensures { Answers (single (map term_of exprs.now) (surroundings now lets.now)) result }
{
    let mut row = values_of(alloc, exprs, &[], lets, now)?;
    let mut rows = Rows::new(alloc);
    rows.push_from(&mut row)?;
    Ok(rows)
}

// The rows as they are written.
pub(crate) fn written_rows(
    alloc: Global,
    cells: &[Vec<Value>],
    width: usize,
) -> Result<Rows, Memory>
    requires { All (λ row. length row.items ≡ width) cells.now }
    ensures { IfOk result (λ rows. rows ≡ map cells_seen cells.now) }
{
    let mut rows = Rows::new(alloc);
    for row in cells {
        push_copy(&mut rows, row.as_slice(), width)?;
    }
    Ok(rows)
}

// Puts a copy of a row last.
fn push_copy(rows: &mut Rows, row: &[Value], width: usize) -> Result<(), Memory>
    requires rows { All (HasWidth width) rows.old }
    requires row { length row.now ≡ width }
    ensures ok { OnOk result (rows.new ≡ rows.old ++ row.now ∷ []) }
    ensures wide { OnOk result (All (HasWidth width) rows.new) }
{
    rows.push_copy(row)
}

// How many rows there are.
pub(crate) fn tally_row(alloc: Global, rows: &Held) -> Result<Rows, Memory>
    ensures { IfOk result (λ one. one ≡ tally rows.now) }
{
    let mut row = Vec::new(alloc);
    row.push(Value::Long(rows.len() as i64))?;
    let mut one = Rows::new(alloc);
    one.push_from(&mut row)?;
    Ok(one)
}
