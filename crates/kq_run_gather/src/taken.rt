// Rows of which the first in an order are kept, a piece at a time.
ghost use Rattle.std.specs.Prelude.{◌≡◌, ◌<◌, ◌++◌, ◌∷◌, ℕ, List, [], OnOk, length};
ghost use Rattle.std.specs.List.{All};
ghost use Rattle.kq_value.specs.declared.value.Value.{Value as Cell};
ghost use Rattle.kq_value.specs.Computed.{Is, each};
ghost use Rattle.kq_plan_expressions.specs.Terms.{term_of};
ghost use Rattle.kq_plan.specs.Plans.{sorting_of};
ghost use Rattle.kq_store_rows.specs.Chunks.{HasWidth, row_at};
ghost use Rattle.kq_run_scan.specs.kq_eval_row.Val.{Surroundings, meaning, surroundings};
ghost use Rattle.kq_store_column_view.specs.Vectors.{cells_of};
ghost use Rattle.kq_run_sort.specs.Leading.{Lead, TakesIn};
ghost use Rattle.kq_run_sort.specs.Orders.{keys_at};
ghost use Rattle.kq_run_gather.specs.Leading.{Advance};

use kq_plan::SortKey;
use kq_run_scan::{Relation, Vector, copy_row, vector_over};
use kq_run_sort::Leaders;
use kq_value::{EvalFault, Memory, Value};
use std::alloc::Global;

// Takes the rows of a piece in, and keeps those that may be among the first.
pub(crate) fn take_in<R: Relation + Drop>(
    alloc: Global,
    leaders: &mut Leaders,
    piece: R,
    count: u64,
    key: &SortKey,
    lets: &[Value],
    now: i64,
) -> Result<(), EvalFault>
    requires { (w : ℕ) × All (HasWidth w) leaders.old.rows × All (HasWidth w) (R.rows piece) }
    ensures takes { Advance count (sorting_of key.now) (surroundings now lets.now) (R.rows piece) leaders.old leaders.new result }
    ensures wide { (w : ℕ) → All (HasWidth w) leaders.old.rows → All (HasWidth w) (R.rows piece) → OnOk result (All (HasWidth w) leaders.new.rows) }
{
    match add_piece(alloc, leaders, &piece, count, key, lets, now) {
        Ok(()) => leaders.settle(alloc, count, key, lets, now),
        Err(fault) => Err(fault),
    }
}

// Takes the rows of a piece in.
fn add_piece<R: Relation>(
    alloc: Global,
    leaders: &mut Leaders,
    piece: &R,
    count: u64,
    key: &SortKey,
    lets: &[Value],
    now: i64,
) -> Result<(), EvalFault>
    requires { (w : ℕ) × All (HasWidth w) leaders.old.rows × All (HasWidth w) (R.rows piece.now) }
    ensures takes { TakesIn count (sorting_of key.now) (surroundings now lets.now) (R.rows piece.now) leaders.old leaders.new result }
    ensures wide { (w : ℕ) → All (HasWidth w) leaders.old.rows → All (HasWidth w) (R.rows piece.now) → OnOk result (All (HasWidth w) leaders.new.rows) }
{
    match vector_over(alloc, piece, &key.value, lets, now) {
        Ok(values) => Ok(add_rows(alloc, leaders, piece, &values, key)?),
        Err(fault) => Err(fault),
    }
}

// The same, with the values of the key at hand.
fn add_rows<R: Relation>(
    alloc: Global,
    leaders: &mut Leaders,
    piece: &R,
    values: &Vector,
    key: &SortKey,
) -> Result<(), Memory>
    requires wide { (w : ℕ) × All (HasWidth w) leaders.old.rows × All (HasWidth w) (R.rows piece.now) }
    requires along { length (cells_of values.now) ≡ length (R.rows piece.now) }
    ensures lead { OnOk result ((n : ℕ) (s : Surroundings) (all : List (List Cell)) → each (meaning (term_of key.now.value) s) (R.rows piece.now) ≡ Is (cells_of values.now) → Lead n (sorting_of key.now) s all leaders.old → Lead n (sorting_of key.now) s (all ++ R.rows piece.now) leaders.new) }
    ensures wide { (w : ℕ) → All (HasWidth w) leaders.old.rows → All (HasWidth w) (R.rows piece.now) → OnOk result (All (HasWidth w) leaders.new.rows) }
{
    let mut row = Vec::new(alloc);
    for i in 0..values.len() {
        add_row(leaders, piece, &values.cell(i)?, key, i, &mut row)?;
    }
    Ok(())
}

// Takes a row in, which is copied only where it is kept.
fn add_row<R: Relation>(
    leaders: &mut Leaders,
    piece: &R,
    value: &Value,
    key: &SortKey,
    i: usize,
    row: &mut Vec<Value>,
) -> Result<(), Memory>
    requires place { i < length (R.rows piece.now) }
    requires wide { All (HasWidth (length (row_at (R.rows piece.now) i))) leaders.old.rows }
    requires none { row.old.items ≡ [] }
    ensures lead { OnOk result ((n : ℕ) (s : Surroundings) (all : List (List Cell)) → keys_at (sorting_of key.now ∷ []) s (row_at (R.rows piece.now) i) ≡ Is (value.now ∷ []) → Lead n (sorting_of key.now) s all leaders.old → Lead n (sorting_of key.now) s (all ++ row_at (R.rows piece.now) i ∷ []) leaders.new) }
    ensures wide { OnOk result (All (HasWidth (length (row_at (R.rows piece.now) i))) leaders.new.rows) }
    ensures none { OnOk result (row.new.items ≡ []) }
{
    if leaders.asks_for(key, value) {
        copy_row(row, piece, i)?;
        leaders.push(row)?;
    }
    Ok(())
}
