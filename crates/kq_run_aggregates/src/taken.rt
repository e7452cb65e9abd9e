// The value, and the row, that is taken of several.
ghost use Rattle.std.specs.Prelude.{◌≡◌, Some, OnOk, OnErr, IfOk, option_map};
ghost use Rattle.kq_run_aggregates.specs.Alone.{cell_as};
ghost use Rattle.kq_run_aggregates.specs.Ranks.{choice_cmp, side_cmp};
ghost use Rattle.kq_run_aggregates.specs.Steps.{replaces, with_any, with_one, with_present};

use crate::kind::{Choice, Side};
use crate::reading::Reading;
use kq_value::{Memory, Row, Value};
use std::alloc::Global;

// Keeps the value, if it is to be taken. A null never is.
pub(crate) fn step_value(kept: &mut Option<Value>, side: Side, value: &Value) -> Result<(), Memory>
    ensures ok { OnOk result (kept.new ≡ with_present side kept.old value.now) }
    ensures err { OnErr result (kept.new ≡ kept.old) }
{
    if value.is_null() {
        return Ok(());
    }
    offer_value(kept, side, value)
}

// Keeps the number, if it is to be taken.
pub(crate) fn offer_number(kept: &mut Option<Value>, side: Side, reading: Reading, number: i64)
    ensures { kept.new ≡ with_present side kept.old (cell_as reading number) }
{
    let value = reading.cell(number);
    if value_replaces(side, kept, &value) {
        *kept = Some(value);
    }
}

// Keeps the other's value, if it is to be taken.
pub(crate) fn merge_value(
    kept: &mut Option<Value>,
    side: Side,
    other: &Option<Value>,
) -> Result<(), Memory>
    ensures ok { OnOk result (kept.new ≡ with_any (side_cmp side) kept.old other.now) }
    ensures err { OnErr result (kept.new ≡ kept.old) }
{
    match other {
        Some(value) => offer_value(kept, side, value),
        None => Ok(()),
    }
}

fn offer_value(kept: &mut Option<Value>, side: Side, value: &Value) -> Result<(), Memory>
    ensures ok { OnOk result (kept.new ≡ with_one (side_cmp side) kept.old value.now) }
    ensures err { OnErr result (kept.new ≡ kept.old) }
{
    if value_replaces(side, kept, value) {
        *kept = Some(value.clone_in()?);
    }
    Ok(())
}

fn value_replaces(side: Side, kept: &Option<Value>, value: &Value) -> bool
    ensures { result ≡ replaces (side_cmp side) kept.now value.now }
{
    match kept {
        None => true,
        Some(kept) => side.cmp(value, kept).is_gt(),
    }
}

// Keeps a copy of the other's row, if it is to be taken.
pub(crate) fn merge_row(
    alloc: Global,
    kept: &mut Option<Row>,
    choice: Choice,
    other: &Option<Row>,
) -> Result<(), Memory>
    ensures ok { OnOk result (kept.new ≡ with_any (choice_cmp choice) kept.old other.now) }
    ensures err { OnErr result (kept.new ≡ kept.old) }
{
    match other {
        Some(row) => step_row(alloc, kept, choice, row.as_slice()),
        None => Ok(()),
    }
}

// Keeps a copy of the row, if it is to be taken.
pub(crate) fn step_row(
    alloc: Global,
    kept: &mut Option<Row>,
    choice: Choice,
    row: &[Value],
) -> Result<(), Memory>
    ensures ok { OnOk result (kept.new ≡ with_one (choice_cmp choice) kept.old row.now) }
    ensures err { OnErr result (kept.new ≡ kept.old) }
{
    if row_replaces(choice, kept, row) {
        *kept = Some(copy_row(alloc, row)?);
    }
    Ok(())
}

fn row_replaces(choice: Choice, kept: &Option<Row>, row: &[Value]) -> bool
    ensures { result ≡ replaces (choice_cmp choice) kept.now row.now }
{
    match kept {
        None => true,
        Some(kept) => choice.cmp(row, kept.as_slice()).is_gt(),
    }
}

fn copy_row(alloc: Global, row: &[Value]) -> Result<Row, Memory>
    ensures { IfOk result (λ r. r ≡ row.now) }
{
    Ok(Row::from_vec(Vec::from_clones(alloc, row)?))
}
