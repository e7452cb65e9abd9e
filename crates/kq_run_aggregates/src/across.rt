// Rows that stand in columns, and which of them are taken.
ghost use Rattle.std.specs.Prelude.{◌≡◌, IfOk, OnErr, OnOk, Some, map};
ghost use Rattle.kq_store_column_view.specs.Vectors.{cells_of};
ghost use Rattle.kq_run_aggregates.specs.Across.{across};
ghost use Rattle.kq_run_aggregates.specs.Ranks.{choice_cmp, first_of};
ghost use Rattle.kq_run_aggregates.specs.Steps.{replaces, with_one};
ghost use Rattle.kq_run_aggregates.specs.declared.kind.Choice.TheVariants as choices;

use crate::kind::{Choice, Side, first_or, is_hollow};
use kq_store_column_view::Vector;
use kq_value::{Memory, Row, Ty, Value};
use std::alloc::Global;
use std::slice::from_ref;

// Keeps a copy of the row at a place of these columns, if it is to be taken.
pub(crate) fn step_placed(
    alloc: Global,
    kept: &mut Option<Row>,
    choice: Choice,
    columns: &[Vector<'_>],
    i: usize,
) -> Result<(), Memory>
    ensures ok { OnOk result (kept.new ≡ with_one (choice_cmp choice) kept.old (across (map cells_of columns.now) i)) }
    ensures err { OnErr result (kept.new ≡ kept.old) }
{
    if placed_replaces(choice, kept, columns, i)? {
        let row = row_across(alloc, columns, i)?;
        *kept = Some(Row::from_vec(row));
    }
    Ok(())
}

fn placed_replaces(
    choice: Choice,
    kept: &Option<Row>,
    columns: &[Vector<'_>],
    i: usize,
) -> Result<bool, Memory>
    ensures { IfOk result (λ b. b ≡ replaces (choice_cmp choice) kept.now (across (map cells_of columns.now) i)) }
{
    match kept {
        None => Ok(true),
        Some(row) => goes_before(choice, row.as_slice(), columns, i),
    }
}

// Whether the row at a place is taken before the one that was kept.
fn goes_before(
    choice: Choice,
    kept: &[Value],
    columns: &[Vector<'_>],
    i: usize,
) -> Result<bool, Memory>
    ensures { IfOk result (λ b. b ≡ replaces (choice_cmp choice) (Some kept.now) (across (map cells_of columns.now) i)) }
{
    match choice {
        Choice::By(side) => has_better_key(side, kept, columns, i),
        Choice::Any => is_less_hollow(kept, columns, i),
    }
}

// Of both rows the keys alone are compared.
fn has_better_key(
    side: Side,
    kept: &[Value],
    columns: &[Vector<'_>],
    i: usize,
) -> Result<bool, Memory>
    ensures { IfOk result (λ b. b ≡ replaces (choice_cmp (choices.By side)) (Some kept.now) (across (map cells_of columns.now) i)) }
{
    let key = first_across(columns, i)?;
    let null = Value::Null(Ty::Long);
    Ok(side.cmp_nulls_first(&key, first_or(kept, &null)).is_gt())
}

fn is_less_hollow(kept: &[Value], columns: &[Vector<'_>], i: usize) -> Result<bool, Memory>
    ensures { IfOk result (λ b. b ≡ replaces (choice_cmp choices.Any) (Some kept.now) (across (map cells_of columns.now) i)) }
{
    if !is_hollow(kept) {
        return Ok(false);
    }
    match columns {
        [one] => {
            let cell = one.cell(i)?;
            Ok(!is_hollow(from_ref(&cell)))
        }
        _ => Ok(true),
    }
}

// The first cell of the row at a place, or a null where there are no columns.
fn first_across(columns: &[Vector<'_>], i: usize) -> Result<Value, Memory>
    ensures { IfOk result (λ v. v ≡ first_of (across (map cells_of columns.now) i)) }
{
    match columns {
        [first, ..] => first.cell(i),
        [] => Ok(Value::Null(Ty::Long)),
    }
}

/// The cells of the row at a place of these columns, with a null where a column ends before it.
pub fn row_across(alloc: Global, columns: &[Vector<'_>], i: usize) -> Result<Vec<Value>, Memory>
    ensures { IfOk result (λ row. row.items ≡ across (map cells_of columns.now) i) }
{
    let mut row = Vec::with_capacity(alloc, columns.len())?;
    for column in columns {
        row.push(column.cell(i)?)?;
    }
    Ok(row)
}
