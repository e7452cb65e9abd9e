// Rows under columns of which they lack the last.
ghost use Rattle.std.specs.Prelude.{◌≡◌, ◌++◌, IfOk, OnOk};
ghost use Rattle.kq_store_rows.specs.Widened.{missing_at, widened};

use kq_value::{Field, Memory, Schema, Value};
use std::alloc::Global;

/// Columns, and others behind them.
pub fn with_columns(schema: &Schema, more: Schema) -> Result<Schema, Memory>
    ensures { IfOk result (λ all. all ≡ schema.now ++ more) }
{
    let mut all = schema.clone_in()?;
    for field in more.into_vec() {
        all.push(field)?;
    }
    Ok(all)
}

/// What stands in a column where a row has no cell, or none where there is no such column.
pub fn missing_cell(alloc: Global, fields: &[Field], column: usize) -> Result<Option<Value>, Memory>
    ensures { IfOk result (λ cell. cell ≡ missing_at fields.now column) }
{
    match fields.get(column) {
        Some(field) => Ok(Some(Value::missing(alloc, field.ty)?)),
        None => Ok(None),
    }
}

/// Adds to a row what stands in the columns that it lacks.
pub fn widen(fields: &[Field], row: &mut Vec<Value>) -> Result<(), Memory>
    ensures { OnOk result (row.new.items ≡ widened fields.now row.old.items) }
{
    let alloc = *row.allocator();
    while row.len() < fields.len() {
        let cell = Value::missing(alloc, fields[row.len()].ty)?;
        row.push(cell)?;
    }
    Ok(())
}
