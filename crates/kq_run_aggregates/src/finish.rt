// The cells that states end with.
ghost use Rattle.std.specs.Prelude.{◌≡◌, ◌++◌, OnOk, map};
ghost use Rattle.kq_value.specs.Typed.{missing_of};
ghost use Rattle.kq_run_aggregates.specs.Holds.{chosen, extreme, finished, summed};
ghost use Rattle.kq_run_aggregates.specs.Steps.{PutsFinished, PutsCells};

use crate::sum::Sum;
use kq_value::{EvalFault, Memory, Row, Ty, Value};
use std::alloc::Global;

pub(crate) fn put_sum(sum: &Sum, types: &[Ty], out: &mut Vec<Value>) -> Result<(), EvalFault>
    ensures { PutsFinished types.now (summed sum.now) out.old.items out.new.items result }
{
    let value = sum.finish(types)?;
    out.push(value)?;
    Ok(())
}

pub(crate) fn put_value(
    alloc: Global,
    kept: &Option<Value>,
    types: &[Ty],
    out: &mut Vec<Value>,
) -> Result<(), Memory>
    ensures { OnOk result (PutsCells types.now (extreme kept.now) out.old.items out.new.items) }
{
    match kept {
        Some(value) => {
            out.push(value.clone_in()?)?;
            Ok(())
        }
        None => put_missing(alloc, types, out),
    }
}

pub(crate) fn put_row(
    alloc: Global,
    kept: &Option<Row>,
    types: &[Ty],
    out: &mut Vec<Value>,
) -> Result<(), Memory>
    ensures { OnOk result (PutsCells types.now (chosen kept.now) out.old.items out.new.items) }
{
    match kept {
        Some(row) => out.extend_from_slice(row.as_slice()),
        None => put_missing(alloc, types, out),
    }
}

// What stands for nothing in columns of these types.
fn put_missing(alloc: Global, types: &[Ty], out: &mut Vec<Value>) -> Result<(), Memory>
    ensures { OnOk result (out.new.items ≡ out.old.items ++ map missing_of types.now) }
{
    for ty in types {
        out.push(Value::missing(alloc, *ty)?)?;
    }
    Ok(())
}
