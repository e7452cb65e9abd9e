// The artefact of a range.
ghost use Rattle.std.specs.Prelude.{◌≡◌, ◌<◌, IfErr, IfOk, string_bytes};
ghost use Rattle.kq_catalog_journal.specs.History.{log};
ghost use Rattle.kq_plan.specs.Plans.{planned_of};
ghost use Rattle.kq_export_ranges.specs.Exported.{IsDefined, columns_given};
ghost use Rattle.kq_export_run.specs.Held.{export_of};
ghost use Rattle.kq_export_run.specs.Runs.{IsWritten, LaysOut, RefusesRange, name_by};

use crate::definition::Definition;
use crate::range::Range;
use itoa::Buffer;
use kq_catalog::Snapshot;
use kq_export_csv::artefact_of;
use kq_plan::Plan;
use kq_reply::Refusal;
use kq_run_plan::{Outcome, run_plan};
use kq_store_rows::Rows;
use kq_value::{Bytes, Field, Memory};
use std::alloc::Global;
use std::marker::Model;

// An artefact that is to be put, and how many rows it has.
#[derive(Drop)]
pub(crate) struct Written {
    pub name: String,
    pub bytes: Bytes,
    pub rows: u64,
}

impl Model for Written {
    ghost use Rattle.std.specs.Prelude.{string_bytes};
    ghost use Rattle.kq_export_run.specs.Runs.{WrittenView};

    ghost Value = { WrittenView };

    ghost view = { λ w. record { name = string_bytes w.name; bytes = w.bytes; rows = w.rows } };
}

// What the body of an export gives over what came since its last range, up to a cursor, or the refusal of its fault.
pub(crate) fn write_range(
    snapshot: &Snapshot,
    export: &Definition,
    to: u64,
) -> Result<Written, Refusal>
    requires defined { IsDefined (log snapshot.now.history) (export_of export.now) }
    requires ahead { export.now.end < to }
    ensures written { IfOk result (IsWritten (log snapshot.now.history) (export_of export.now) export.now.end to) }
    ensures refused { IfErr result (RefusesRange (log snapshot.now.history) (export_of export.now) export.now.end to) }
{
    let alloc = snapshot.allocator();
    let range = Range {
        snapshot,
        export,
        to,
    };
    let outcome = run_plan(alloc, &export.body, &range, 0)?;
    match outcome {
        Outcome::Table { ordered, rows } => {
            let rows = rows.into_rows(alloc)?;
            Ok(laid_out(alloc, export, to, ordered, &rows)?)
        }
        Outcome::Cell(_) => unreachable!(),
        Outcome::Overflow { stage } => Err(Refusal::Overflow { stage }),
        Outcome::Full { limit } => Err(Refusal::Full { limit }),
    }
}

// What the body gives, as the artefact of the range.
fn laid_out(
    alloc: Global,
    export: &Definition,
    to: u64,
    ordered: bool,
    rows: &Rows,
) -> Result<Written, Memory>
    requires { export.now.end < to }
    ensures { IfOk result (LaysOut export.now to (columns_given (planned_of export.now.body)) ordered rows.now) }
{
    Ok(Written {
        name: artefact_name(alloc, export.name.as_str(), export.end + 1, to)?,
        bytes: artefact_of(alloc, columns_given(&export.body), ordered, rows)?,
        rows: rows.len() as u64,
    })
}

// The columns of what a plan gives.
fn columns_given(plan: &Plan) -> &[Field]
    ensures { result.now ≡ columns_given (planned_of plan.now) }
{
    if plan.output < plan.steps.len() {
        plan.steps[plan.output].columns.as_slice()
    } else {
        &[]
    }
}

// The name of the artefact of a range with this first and this last cursor.
fn artefact_name(alloc: Global, name: &str, first: u64, last: u64) -> Result<String, Memory>
    ensures { IfOk result (λ text. string_bytes text ≡ name_by name.now first last) }
{
    let mut digits = Buffer::new();
    let mut text = String::from_str(alloc, name)?;
    text.push_str("-")?;
    text.push_str(digits.format(first))?;
    text.push_str("-")?;
    text.push_str(digits.format(last))?;
    text.push_str(".csv")?;
    Ok(text)
}
