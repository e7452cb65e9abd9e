// Exports as they are held.
ghost use Rattle.std.specs.Prelude.{◌≡◌, IfErr, IfOk, Some};
ghost use Rattle.kq_catalog_journal.specs.History.{NumberedTable, log, table_numbered, tables};
ghost use Rattle.kq_plan.specs.Plans.{planned_of};
ghost use Rattle.kq_export_interface.specs.Due.{is_same as is_same_export};
ghost use Rattle.kq_export_run.specs.Bound.{Binds, IsBodyOf, RefusesBody, refusal_of};
ghost use Rattle.kq_export_run.specs.Held.{export_of};

use kq_catalog::Snapshot;
use kq_catalog_journal::Table;
use kq_engine_query::QueryScope;
use kq_export_binder::{ExportFault, bind_export};
use kq_plan::Plan;
use kq_read_commands::NewExport;
use kq_reply::Refusal;
use kq_value::{Schema, Text};

// An export, and the cursor up to which it has exported.
#[derive(Drop)]
pub(crate) struct Definition {
    pub name: Text,
    // its table, by name and by number, with the columns that it had when the export was defined
    pub source: Text,
    pub table: u32,
    pub columns: Schema,
    // the query over the table, bound, and its text
    pub body: Plan,
    pub text: Text,
    pub end: u64,
}

// The export over a table that stands. Its body is bound here.
pub(crate) fn bound(
    snapshot: &Snapshot,
    export: &NewExport,
    number: u32,
    table: &Table,
) -> Result<Definition, Refusal>
    requires { let found : NumberedTable = record { number = number; table = table.now } in
        table_numbered export.now.table.text (tables (log snapshot.now.history)) ≡ Some found }
    ensures bound { IfOk result (Binds snapshot.now.history export.now (record { number = number; table = table.now })) }
    ensures refused { IfErr result (RefusesBody snapshot.now.history export.now) }
{
    let body = body_of(snapshot, export, number, table)?;
    Ok(Definition {
        name: export.name.text.clone_in()?,
        source: export.table.text.clone_in()?,
        table: number,
        columns: table.schema.clone_in()?,
        body,
        text: export.query.clone_in()?,
        end: 0,
    })
}

// The body of the export bound over the names of the snapshot.
fn body_of(
    snapshot: &Snapshot,
    export: &NewExport,
    number: u32,
    table: &Table,
) -> Result<Plan, Refusal>
    requires { let found : NumberedTable = record { number = number; table = table.now } in
        table_numbered export.now.table.text (tables (log snapshot.now.history)) ≡ Some found }
    ensures bound { IfOk result (λ p. IsBodyOf snapshot.now.history export.now table.now (planned_of p)) }
    ensures refused { IfErr result (RefusesBody snapshot.now.history export.now) }
{
    let names = QueryScope::new(snapshot)?;
    let body = &export.body;
    match bind_export(
        snapshot.allocator(),
        body.text.as_str(),
        &body.tree,
        &export.table.text,
        &names,
    ) {
        Ok(plan) => Ok(plan),
        Err(fault) => Err(refusal(fault)),
    }
}

fn refusal(fault: ExportFault) -> Refusal
    ensures { result ≡ refusal_of fault }
{
    match fault {
        ExportFault::Unsupported { at } => Refusal::Unsupported { at: at as u64 },
        ExportFault::Unknown { at } => Refusal::Unknown { at: at as u64 },
        ExportFault::Mistyped { at } => Refusal::Mistyped { at: at as u64 },
        ExportFault::BadExport { at } => Refusal::BadExport { at: at as u64 },
        ExportFault::Memory => Refusal::Memory,
    }
}

impl Definition {
    // Whether two exports are of the same table and the same text.
    pub(crate) fn is_same(&self, other: &Definition) -> bool
        ensures { result ≡ is_same_export (export_of self.now) (export_of other.now) }
    {
        self.table == other.table && self.text.same(&other.text)
    }
}
