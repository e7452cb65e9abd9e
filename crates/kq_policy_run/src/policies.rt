// What comes of a batch.
ghost use Rattle.std.specs.Prelude.{◌≡◌, All, IfErr, IfOk};
ghost use Rattle.kq_catalog_journal.specs.History.{log};
ghost use Rattle.kq_catalog_journal.specs.Records.{schema_of};
ghost use Rattle.kq_value.specs.Typed.{HasTypes};
ghost use Rattle.kq_policy_run.specs.Over.{MakesOver, RefusesOver};

use crate::laying::lay_out;
use crate::running::run_due;
use kq_catalog::Snapshot;
use kq_catalog_journal::Due;
use kq_policy_cascade::{BatchRows, CascadeFault, Derived, QueryFault, Tables, cascade};
use kq_store_extent::{Columns, TableExtents};
use kq_store_rows::Rows;
use kq_value::{Field, Memory, Tags};
use std::alloc::Global;

// The policies of a snapshot, with its tables.
#[derive(Drop)]
struct Policies<'a> {
    snapshot: &'a Snapshot,
}

impl Tables for Policies<'_> {
    ghost use Rattle.kq_catalog_journal.specs.Beside.{DueGives};
    ghost use Rattle.kq_catalog_journal.specs.History.{log};
    ghost use Rattle.kq_catalog_journal.specs.Policies.{rules};

    ghost rules = { λ p. rules (log p.snapshot.now.history) };

    ghost gives = { λ p. DueGives (log p.snapshot.now.history) };

    fn dues(&self) -> &[Due] {
        self.snapshot.dues()
    }

    fn columns(&self, table: u32) -> &[Field] {
        columns_of(self.snapshot, table)
    }

    fn lay_out(&self, alloc: Global, table: u32, rows: &Rows) -> Result<TableExtents, Memory> {
        lay_out(alloc, self.snapshot, table, rows)
    }

    fn run(&self, alloc: Global, due: Due, batch: &BatchRows) -> Result<Rows, QueryFault> {
        run_due(alloc, self.snapshot, due, batch)
    }
}

fn columns_of(snapshot: &Snapshot, table: u32) -> &[Field]
    ensures { result.now ≡ schema_of (log snapshot.now.history) table }
{
    match snapshot.table_at(table) {
        Some(table) => table.schema.as_slice(),
        None => &[],
    }
}

/// What comes of a batch of a table by the policies in force in a snapshot, over what its tables hold there. The batch is the first of the batches.
pub fn derive(
    snapshot: &Snapshot,
    table: u32,
    rows: Columns,
    tags: Tags,
) -> Result<Derived, CascadeFault>
    requires { All (HasTypes (schema_of (log snapshot.now.history) table)) rows }
    ensures made { IfOk result (MakesOver snapshot.now (record { table = table; rows = rows; tags = tags })) }
    ensures refused { IfErr result (RefusesOver snapshot.now (record { table = table; rows = rows; tags = tags })) }
{
    let limit = snapshot.limits().cascade;
    cascade(
        snapshot.allocator(),
        &Policies { snapshot },
        limit,
        table,
        rows,
        tags,
    )
}
