// The rows of a batch, beside the records of the tables.
ghost use Rattle.std.specs.Prelude.{◌≡◌, All, IfOk, Some, length, map, slice_get, take};
ghost use Rattle.kq_value.specs.Computed.{Is};
ghost use Rattle.kq_store_extent.specs.Wide.{wide_held};
ghost use Rattle.kq_run_plan.specs.kq_run_scan.Lent.{AreLent, rows_held};
ghost use Rattle.kq_catalog_journal.specs.Beside.{cut_to};
ghost use Rattle.kq_catalog_journal.specs.History.{log, tables};
ghost use Rattle.kq_catalog_journal.specs.Records.{rows_in, schema_of};
ghost use Rattle.kq_value.specs.Same.{Same};
ghost use Rattle.kq_value.specs.Typed.{HasTypes};
ghost use Rattle.kq_policy_run.specs.Over.{GivesBeside};
ghost use Rattle.kq_policy_run.specs.Reading.{IsFirstOf};

use crate::cut::cut;
use kq_catalog::Snapshot;
use kq_catalog_journal::Table;
use kq_plan::{LeafKind, Plan};
use kq_policy_cascade::BatchRows;
use kq_run_plan::{Held, Leaves};
use kq_store_extent::TableExtents;
use kq_value::{EvalFault, Field, Memory, Schema, Text};
use std::alloc::Global;
use std::marker::Model;

// The tables of a snapshot as a plan reads them over the rows of a batch of one of them, its source.
#[derive(Drop)]
pub(crate) struct Beside<'a> {
    snapshot: &'a Snapshot,
    source: u32,
    batch: &'a BatchRows,
    plan: &'a Plan,
}

impl<'a> Model for Beside<'a> {
    ghost use Rattle.std.specs.Prelude.{All};
    ghost use Rattle.std.specs.Coded.{codes};
    ghost use Rattle.kq_value.specs.contracts.value.Value as cell;
    ghost use Rattle.kq_plan_expressions.specs.contracts.expr.Expr as expr;
    ghost use Rattle.kq_catalog_journal.specs.History.{log};
    ghost use Rattle.kq_catalog_journal.specs.Records.{schema_of};
    ghost use Rattle.kq_value.specs.Typed.{HasTypes};
    ghost use Rattle.kq_policy_run.specs.World.{BesideView};

    ghost Value = { BesideView };

    ghost coded = { Prim.hlevel (codes, cell.the_row.coded, expr.the_row.coded) };

    ghost view = { λ b. record { history = b.snapshot.now.history; source = b.source; rows = b.batch.now.rows; plan = b.plan.now } };

    ghost invariant = { λ b. All (HasTypes (schema_of (log b.snapshot.now.history) b.source)) b.batch.now.rows };
}

impl<'a> Beside<'a> {
    pub fn new(
        snapshot: &'a Snapshot,
        source: u32,
        batch: &'a BatchRows,
        plan: &'a Plan,
    ) -> Beside<'a>
        requires { All (HasTypes (schema_of (log snapshot.now.history) source)) batch.now.rows }
        ensures { result ≡ record { history = snapshot.now.history; source = source; rows = batch.now.rows; plan = plan.now } }
    {
        Beside {
            snapshot,
            source,
            batch,
            plan,
        }
    }
}

impl Leaves for Beside<'_> {
    ghost use Rattle.kq_catalog_journal.specs.Beside.{beside};
    ghost use Rattle.kq_catalog_journal.specs.History.{log};
    ghost use Rattle.kq_plan.specs.Plans.{planned_of};
    ghost use Rattle.kq_policy_run.specs.Reading.{known_as_read};

    ghost known = { λ b. known_as_read (log b.history) (planned_of b.plan) };

    ghost may_give = { λ b. beside (log b.history) b.source b.rows };

    fn rows(
        &self,
        alloc: Global,
        kind: LeafKind,
        name: &Text,
        columns: &[Field],
    ) -> Result<Held, EvalFault> {
        match kind {
            LeafKind::Table => Ok(table_beside(
                alloc,
                self.snapshot,
                self.source,
                self.batch,
                name,
                columns,
            )?),
            LeafKind::View | LeafKind::Part => unreachable!(),
        }
    }
}

// The rows of a table under its first columns: those of the batch where it is the source, and else those of its records.
fn table_beside(
    alloc: Global,
    snapshot: &Snapshot,
    source: u32,
    batch: &BatchRows,
    name: &Text,
    columns: &[Field],
) -> Result<Held, Memory>
    requires typed { All (HasTypes (schema_of (log snapshot.now.history) source)) batch.now.rows }
    requires first { IsFirstOf (log snapshot.now.history) name.now columns.now }
    ensures { IfOk result (λ rows. GivesBeside (log snapshot.now.history) source batch.now.rows name.now columns.now (Is rows)) }
{
    match snapshot.table(name) {
        Some((number, table)) => {
            if number == source {
                batch_cut(alloc, batch, table, columns)
            } else {
                records_cut(alloc, snapshot, number, table, columns)
            }
        }
        None => unreachable!(),
    }
}

// The rows of a batch: lent where they are laid out and read under all columns of their table, and else copied as far as they are.
fn batch_cut(
    alloc: Global,
    batch: &BatchRows,
    table: &Table,
    columns: &[Field],
) -> Result<Held, Memory>
    requires { All (HasTypes table.now.schema) batch.now.rows }
    ensures { IfOk result (λ rows. rows ≡ map (take (length columns.now)) batch.now.rows) }
{
    match batch.lent() {
        Some(extents) if columns.len() == table.schema.len() => lend(extents, &table.schema),
        _ => Ok(Held::own(cut(alloc, &batch.to_rows()?, columns.len())?)),
    }
}

// The rows of a table's records: lent where they are read under all its columns, and else copied as far as they are.
fn records_cut(
    alloc: Global,
    snapshot: &Snapshot,
    number: u32,
    table: &Table,
    columns: &[Field],
) -> Result<Held, Memory>
    requires stands { slice_get (tables (log snapshot.now.history)) number ≡ Some table.now }
    requires first { columns.now ≡ take (length columns.now) table.now.schema }
    ensures same { IfOk result (λ rows. Same rows (cut_to columns.now (rows_in snapshot.now.history number))) }
    ensures typed { IfOk result (λ rows. All (HasTypes columns.now) rows) }
{
    let extents = snapshot.extents(number);
    if columns.len() == table.schema.len() {
        lend(extents, &table.schema)
    } else {
        let all = extents.all_rows(alloc, table.schema.as_slice())?;
        Ok(Held::own(cut(alloc, &all, columns.len())?))
    }
}

// The rows of extents as they stand, under the columns of their table.
fn lend(extents: &TableExtents, schema: &Schema) -> Result<Held, Memory>
    requires { AreLent (wide_held schema.now extents.now) }
    ensures { IfOk result (λ rows. rows ≡ rows_held (wide_held schema.now extents.now)) }
{
    Ok(Held::lent(extents.share()?, schema.clone_in()?))
}
