// The records of a range, as the leaves of a plan read them.
ghost use Rattle.std.specs.Prelude.{◌≡◌, ◌<◌, ◌^◌, IfOk, length};
ghost use Rattle.kq_store_extent.specs.Seen.{held_records};
ghost use Rattle.kq_run_plan.specs.kq_run_scan.Ranges.{rows_between};

use crate::definition::Definition;
use kq_catalog::Snapshot;
use kq_plan::LeafKind;
use kq_run_plan::{Held, Leaves};
use kq_store_extent::TableExtents;
use kq_value::{EvalFault, Field, Memory, Schema, Text};
use std::alloc::Global;
use std::marker::Model;

// What came to the table of an export since its last range, up to a cursor. The export stands over its table.
#[derive(Drop)]
pub(crate) struct Range<'a> {
    pub snapshot: &'a Snapshot,
    pub export: &'a Definition,
    pub to: u64,
}

impl<'a> Model for Range<'a> {
    ghost use Rattle.std.specs.Coded.{codes};
    ghost use Rattle.kq_value.specs.contracts.value.Value as cell;
    ghost use Rattle.kq_plan_expressions.specs.contracts.expr.Expr as expr;
    ghost use Rattle.kq_export_ranges.specs.Exported.{IsDefined};
    ghost use Rattle.kq_export_run.specs.Held.{export_of};
    ghost use Rattle.kq_export_run.specs.Runs.{RangeView};
    ghost use Rattle.kq_catalog_journal.specs.History.{log};

    ghost Value = { RangeView };

    ghost coded = { Prim.hlevel (codes, cell.the_row.coded, expr.the_row.coded) };

    ghost view = { λ r. record { history = r.snapshot.now.history; export = r.export.now; to = r.to } };

    ghost invariant = { λ r. IsDefined (log r.snapshot.now.history) (export_of r.export.now) };
}

impl Leaves for Range<'_> {
    ghost use Rattle.kq_export_ranges.specs.Exported.{only};
    ghost use Rattle.kq_export_run.specs.Runs.{gives_of};

    ghost known = { λ r. only r.export.source r.export.columns };

    ghost may_give = { gives_of };

    fn rows(
        &self,
        alloc: Global,
        kind: LeafKind,
        _name: &Text,
        _columns: &[Field],
    ) -> Result<Held, EvalFault> {
        match kind {
            LeafKind::Table => {
                let extents = self.snapshot.extents(self.export.table);
                let rows = lent_between(
                    alloc,
                    extents,
                    &self.export.columns,
                    self.export.end,
                    self.to,
                )?;
                Ok(rows)
            }
            LeafKind::View | LeafKind::Part => unreachable!(),
        }
    }
}

// The rows of the records of a table in a range of cursors, under these columns.
fn lent_between(
    alloc: Global,
    extents: &TableExtents,
    columns: &Schema,
    above: u64,
    to: u64,
) -> Result<Held, Memory>
    requires { length (held_records extents.now) < 2 ^ 63 }
    ensures { IfOk result (λ rows. rows ≡ rows_between above to columns.now (held_records extents.now)) }
{
    let columns = columns.clone_in()?;
    Held::between(alloc, extents.share()?, columns, above, to)
}
