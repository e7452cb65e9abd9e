// The names of a snapshot, and the rows that they stand for.
ghost use Rattle.std.specs.Prelude.{◌≡◌, IfOk, IsTrue, Some, is_some};
ghost use Rattle.std.specs.List.{slice_get};
ghost use Rattle.kq_value.specs.Computed.{Is};
ghost use Rattle.kq_catalog_journal.specs.History.{log, tables};
ghost use Rattle.kq_run_plan.specs.Operators.{AnswersOne};
ghost use Rattle.kq_engine_query.specs.Views.{columns_of_views};
ghost use Rattle.kq_engine_query.specs.Worlds.{FoundGives, TableGives, table_found, view_found};

use crate::made::columns_of_views;
use crate::views::rows_of_view;
use kq_catalog::Snapshot;
use kq_catalog_journal::Table;
use kq_plan::{LeafKind, NameKind, Names};
use kq_run_plan::{Held, Leaves};
use kq_value::{EvalFault, Field, Memory, Schema, Text};
use std::alloc::Global;

/// The tables and views of a snapshot, as a query sees them.
#[derive(Drop)]
pub struct QueryScope<'a> {
    pub snapshot: &'a Snapshot,
    columns: Vec<Schema>,
    // those of each view
    ghost views: { columns.items ≡ columns_of_views snapshot.now.history },
}

impl<'a> QueryScope<'a> {
    pub fn new(snapshot: &'a Snapshot) -> Result<QueryScope<'a>, Memory>
        ensures { IfOk result (λ c. c.snapshot.now ≡ snapshot.now) }
    {
        Ok(QueryScope {
            columns: columns_of_views(snapshot)?,
            snapshot,
        })
    }
}

impl Names for QueryScope<'_> {
    ghost use Rattle.kq_engine_query.specs.Worlds.{known_in};

    ghost known = { λ c. known_in c.snapshot.now.history };

    fn find(&self, name: &Text) -> Option<(NameKind, &Schema)> {
        match self.snapshot.table(name) {
            Some((_, table)) => Some((NameKind::Table, &table.schema)),
            None => {
                let (number, _) = self.snapshot.view(name)?;
                Some((NameKind::View, &self.columns[number as usize]))
            }
        }
    }
}

impl Leaves for QueryScope<'_> {
    ghost use Rattle.kq_engine_query.specs.Worlds.{MayGive, known_in};

    ghost known = { λ c. known_in c.snapshot.now.history };

    ghost may_give = { λ c. MayGive c.snapshot.now.history };

    fn rows(
        &self,
        _alloc: Global,
        kind: LeafKind,
        name: &Text,
        _columns: &[Field],
    ) -> Result<Held, EvalFault> {
        match kind {
            LeafKind::Table => Ok(rows_named(self.snapshot, name)?),
            LeafKind::View => view_named(self.snapshot, name, LeafKind::View),
            LeafKind::Part => view_named(self.snapshot, name, LeafKind::Part),
        }
    }
}

fn rows_named(snapshot: &Snapshot, name: &Text) -> Result<Held, Memory>
    requires { IsTrue (is_some (table_found snapshot.now.history name.now)) }
    ensures { IfOk result (λ rows. TableGives snapshot.now.history (table_found snapshot.now.history name.now) (Is rows)) }
{
    match snapshot.table(name) {
        Some((number, table)) => table_rows(snapshot, number, table),
        None => unreachable!(),
    }
}

// The rows of a table, lent by its extents and read under its columns.
fn table_rows(snapshot: &Snapshot, number: u32, table: &Table) -> Result<Held, Memory>
    requires { slice_get (tables (log snapshot.now.history)) number ≡ Some table.now }
    ensures { IfOk result (λ rows. TableGives snapshot.now.history (Some (record { number = number; table = table.now })) (Is rows)) }
{
    let extents = snapshot.extents(number);
    Ok(Held::lent(extents.share()?, table.schema.clone_in()?))
}

fn view_named(snapshot: &Snapshot, name: &Text, kind: LeafKind) -> Result<Held, EvalFault>
    requires { IsTrue (is_some (view_found snapshot.now.history name.now)) }
    ensures { AnswersOne (FoundGives snapshot.now.history kind (view_found snapshot.now.history name.now)) result }
{
    let mut read = 0;
    match snapshot.view(name) {
        Some((number, view)) => {
            let rows = rows_of_view(snapshot, number, view, kind, &mut read)?;
            Ok(Held::own(rows))
        }
        None => unreachable!(),
    }
}
