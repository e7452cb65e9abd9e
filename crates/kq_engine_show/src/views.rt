// Views.
ghost use Rattle.std.specs.Prelude.{◌≡◌, ◌<◌, [], All, IfOk, OnOk, false};
ghost use Rattle.kq_value.specs.Typed.{HasTypes};
ghost use Rattle.kq_catalog_journal.specs.History.{log, view_count};
ghost use Rattle.kq_engine_show.specs.ViewRows.{view_columns, view_row, view_rows};

use crate::cells::{number_cell, schema_of};
use crate::journal::table_name;
use kq_catalog::Snapshot;
use kq_catalog_journal::View;
use kq_store_rows::{Answer, Rows};
use kq_value::{Memory, Schema, Ty, Value};
use std::alloc::Global;

/// The row of a view by its number: Name, SourceTable, Query, Base and MaterializedTo.
pub fn view_of(snapshot: &Snapshot, view: u32) -> Result<Answer, Memory>
    requires { view < view_count (log snapshot.now.history) }
    ensures schema { IfOk result (λ a. a.schema ≡ view_columns) }
    ensures unordered { IfOk result (λ a. a.ordered ≡ false) }
    ensures rows { IfOk result (λ a. a.rows ≡ view_rows snapshot.now.history view) }
    ensures typed { IfOk result (λ a. All (HasTypes a.schema) a.rows) }
{
    Ok(Answer {
        schema: view_schema(snapshot.allocator())?,
        ordered: false,
        rows: rows_of(snapshot, view)?,
    })
}

fn view_schema(alloc: Global) -> Result<Schema, Memory>
    ensures { IfOk result (λ schema. schema ≡ view_columns) }
{
    schema_of(
        alloc,
        &[
            ("Name", Ty::Text),
            ("SourceTable", Ty::Text),
            ("Query", Ty::Text),
            ("Base", Ty::Long),
            ("MaterializedTo", Ty::Long),
        ],
    )
}

fn rows_of(snapshot: &Snapshot, number: u32) -> Result<Rows, Memory>
    requires { number < view_count (log snapshot.now.history) }
    ensures rows { IfOk result (λ rows. rows ≡ view_rows snapshot.now.history number) }
    ensures typed { IfOk result (λ rows. All (HasTypes view_columns) rows) }
{
    let alloc = snapshot.allocator();
    let mut rows = Rows::new(alloc);
    if let Some(view) = snapshot.view_at(number) {
        let mut row = Vec::new(alloc);
        fill_row(snapshot, number, view, &mut row)?;
        rows.push_from(&mut row)?;
    }
    Ok(rows)
}

// Fills a row that has no cells yet.
fn fill_row(
    snapshot: &Snapshot,
    number: u32,
    view: &View,
    row: &mut Vec<Value>,
) -> Result<(), Memory>
    requires stands { number < view_count (log snapshot.now.history) }
    requires empty { row.old.items ≡ [] }
    ensures { OnOk result (row.new.items ≡ view_row snapshot.now.history number view.now) }
{
    row.push(Value::Text(view.name.clone_in()?))?;
    row.push(Value::Text(table_name(snapshot, view.source)?))?;
    row.push(Value::Text(view.text.clone_in()?))?;
    row.push(number_cell(view.base))?;
    row.push(number_cell(snapshot.view_cursor(number)))?;
    Ok(())
}
