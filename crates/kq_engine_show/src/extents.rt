// The extents of a table.
ghost use Rattle.std.specs.Prelude.{◌≡◌, ◌<◌, ◌++◌, [], All, IfOk, OnOk, false, length, map};
ghost use Rattle.std.specs.Arc.{arc_value};
ghost use Rattle.kq_value.specs.declared.value.Value.TheVariants.{Dynamic};
ghost use Rattle.kq_value.specs.declared.dynamic.Dyn.TheVariants.{List as Array};
ghost use Rattle.kq_value.specs.Same.{Same};
ghost use Rattle.kq_value.specs.Typed.{HasTypes};
ghost use Rattle.kq_store_extent.specs.Cells.{cursors_of};
ghost use Rattle.kq_store_extent.specs.Seen.{held_extents};
ghost use Rattle.kq_catalog_journal.specs.History.{log, tables};
ghost use Rattle.kq_engine_show.specs.Cells.{number_or_null};
ghost use Rattle.kq_engine_show.specs.ExtentRows.{extent_columns, extent_rows, greatest, held_row, least, strings};

use crate::cells::{number_cell, schema_of};
use kq_catalog::Snapshot;
use kq_store_extent::{Extent, TableExtents};
use kq_store_rows::{Answer, Rows};
use kq_value::{Dyn, DynList, Memory, Schema, Tags, Ty, Value};
use std::alloc::Global;
use std::sync::Arc;

/// A row for each extent of a table, by the table's number: ExtentId, Rows, MinCursor and MaxCursor, which are null without rows, and Tags.
pub fn extents_of(snapshot: &Snapshot, table: u32) -> Result<Answer, Memory>
    requires { table < length (tables (log snapshot.now.history)) }
    ensures schema { IfOk result (λ a. a.schema ≡ extent_columns) }
    ensures unordered { IfOk result (λ a. a.ordered ≡ false) }
    ensures rows { IfOk result (λ a. Same a.rows (extent_rows snapshot.now.history table)) }
    ensures typed { IfOk result (λ a. All (HasTypes a.schema) a.rows) }
{
    let alloc = snapshot.allocator();
    Ok(Answer {
        schema: extent_schema(alloc)?,
        ordered: false,
        rows: rows_of(alloc, snapshot.extents(table))?,
    })
}

fn extent_schema(alloc: Global) -> Result<Schema, Memory>
    ensures { IfOk result (λ schema. schema ≡ extent_columns) }
{
    schema_of(
        alloc,
        &[
            ("ExtentId", Ty::Long),
            ("Rows", Ty::Long),
            ("MinCursor", Ty::Long),
            ("MaxCursor", Ty::Long),
            ("Tags", Ty::Dynamic),
        ],
    )
}

// A row for each extent, those of the small ones first.
fn rows_of(alloc: Global, extents: &TableExtents) -> Result<Rows, Memory>
    ensures { IfOk result (λ rows. rows ≡ map held_row (held_extents extents.now)) }
{
    let len = extents.len();
    let mut rows = Rows::new(alloc);
    let mut at = 0;
    while at < len {
        let part = extents.part_from(at);
        add_rows(alloc, part, &mut rows)?;
        at += part.len();
    }
    Ok(rows)
}

// Adds a row for each of these extents behind others, or some of them where memory is refused.
fn add_rows(alloc: Global, extents: &[Arc<Extent, Global>], rows: &mut Rows) -> Result<(), Memory>
    requires { All (HasTypes extent_columns) rows.old }
    ensures { OnOk result (rows.new ≡ rows.old ++ map held_row (map arc_value extents.now)) }
{
    let mut row = Vec::new(alloc);
    for extent in extents {
        fill_row(alloc, extent, &mut row)?;
        rows.push_from(&mut row)?;
    }
    Ok(())
}

// Fills a row that has no cells yet.
fn fill_row(alloc: Global, extent: &Extent, row: &mut Vec<Value>) -> Result<(), Memory>
    requires { row.old.items ≡ [] }
    ensures { OnOk result (row.new.items ≡ held_row extent.now) }
{
    let (least, greatest) = cursor_cells(extent);
    row.push(number_cell(extent.id()))?;
    row.push(number_cell(extent.len() as u64))?;
    row.push(least)?;
    row.push(greatest)?;
    row.push(tags_cell(alloc, extent.tags())?)?;
    Ok(())
}

// The least and the greatest cursor of the records.
fn cursor_cells(extent: &Extent) -> (Value, Value)
    ensures least { result.0 ≡ number_or_null (least (cursors_of extent.now.records)) }
    ensures greatest { result.1 ≡ number_or_null (greatest (cursors_of extent.now.records)) }
{
    match extent.cursors() {
        Some((least, greatest)) => (number_cell(least), number_cell(greatest)),
        None => (Value::Null(Ty::Long), Value::Null(Ty::Long)),
    }
}

// The tags as an array of strings.
fn tags_cell(alloc: Global, tags: &Tags) -> Result<Value, Memory>
    ensures { IfOk result (λ cell. cell ≡ Dynamic (Array (strings tags.now))) }
{
    let texts = tags.as_slice();
    let mut items = Vec::with_capacity(alloc, texts.len())?;
    for text in texts {
        items.push(Dyn::Text(text.clone_in()?))?;
    }
    Value::dynamic(alloc, Dyn::List(DynList::from_vec(items)))
}
