// Copies of rows.
ghost use Rattle.std.specs.Prelude.{◌≡◌, ◌<◌, [], OnOk, length};
ghost use Rattle.kq_store_rows.specs.Chunks.{row_at};

use crate::relation::Relation;
use kq_value::{Memory, Value};

/// Fills a row that is empty with copies of the cells of a row of the relation.
pub fn copy_row<R: Relation>(row: &mut Vec<Value>, relation: &R, i: usize) -> Result<(), Memory>
    requires place { i < length (R.rows relation.now) }
    requires empty { row.old.items ≡ [] }
    ensures { OnOk result (row.new.items ≡ row_at (R.rows relation.now) i) }
{
    while let Some(cell) = relation.cell(i, row.len())? {
        row.push(cell)?;
    }
    Ok(())
}
