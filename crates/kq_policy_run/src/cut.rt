// Rows of fewer columns.
ghost use Rattle.std.specs.Prelude.{◌≡◌, IfOk, map, take};

use kq_store_rows::Rows;
use kq_value::Memory;
use std::alloc::Global;

// Copies of rows, each cut to its first cells, so many or all.
pub(crate) fn cut(alloc: Global, rows: &Rows, count: usize) -> Result<Rows, Memory>
    ensures { IfOk result (λ few. few ≡ map (take count) rows.now) }
{
    let width = rows.width().min(count);
    let mut few = Rows::new(alloc);
    for index in 0..rows.len() {
        let row = rows.row(index);
        few.push_copy(&row[..width])?;
    }
    Ok(few)
}
