// Cells of their own.
ghost use Rattle.std.specs.Prelude.{◌≡◌, IfOk};
ghost use Rattle.kq_store_column_view.specs.Vectors.{cells_of};

use crate::vector::Vector;
use kq_value::{Memory, Value};
use std::alloc::Global;

/// The same cells, of which none is lent: those that are, are copied.
pub fn owned<'b>(alloc: Global, vector: Vector) -> Result<Vector<'b>, Memory>
    ensures { IfOk result (λ v. cells_of v ≡ cells_of vector.entry) }
{
    match vector {
        Vector::Longs(longs) => Ok(Vector::Longs(longs)),
        Vector::Moments(ticks) => Ok(Vector::Moments(ticks)),
        Vector::Spans(ticks) => Ok(Vector::Spans(ticks)),
        Vector::Truths(truths) => Ok(Vector::Truths(truths)),
        Vector::Cells(cells) => Ok(Vector::Cells(cells)),
        Vector::LentLongs(longs) => Ok(Vector::Longs(copied(alloc, longs)?)),
        Vector::LentMoments(ticks) => Ok(Vector::Moments(copied(alloc, ticks)?)),
        Vector::LentSpans(ticks) => Ok(Vector::Spans(copied(alloc, ticks)?)),
        Vector::Same(value, count) => Ok(Vector::Same(value, count)),
        lent => Ok(Vector::Cells(copies(alloc, &lent)?)),
    }
}

fn copied(alloc: Global, items: &[i64]) -> Result<Vec<i64>, Memory>
    ensures { IfOk result (λ v. v.items ≡ items.now) }
{
    items.to_vec(alloc)
}

/// Copies of the cells.
pub fn copies(alloc: Global, vector: &Vector) -> Result<Vec<Value>, Memory>
    ensures { IfOk result (λ v. v.items ≡ cells_of vector.now) }
{
    let mut cells = Vec::with_capacity(alloc, vector.len())?;
    for i in 0..vector.len() {
        cells.push(vector.cell(i)?)?;
    }
    Ok(cells)
}
