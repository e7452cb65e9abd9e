// Cells of a frame by the places of its rows.
ghost use Rattle.std.specs.Prelude.{◌≡◌, IfOk, IfSome, map};
ghost use Rattle.kq_store_rows.specs.Chunks.{row_at};
ghost use Rattle.kq_store_column_view.specs.Vectors.{cell_of, cells_of};

use kq_run_row_operators::Vector;
use kq_store_frame::Frame;
use kq_value::{Memory, Ty, Value};
use std::alloc::Global;

// A copy of the cell of a row in a column, and a null where there is none.
pub(crate) fn framed_cell(frame: &Frame, place: usize, j: usize) -> Result<Value, Memory>
    ensures { IfOk result (λ v. v ≡ cell_of (row_at frame.now place) j) }
{
    if place >= frame.len() {
        return Ok(Value::Null(Ty::Long));
    }
    match frame.cell(place, j)? {
        Some(cell) => Ok(cell),
        None => Ok(Value::Null(Ty::Long)),
    }
}

// The column of the rows at these places.
pub(crate) fn pick_framed<'a>(
    alloc: Global,
    frame: &'a Frame,
    j: usize,
    places: &[usize],
) -> Result<Option<Vector<'a>>, Memory>
    ensures { IfOk result (λ o. IfSome o (λ v. cells_of v ≡ map (λ p. cell_of (row_at frame.now p) j) places.now)) }
{
    match frame.lend(j, 0, frame.len()) {
        Some(whole) => pick_cells(alloc, &whole, places),
        None => Ok(None),
    }
}

// The cells of a column at these places, and a null past its end.
pub(crate) fn pick_cells<'a>(
    alloc: Global,
    whole: &Vector<'a>,
    places: &[usize],
) -> Result<Option<Vector<'a>>, Memory>
    ensures { IfOk result (λ o. IfSome o (λ v. cells_of v ≡ map (cell_of (cells_of whole.now)) places.now)) }
{
    Ok(Some(whole.picked(alloc, places)?))
}
