// The rows that an expansion makes.
ghost use Rattle.std.specs.Prelude.{◌≡◌, ◌++◌, IfOk, OnOk, length, map};
ghost use Rattle.std.specs.List.{All};
ghost use Rattle.kq_store_rows.specs.Chunks.{HasWidth, same_width};
ghost use Rattle.kq_run_reshape.specs.MvExpand.{expanded, part_as, width_with, with_cell, with_parts};

use crate::cells::row_in;
use crate::parts::parts_of;
use kq_store_rows::Rows;
use kq_value::{Memory, Ty, Value};
use kq_value_conversions::{as_bool, as_dynamic, as_int, as_long, as_moment, as_span, as_text};
use std::alloc::Global;

/// A copy of each row for each part of the value beside it: an array's items, a bag's entries as bags of one entry, null where there
/// are none, or any other value itself. The part stands in the column `at`, in place of its cell, or behind the last where there is no
/// such column; where a type is said, it is converted as by `tolong` and its like.
pub fn mv_expand_rows(
    alloc: Global,
    rows: &Rows,
    values: &[Value],
    at: usize,
    ty: Option<Ty>,
) -> Result<Rows, Memory>
    requires even { same_width rows.now }
    requires beside { length values.now ≡ length rows.now }
    ensures { IfOk result (λ out. out ≡ expanded at ty rows.now values.now) }
{
    let mut out = Rows::new(alloc);
    for (i, value) in values.iter().enumerate() {
        let parts = parts_of(alloc, value)?;
        put_parts(alloc, &mut out, row_in(rows, i), parts.as_slice(), at, ty)?;
    }
    Ok(out)
}

// Puts the row with each of the parts last.
fn put_parts(
    alloc: Global,
    out: &mut Rows,
    row: &[Value],
    parts: &[Value],
    at: usize,
    ty: Option<Ty>,
) -> Result<(), Memory>
    requires { All (HasWidth (width_with (length row.now) at)) out.old }
    ensures rows { OnOk result (out.new ≡ out.old ++ map (λ p. with_cell row.now at (part_as ty p)) parts.now) }
    ensures wide { OnOk result (All (HasWidth (width_with (length row.now) at)) out.new) }
{
    for part in parts {
        let cell = converted(alloc, part, ty)?;
        let mut cells = cells_with(alloc, row, at, cell)?;
        out.push_from(&mut cells)?;
    }
    Ok(())
}

// The part as a value of the type that is said.
fn converted(alloc: Global, part: &Value, ty: Option<Ty>) -> Result<Value, Memory>
    ensures { IfOk result (λ v. v ≡ part_as ty part.now) }
{
    match ty {
        None => part.clone_in(),
        Some(Ty::Long) => Ok(as_long(part)),
        Some(Ty::Int) => Ok(as_int(part)),
        Some(Ty::Text) => as_text(alloc, part),
        Some(Ty::Bool) => Ok(as_bool(part)),
        Some(Ty::Moment) => Ok(as_moment(part)),
        Some(Ty::Span) => Ok(as_span(part)),
        Some(Ty::Dynamic) => as_dynamic(alloc, part),
    }
}

// The cells of the row with this one in place of the one at a place, or behind the last.
fn cells_with(alloc: Global, row: &[Value], at: usize, cell: Value) -> Result<Vec<Value>, Memory>
    ensures cells { IfOk result (λ vs. vs.items ≡ with_cell row.now at cell) }
    ensures wide { IfOk result (λ vs. length vs.items ≡ width_with (length row.now) at) }
{
    let mut cells = Vec::from_clones(alloc, row)?;
    if at < cells.len() {
        cells[at] = cell;
    } else {
        cells.push(cell)?;
    }
    Ok(cells)
}
