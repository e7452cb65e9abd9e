// Numbers of rows of their own, by columns.
ghost use Rattle.std.specs.Prelude.{◌≡◌, ◌≤◌, IfOk, IfSome, length, map};
ghost use Rattle.kq_store_rows.specs.Chunks.{row_at};
ghost use Rattle.kq_store_column_view.specs.Vectors.{cells_of};
ghost use Rattle.kq_eval_columns.specs.kq_eval_row.Val.{cell_of};
ghost use Rattle.kq_eval_pieces.specs.Numbers.{number_cell};
ghost use Rattle.kq_eval_pieces.specs.Pieces.{column_of, piece_of};

use kq_eval_columns::Vector;
use kq_store_rows::Rows;
use kq_value::{Memory, Value};
use std::alloc::Global;

// A kind of cells, each of which is a number.
#[derive(Clone, Copy)]
pub(crate) enum Kind {
    Long,
    Moment,
    Span,
}

impl Kind {
    fn of(cell: &Value) -> Option<Kind> {
        match cell {
            Value::Long(_) => Some(Kind::Long),
            Value::Moment(_) => Some(Kind::Moment),
            Value::Span(_) => Some(Kind::Span),
            _ => None,
        }
    }

    // The number in a cell, or none where it is of another kind.
    fn number(self, cell: &Value) -> Option<i64>
        ensures { IfSome result (λ z. cell.now ≡ number_cell self z) }
    {
        match (self, cell) {
            (Kind::Long, Value::Long(long)) => Some(*long),
            (Kind::Moment, Value::Moment(ticks)) => Some(*ticks),
            (Kind::Span, Value::Span(ticks)) => Some(*ticks),
            _ => None,
        }
    }

    fn vector<'v>(self, numbers: Vec<i64>) -> Vector<'v>
        ensures { cells_of result ≡ map (number_cell self) numbers.items }
    {
        match self {
            Kind::Long => Vector::Longs(numbers),
            Kind::Moment => Vector::Moments(numbers),
            Kind::Span => Vector::Spans(numbers),
        }
    }
}

// The column of the rows from a place on, up to another, where all its cells are numbers of one kind.
pub(crate) fn numbers_between<'v>(
    alloc: Global,
    rows: &Rows,
    j: usize,
    from: usize,
    to: usize,
) -> Result<Option<Vector<'v>>, Memory>
    requires { (from ≤ to) × (to ≤ length rows.now) }
    ensures { IfOk result (λ o. IfSome o (λ v. cells_of v ≡ column_of j (piece_of rows.now from to))) }
{
    let Some(kind) = kind_at(rows, from, j) else {
        return Ok(None);
    };
    match read_between(alloc, rows, kind, j, from, to)? {
        Some(numbers) => Ok(Some(kind.vector(numbers))),
        None => Ok(None),
    }
}

// The column of the rows at these places, likewise.
pub(crate) fn numbers_at<'v>(
    alloc: Global,
    rows: &Rows,
    j: usize,
    places: &[usize],
) -> Result<Option<Vector<'v>>, Memory>
    ensures { IfOk result (λ o. IfSome o (λ v. cells_of v ≡ map (λ p. cell_of (row_at rows.now p) j) places.now)) }
{
    if places.len() == 0 {
        return Ok(None);
    }
    let Some(kind) = kind_at(rows, places[0], j) else {
        return Ok(None);
    };
    match read_at(alloc, rows, kind, j, places)? {
        Some(numbers) => Ok(Some(kind.vector(numbers))),
        None => Ok(None),
    }
}

fn kind_at(rows: &Rows, i: usize, j: usize) -> Option<Kind> {
    if i < rows.len() {
        kind_in(rows.row(i), j)
    } else {
        None
    }
}

fn kind_in(row: &[Value], j: usize) -> Option<Kind> {
    if j < row.len() {
        Kind::of(&row[j])
    } else {
        None
    }
}

fn read_between(
    alloc: Global,
    rows: &Rows,
    kind: Kind,
    j: usize,
    from: usize,
    to: usize,
) -> Result<Option<Vec<i64>>, Memory>
    requires { (from ≤ to) × (to ≤ length rows.now) }
    ensures { IfOk result (λ o. IfSome o (λ v. map (number_cell kind) v.items ≡ column_of j (piece_of rows.now from to))) }
{
    let mut numbers = Vec::with_capacity(alloc, to - from)?;
    for i in from..to {
        match number_at(rows, kind, i, j) {
            Some(number) => numbers.push(number)?,
            None => return Ok(None),
        }
    }
    Ok(Some(numbers))
}

fn read_at(
    alloc: Global,
    rows: &Rows,
    kind: Kind,
    j: usize,
    places: &[usize],
) -> Result<Option<Vec<i64>>, Memory>
    ensures { IfOk result (λ o. IfSome o (λ v. map (number_cell kind) v.items ≡ map (λ p. cell_of (row_at rows.now p) j) places.now)) }
{
    let mut numbers = Vec::with_capacity(alloc, places.len())?;
    for place in places {
        match number_at(rows, kind, *place, j) {
            Some(number) => numbers.push(number)?,
            None => return Ok(None),
        }
    }
    Ok(Some(numbers))
}

fn number_at(rows: &Rows, kind: Kind, i: usize, j: usize) -> Option<i64>
    ensures { IfSome result (λ z. number_cell kind z ≡ cell_of (row_at rows.now i) j) }
{
    if i < rows.len() {
        number_in(rows.row(i), kind, j)
    } else {
        None
    }
}

fn number_in(row: &[Value], kind: Kind, j: usize) -> Option<i64>
    ensures { IfSome result (λ z. number_cell kind z ≡ cell_of row.now j) }
{
    if j < row.len() {
        kind.number(&row[j])
    } else {
        None
    }
}
