// One column of rows in parts, in an order of their places.
ghost use Rattle.std.specs.Prelude.{◌≡◌, ◌<◌, IfOk, IfSome, Some, length, map, slice_get};
ghost use Rattle.std.specs.List.{All};
ghost use Rattle.kq_store_frame.specs.Series.{cell_by, cells_in};
ghost use Rattle.kq_store_column_view.specs.Vectors.{cell_of};
ghost use Rattle.kq_run_sort.specs.Parts.{number_in, part_column, part_row, row_of_spot};

use crate::parts::{Part, Spot};
use kq_store_frame::{Kind, Series};
use kq_value::{Memory, Ty, Value};
use std::alloc::Global;

// The cells of a column in the rows at these places: numbers, where all parts have numbers of one kind there, and else copies.
pub(crate) fn column_at(
    alloc: Global,
    parts: &[Part],
    j: usize,
    places: &[Spot],
) -> Result<Series, Memory>
    requires { All (λ s. s.part < length parts.now) places.now }
    ensures { IfOk result (λ column. cells_in column ≡ map (λ r. cell_of r j) (map (row_of_spot parts.now) places.now)) }
{
    if let Some(kind) = kind_of(parts, j) {
        if let Some(numbers) = numbers_at(alloc, parts, j, kind, places)? {
            return Ok(Series::Numbers(kind, numbers));
        }
    }
    Ok(Series::Cells(cells_at(alloc, parts, j, places)?))
}

// ---- numbers

// The kind of the column in the first part.
fn kind_of(parts: &[Part], j: usize) -> Option<Kind> {
    if parts.len() > 0 {
        kind_in(&parts[0], j)
    } else {
        None
    }
}

fn kind_in(part: &Part, j: usize) -> Option<Kind> {
    if j < part.columns.len() {
        Kind::of(&part.columns[j])
    } else {
        None
    }
}

fn numbers_at(
    alloc: Global,
    parts: &[Part],
    j: usize,
    kind: Kind,
    places: &[Spot],
) -> Result<Option<Vec<i64>>, Memory>
    ensures { IfOk result (λ o. IfSome o (λ v. map (cell_by kind) v.items ≡ map (λ r. cell_of r j) (map (row_of_spot parts.now) places.now))) }
{
    match slices_of(alloc, parts, j, kind)? {
        Some(slices) => gathered(alloc, &slices, places),
        None => Ok(None),
    }
}

// The numbers of the column in each part, where they lie.
fn slices_of<'v>(
    alloc: Global,
    parts: &'v [Part],
    j: usize,
    kind: Kind,
) -> Result<Option<Vec<&'v [i64]>>, Memory>
    ensures { IfOk result (λ o. IfSome o (λ v. map (λ xs. map (cell_by kind) xs.now) v.items ≡ map (part_column j) parts.now)) }
{
    let mut slices = Vec::with_capacity(alloc, parts.len())?;
    for part in parts {
        match numbers_of(part, j, kind) {
            Some(numbers) => slices.push(numbers)?,
            None => return Ok(None),
        }
    }
    Ok(Some(slices))
}

fn numbers_of<'v>(part: &'v Part, j: usize, kind: Kind) -> Option<&'v [i64]>
    ensures { IfSome result (λ xs. map (cell_by kind) xs.now ≡ part_column j part.now) }
{
    if j < part.columns.len() {
        kind.numbers_in(&part.columns[j])
    } else {
        None
    }
}

// The numbers at these places. None where one is past the end.
fn gathered(alloc: Global, slices: &[&[i64]], places: &[Spot]) -> Result<Option<Vec<i64>>, Memory>
    ensures { IfOk result (λ o. IfSome o (λ v. map Some v.items ≡ map (number_in (map (λ xs. xs.now) slices.now)) places.now)) }
{
    let mut numbers = Vec::with_capacity(alloc, places.len())?;
    for spot in places {
        match number_at(slices, *spot) {
            Some(number) => numbers.push(number)?,
            None => return Ok(None),
        }
    }
    Ok(Some(numbers))
}

fn number_at(slices: &[&[i64]], spot: Spot) -> Option<i64>
    ensures { IfSome result (λ z. number_in (map (λ xs. xs.now) slices.now) spot ≡ Some z) }
{
    let part = spot.part as usize;
    if part < slices.len() {
        item_at(slices[part], spot.row as usize)
    } else {
        None
    }
}

fn item_at(numbers: &[i64], i: usize) -> Option<i64>
    ensures { IfSome result (λ z. slice_get numbers.now i ≡ Some z) }
{
    if i < numbers.len() {
        Some(numbers[i])
    } else {
        None
    }
}

// ---- cells of any kind

fn cells_at(alloc: Global, parts: &[Part], j: usize, places: &[Spot]) -> Result<Vec<Value>, Memory>
    requires { All (λ s. s.part < length parts.now) places.now }
    ensures { IfOk result (λ cells. cells.items ≡ map (λ r. cell_of r j) (map (row_of_spot parts.now) places.now)) }
{
    let mut cells = Vec::with_capacity(alloc, places.len())?;
    for spot in places {
        cells.push(cell_at(parts, j, *spot)?)?;
    }
    Ok(cells)
}

fn cell_at(parts: &[Part], j: usize, spot: Spot) -> Result<Value, Memory>
    requires { spot.part < length parts.now }
    ensures { IfOk result (λ v. v ≡ cell_of (row_of_spot parts.now spot) j) }
{
    cell_in(&parts[spot.part as usize], j, spot.row as usize)
}

fn cell_in(part: &Part, j: usize, i: usize) -> Result<Value, Memory>
    ensures { IfOk result (λ v. v ≡ cell_of (part_row part.now i) j) }
{
    if j < part.columns.len() {
        part.columns[j].cell(i)
    } else {
        Ok(Value::Null(Ty::Long))
    }
}
