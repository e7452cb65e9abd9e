// The first rows.
ghost use Rattle.std.specs.Prelude.{◌≡◌, ◌<◌, ◌++◌, IfOk, OnOk, length, take};
ghost use Rattle.std.specs.List.{range_with_len};
ghost use Rattle.kq_store_rows.specs.Chunks.{same_width};
ghost use Rattle.kq_run_scan.specs.Held.{IsReadable, rows_in};

use crate::place::Place;
use kq_run_row_operators::{Relation, copy_row};
use kq_store_rows::Rows;
use kq_value::Memory;
use std::alloc::Global;

// Copies of the first rows, and of no others.
pub(crate) fn first_rows(alloc: Global, rows: &Rows, count: u64) -> Result<Rows, Memory>
    ensures { IfOk result (λ few. few ≡ take count rows.now) }
{
    if count < rows.len() as u64 {
        copies(alloc, rows, count as usize)
    } else {
        let all = rows.clone_in()?;
        Ok(all)
    }
}

fn copies(alloc: Global, rows: &Rows, count: usize) -> Result<Rows, Memory>
    requires { count < length rows.now }
    ensures { IfOk result (λ few. few ≡ take count rows.now) }
{
    let places = first_places(alloc, count)?;
    rows.select(&places)
}

fn first_places(alloc: Global, count: usize) -> Result<Vec<usize>, Memory>
    ensures { IfOk result (λ places. places.items ≡ range_with_len 0 count) }
{
    let mut places = Vec::with_capacity(alloc, count)?;
    for place in 0..count {
        places.push(place)?;
    }
    Ok(places)
}

// Copies of all rows.
pub(crate) fn all_copies(alloc: Global, place: &Place) -> Result<Rows, Memory>
    requires { IsReadable place.now }
    ensures { IfOk result (λ all. all ≡ rows_in place.now) }
{
    match place {
        Place::Own(rows) => {
            let all = rows.clone_in()?;
            Ok(all)
        }
        Place::Framed(frame) => frame.to_rows(alloc),
        Place::Lent(extents) => extents.all_rows(alloc),
        Place::Beside(rows) => first_copies(alloc, place, rows.count()),
    }
}

// Copies of the first rows, source by source. The sources behind them are not looked at.
pub(crate) fn first_copies(alloc: Global, place: &Place, count: u64) -> Result<Rows, Memory>
    requires { same_width (rows_in place.now) }
    ensures { IfOk result (λ few. few ≡ take count (rows_in place.now)) }
{
    let mut few = Rows::new(alloc);
    for at in 0..place.len() {
        let left = count.saturating_sub(few.len() as u64);
        if left == 0 {
            return Ok(few);
        }
        add_first(alloc, &mut few, &place.source(at), left)?;
    }
    Ok(few)
}

// Adds copies of the first rows of a relation behind others.
fn add_first<R: Relation>(alloc: Global, few: &mut Rows, rows: &R, count: u64) -> Result<(), Memory>
    requires { same_width (few.old ++ R.rows rows.now) }
    ensures { OnOk result (few.new ≡ few.old ++ take count (R.rows rows.now)) }
{
    let end = count.min(rows.len() as u64) as usize;
    let mut row = Vec::new(alloc);
    for i in 0..end {
        copy_row(&mut row, rows, i)?;
        few.push_from(&mut row)?;
    }
    Ok(())
}
