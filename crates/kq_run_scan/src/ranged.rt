// The records of a range of cursors, where they stand.
ghost use Rattle.std.specs.Prelude.{◌≡◌, ◌<◌, ◌∷◌, ◌^◌, [], IfOk, Some, length, map, slice_get};
ghost use Rattle.kq_store_extent.specs.Seen.{held_extents, held_records};
ghost use Rattle.kq_run_scan.specs.Ranges.{count_read, is_between, is_later, places_between, rows_between};
ghost use Rattle.kq_run_scan.specs.Unread.{rows_among};

use crate::beside::Beside;
use crate::lending::Lending;
use kq_store_extent::{Extent, TableExtents};
use kq_store_frame::Frame;
use kq_store_rows::Rows;
use kq_value::{Memory, Schema};
use std::alloc::Global;

/// The rows of the records with a cursor above the one and not above the other, widened and cut to the columns: each record stands by its place,
/// beside no cells of others.
pub(crate) fn pairs_between(
    alloc: Global,
    extents: TableExtents,
    schema: Schema,
    above: u64,
    to: u64,
) -> Result<Beside, Memory>
    requires { length (held_records extents) < 2 ^ 63 }
    ensures { IfOk result (λ rows. rows_among rows ≡ rows_between above to schema (held_records extents)) }
{
    let parts = parts_between(alloc, &extents, above, to)?;
    let others = Frame::of_rows(alloc, &Rows::new(alloc))?;
    let width = schema.len();
    match Beside::over(Lending::new(extents, schema), width, others, 0, parts) {
        Some(rows) => Ok(rows),
        None => unreachable!(),
    }
}

// For each extent the places of its records in the range.
fn parts_between(
    alloc: Global,
    extents: &TableExtents,
    above: u64,
    to: u64,
) -> Result<Vec<Vec<(usize, usize)>>, Memory>
    ensures { IfOk result (λ parts. map (λ pairs. pairs.items) parts.items ≡ map (λ e. places_between above to 0 e.records) (held_extents extents.now)) }
{
    let mut parts = Vec::with_capacity(alloc, extents.len())?;
    for at in 0..extents.len() {
        let pairs = places_in(alloc, extent_at(extents, at), above, to)?;
        parts.push(pairs)?;
    }
    Ok(parts)
}

// The same of one: its records are not looked at where none is later.
fn places_in(
    alloc: Global,
    extent: &Extent,
    above: u64,
    to: u64,
) -> Result<Vec<(usize, usize)>, Memory>
    ensures { IfOk result (λ pairs. pairs.items ≡ places_between above to 0 extent.now.records) }
{
    if is_later(extent, above) {
        places_among(alloc, extent, above, to)
    } else {
        Ok(Vec::new(alloc))
    }
}

fn places_among(
    alloc: Global,
    extent: &Extent,
    above: u64,
    to: u64,
) -> Result<Vec<(usize, usize)>, Memory>
    ensures { IfOk result (λ pairs. pairs.items ≡ places_between above to 0 extent.now.records) }
{
    let mut pairs = Vec::new(alloc);
    for i in 0..extent.len() {
        if is_between(extent.id_of(i).cursor, above, to) {
            pairs.push((i, 0))?;
        }
    }
    Ok(pairs)
}

fn is_between(cursor: u64, above: u64, to: u64) -> bool
    ensures { result ≡ is_between above to cursor }
{
    above < cursor && cursor <= to
}

fn is_later(extent: &Extent, above: u64) -> bool
    ensures { result ≡ is_later above extent.now }
{
    match extent.cursors() {
        Some((_, greatest)) => above < greatest,
        None => false,
    }
}

fn extent_at(extents: &TableExtents, at: usize) -> &Extent
    requires { at < length (held_extents extents.now) }
    ensures { slice_get (held_extents extents.now) at ≡ Some result.now }
{
    &extents.part_from(at)[0]
}

/// The number of records of the extents that have one with a cursor above this, for which none is looked at.
pub fn records_later(extents: &TableExtents, above: u64) -> u64
    requires { length (held_records extents.now) < 2 ^ 63 }
    ensures count { result ≡ count_read above (held_extents extents.now) }
    ensures small { result < 2 ^ 63 }
{
    let mut count = 0;
    for at in 0..extents.len() {
        count += count_later(extent_at(extents, at), above);
    }
    count
}

fn count_later(extent: &Extent, above: u64) -> u64
    ensures { result ≡ count_read above (extent.now ∷ []) }
{
    if is_later(extent, above) {
        extent.len() as u64
    } else {
        0
    }
}
