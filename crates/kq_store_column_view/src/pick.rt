// The cells at some places.
ghost use Rattle.std.specs.Prelude.{◌≡◌, ◌<◌, All, map, option_map, replicate, IfOk, IfSome, IsTrue, Some, slice_get};
ghost use Rattle.kq_value.specs.declared.value.Value.TheVariants.{Long, Bool as Truth, Moment, Span};
ghost use Rattle.kq_store_column_view.specs.Bags.{bags_in};
ghost use Rattle.kq_store_column_view.specs.Vectors.{cell_of, cells_of, dynamic_of};

use crate::bags::LentBags;
use crate::vector::Vector;
use kq_value::{Dyn, Memory, Value};
use std::alloc::Global;

impl<'a> Vector<'a> {
    /// The cells at these places, and a null past the end. Numbers are copied; numbers with marks, and cells of its own, are copied as cells; what
    /// lies elsewhere is lent again.
    pub fn picked(&self, alloc: Global, places: &[usize]) -> Result<Vector<'a>, Memory>
        ensures { IfOk result (λ v. cells_of v ≡ map (cell_of (cells_of self.now)) places.now) }
    {
        match self.found(alloc, places)? {
            Some(found) => Ok(found),
            None => Ok(Vector::Cells(copies_at(alloc, self, places)?)),
        }
    }

    // The same, where none is past the end and the form allows it.
    fn found(&self, alloc: Global, places: &[usize]) -> Result<Option<Vector<'a>>, Memory>
        ensures { IfOk result (λ o. IfSome o (λ v. cells_of v ≡ map (cell_of (cells_of self.now)) places.now)) }
    {
        match self {
            Vector::Longs(longs) => longs_at(alloc, longs, places),
            Vector::Moments(ticks) => moments_at(alloc, ticks, places),
            Vector::Spans(ticks) => spans_at(alloc, ticks, places),
            Vector::Truths(truths) => truths_at(alloc, truths, places),
            Vector::Cells(_) => Ok(None),
            lent => lent.found_lent(alloc, places),
        }
    }

    // The same of cells that lie elsewhere.
    fn found_lent(&self, alloc: Global, places: &[usize]) -> Result<Option<Vector<'a>>, Memory>
        ensures { IfOk result (λ o. IfSome o (λ v. cells_of v ≡ map (cell_of (cells_of self.now)) places.now)) }
    {
        match self {
            Vector::LentLongs(longs) => longs_at(alloc, longs, places),
            Vector::LentMoments(ticks) => moments_at(alloc, ticks, places),
            Vector::LentSpans(ticks) => spans_at(alloc, ticks, places),
            Vector::LentCells(cells) => cells_at(alloc, cells, places),
            Vector::Words(words, codes) => words_at(alloc, words, codes, places),
            Vector::Picked(words, codes) => words_at(alloc, words, codes, places),
            Vector::Placed(cells, held) => places_at(alloc, cells, held, places),
            Vector::Bags(bags, held) => bags_at(alloc, *bags, held, places),
            Vector::Parts(parts) => parts_among(alloc, parts, places),
            Vector::Same(value, count) => same_among(value, *count, places),
            _ => Ok(None),
        }
    }
}

fn longs_at<'a>(
    alloc: Global,
    longs: &[i64],
    places: &[usize],
) -> Result<Option<Vector<'a>>, Memory>
    ensures { IfOk result (λ o. IfSome o (λ v. cells_of v ≡ map (cell_of (map Long longs.now)) places.now)) }
{
    match items_at(alloc, longs, places)? {
        Some(found) => Ok(Some(Vector::Longs(found))),
        None => Ok(None),
    }
}

fn moments_at<'a>(
    alloc: Global,
    ticks: &[i64],
    places: &[usize],
) -> Result<Option<Vector<'a>>, Memory>
    ensures { IfOk result (λ o. IfSome o (λ v. cells_of v ≡ map (cell_of (map Moment ticks.now)) places.now)) }
{
    match items_at(alloc, ticks, places)? {
        Some(found) => Ok(Some(Vector::Moments(found))),
        None => Ok(None),
    }
}

fn spans_at<'a>(
    alloc: Global,
    ticks: &[i64],
    places: &[usize],
) -> Result<Option<Vector<'a>>, Memory>
    ensures { IfOk result (λ o. IfSome o (λ v. cells_of v ≡ map (cell_of (map Span ticks.now)) places.now)) }
{
    match items_at(alloc, ticks, places)? {
        Some(found) => Ok(Some(Vector::Spans(found))),
        None => Ok(None),
    }
}

fn truths_at<'a>(
    alloc: Global,
    truths: &[bool],
    places: &[usize],
) -> Result<Option<Vector<'a>>, Memory>
    ensures { IfOk result (λ o. IfSome o (λ v. cells_of v ≡ map (cell_of (map Truth truths.now)) places.now)) }
{
    match items_at(alloc, truths, places)? {
        Some(found) => Ok(Some(Vector::Truths(found))),
        None => Ok(None),
    }
}

fn cells_at<'a>(
    alloc: Global,
    cells: &'a [Value],
    places: &[usize],
) -> Result<Option<Vector<'a>>, Memory>
    ensures { IfOk result (λ o. IfSome o (λ v. cells_of v ≡ map (cell_of cells.now) places.now)) }
{
    let places = copied(alloc, places)?;
    Ok(Some(Vector::Placed(cells, places)))
}

fn copied(alloc: Global, places: &[usize]) -> Result<Vec<usize>, Memory>
    ensures { IfOk result (λ v. v.items ≡ places.now) }
{
    places.to_vec(alloc)
}

fn words_at<'a>(
    alloc: Global,
    words: &'a [Value],
    codes: &[u32],
    places: &[usize],
) -> Result<Option<Vector<'a>>, Memory>
    ensures { IfOk result (λ o. IfSome o (λ v. cells_of v ≡ map (cell_of (map (cell_of words.now) codes.now)) places.now)) }
{
    match items_at(alloc, codes, places)? {
        Some(found) => Ok(Some(Vector::Picked(words, found))),
        None => Ok(None),
    }
}

fn places_at<'a>(
    alloc: Global,
    cells: &'a [Value],
    held: &[usize],
    places: &[usize],
) -> Result<Option<Vector<'a>>, Memory>
    ensures { IfOk result (λ o. IfSome o (λ v. cells_of v ≡ map (cell_of (map (cell_of cells.now) held.now)) places.now)) }
{
    match items_at(alloc, held, places)? {
        Some(found) => Ok(Some(Vector::Placed(cells, found))),
        None => Ok(None),
    }
}

fn bags_at<'a>(
    alloc: Global,
    bags: LentBags<'a>,
    held: &[usize],
    places: &[usize],
) -> Result<Option<Vector<'a>>, Memory>
    ensures { IfOk result (λ o. IfSome o (λ v. cells_of v ≡ map (cell_of (map (cell_of (bags_in bags.entry.parts.now bags.entry.count)) held.now)) places.now)) }
{
    match items_at(alloc, held, places)? {
        Some(found) => Ok(Some(Vector::Bags(bags, found))),
        None => Ok(None),
    }
}

fn parts_among<'a>(
    alloc: Global,
    parts: &[Option<&'a Dyn>],
    places: &[usize],
) -> Result<Option<Vector<'a>>, Memory>
    ensures { IfOk result (λ o. IfSome o (λ v. cells_of v ≡ map (cell_of (map (λ o. dynamic_of (option_map (λ d. d.now) o)) parts.now)) places.now)) }
{
    match items_at(alloc, parts, places)? {
        Some(found) => Ok(Some(Vector::Parts(found))),
        None => Ok(None),
    }
}

fn same_among<'a>(
    value: &Value,
    count: usize,
    places: &[usize],
) -> Result<Option<Vector<'a>>, Memory>
    ensures { IfOk result (λ o. IfSome o (λ v. cells_of v ≡ map (cell_of (replicate count value.now)) places.now)) }
{
    if are_below(places, count) {
        Ok(Some(Vector::Same(value.clone_in()?, places.len())))
    } else {
        Ok(None)
    }
}

fn are_below(places: &[usize], count: usize) -> bool
    ensures { IsTrue result → All (λ p. p < count) places.now }
{
    for place in places {
        if *place >= count {
            return false;
        }
    }
    true
}

// Copies of the cells at these places.
fn copies_at(alloc: Global, vector: &Vector, places: &[usize]) -> Result<Vec<Value>, Memory>
    ensures { IfOk result (λ v. v.items ≡ map (cell_of (cells_of vector.now)) places.now) }
{
    let mut cells = Vec::with_capacity(alloc, places.len())?;
    for place in places {
        cells.push(vector.cell(*place)?)?;
    }
    Ok(cells)
}

// The items at these places; nothing where one is past the end.
fn items_at<T: Copy>(alloc: Global, items: &[T], places: &[usize]) -> Result<Option<Vec<T>>, Memory>
    ensures { IfOk result (λ o. IfSome o (λ v. map Some v.items ≡ map (slice_get items.now) places.now)) }
{
    let mut found = Vec::with_capacity(alloc, places.len())?;
    for place in places {
        if *place < items.len() {
            found.push(items[*place])?;
        } else {
            return Ok(None);
        }
    }
    Ok(Some(found))
}
