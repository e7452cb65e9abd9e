// Columns of cells.
ghost use Rattle.std.specs.Prelude.{◌≡◌, length, map, replicate, IfOk, IfSome};
ghost use Rattle.kq_value.specs.declared.value.Value.TheVariants.{Long, Bool as Truth, Moment, Span};
ghost use Rattle.kq_store_column_view.specs.Numbers.{marked, number_cell};
ghost use Rattle.kq_store_column_view.specs.Vectors.{cell_of, cells_of};

use crate::at::{
    cell_at, long_at, moment_at, part_at, placed_at, same_at, span_at, truth_at, word_at,
};
use crate::bags::LentBags;
use crate::made::placed_bag;
use crate::marked::MarkedNumbers;
use crate::numbers::{marked_longs, marked_moments, marked_spans, number_at};
use kq_value::{Dyn, Memory, Value};

/// The cells of a column: longs, ticks of datetimes or of timespans, or truths, none of them null; or any cells. Lent ones lie elsewhere, as they
/// are, as numbers with marks of nulls, or as words with a code for each cell.
#[derive(Drop)]
pub enum Vector<'a> {
    Longs(Vec<i64>),
    Moments(Vec<i64>),
    Spans(Vec<i64>),
    Truths(Vec<bool>),
    Cells(Vec<Value>),
    LentLongs(&'a [i64]),
    LentMoments(&'a [i64]),
    LentSpans(&'a [i64]),
    LentCells(&'a [Value]),
    /// Numbers of one type, some of them null.
    Marked(MarkedNumbers<'a>),
    Words(&'a [Value], &'a [u32]),
    Picked(&'a [Value], Vec<u32>),
    /// Cells that lie elsewhere, by their places.
    Placed(&'a [Value], Vec<usize>),
    /// Bags that are kept by their members, at these places.
    Bags(LentBags<'a>, Vec<usize>),
    /// Parts of dynamics, none for the null of dynamics.
    Parts(Vec<Option<&'a Dyn>>),
    /// One cell, so many times.
    Same(Value, usize),
}

impl Vector<'_> {
    pub fn len(&self) -> usize
        ensures { result ≡ length (cells_of self.now) }
    {
        match self {
            Vector::Longs(longs) => longs.len(),
            Vector::Moments(ticks) => ticks.len(),
            Vector::Spans(ticks) => ticks.len(),
            Vector::Truths(truths) => truths.len(),
            Vector::Cells(cells) => cells.len(),
            Vector::LentLongs(longs) => longs.len(),
            Vector::LentMoments(ticks) => ticks.len(),
            Vector::LentSpans(ticks) => ticks.len(),
            Vector::LentCells(cells) => cells.len(),
            Vector::Marked(numbers) => numbers.numbers.len(),
            Vector::Words(_, codes) => codes.len(),
            Vector::Picked(_, codes) => codes.len(),
            Vector::Placed(_, places) => places.len(),
            Vector::Bags(_, places) => places.len(),
            Vector::Parts(parts) => parts.len(),
            Vector::Same(_, count) => *count,
        }
    }

    /// The cell, and a null past the end.
    pub fn cell(&self, i: usize) -> Result<Value, Memory>
        ensures { IfOk result (λ v. v ≡ cell_of (cells_of self.now) i) }
    {
        match self {
            Vector::Longs(longs) => Ok(long_at(longs, i)),
            Vector::Moments(ticks) => Ok(moment_at(ticks, i)),
            Vector::Spans(ticks) => Ok(span_at(ticks, i)),
            Vector::Truths(truths) => Ok(truth_at(truths, i)),
            Vector::Cells(cells) => cell_at(cells, i),
            Vector::LentLongs(longs) => Ok(long_at(longs, i)),
            Vector::LentMoments(ticks) => Ok(moment_at(ticks, i)),
            Vector::LentSpans(ticks) => Ok(span_at(ticks, i)),
            Vector::LentCells(cells) => cell_at(cells, i),
            Vector::Marked(numbers) => Ok(number_at(numbers.ty, numbers.numbers, numbers.nulls, i)),
            Vector::Words(words, codes) => word_at(words, codes, i),
            Vector::Picked(words, codes) => word_at(words, codes, i),
            Vector::Placed(cells, places) => placed_at(cells, places, i),
            Vector::Bags(bags, places) => placed_bag(*places.allocator(), bags, places, i),
            Vector::Parts(parts) => part_at(*parts.allocator(), parts, i),
            Vector::Same(value, count) => same_at(value, *count, i),
        }
    }

    /// Its longs, where the code knows that all are.
    pub fn longs(&self) -> Option<&[i64]>
        ensures { IfSome result (λ longs. cells_of self.now ≡ map Long longs.now) }
    {
        match self {
            Vector::Longs(longs) => Some(longs.as_slice()),
            Vector::LentLongs(longs) => Some(longs),
            _ => None,
        }
    }

    /// The ticks of its datetimes, likewise.
    pub fn moments(&self) -> Option<&[i64]>
        ensures { IfSome result (λ ticks. cells_of self.now ≡ map Moment ticks.now) }
    {
        match self {
            Vector::Moments(ticks) => Some(ticks.as_slice()),
            Vector::LentMoments(ticks) => Some(ticks),
            _ => None,
        }
    }

    /// The ticks of its timespans, likewise.
    pub fn spans(&self) -> Option<&[i64]>
        ensures { IfSome result (λ ticks. cells_of self.now ≡ map Span ticks.now) }
    {
        match self {
            Vector::Spans(ticks) => Some(ticks.as_slice()),
            Vector::LentSpans(ticks) => Some(ticks),
            _ => None,
        }
    }

    /// Its truths, likewise.
    pub fn truths(&self) -> Option<&[bool]>
        ensures { IfSome result (λ truths. cells_of self.now ≡ map Truth truths.now) }
    {
        match self {
            Vector::Truths(truths) => Some(truths.as_slice()),
            _ => None,
        }
    }

    /// The cells, where they lie one after another.
    pub fn cells(&self) -> Option<&[Value]>
        ensures { IfSome result (λ cells. cells_of self.now ≡ cells.now) }
    {
        match self {
            Vector::Cells(cells) => Some(cells.as_slice()),
            Vector::LentCells(cells) => Some(cells),
            _ => None,
        }
    }

    /// Words, and the code of each cell, where the cells are kept so.
    pub fn words(&self) -> Option<(&[Value], &[u32])>
        ensures { IfSome result (λ parts. cells_of self.now ≡ map (cell_of parts.0.now) parts.1.now) }
    {
        match self {
            Vector::Words(words, codes) => Some((words, codes)),
            Vector::Picked(words, codes) => Some((words, codes.as_slice())),
            _ => None,
        }
    }

    /// Its numbers with marks of nulls, where all cells are numbers of one type or nulls of it.
    pub fn marked(&self) -> Option<MarkedNumbers<'_>>
        ensures { IfSome result (λ numbers. cells_of self.now ≡ map (number_cell numbers.ty) (marked numbers.nulls.now numbers.numbers.now)) }
    {
        match self {
            Vector::Longs(longs) => Some(marked_longs(longs)),
            Vector::Moments(ticks) => Some(marked_moments(ticks)),
            Vector::Spans(ticks) => Some(marked_spans(ticks)),
            Vector::LentLongs(longs) => Some(marked_longs(longs)),
            Vector::LentMoments(ticks) => Some(marked_moments(ticks)),
            Vector::LentSpans(ticks) => Some(marked_spans(ticks)),
            Vector::Marked(numbers) => Some(*numbers),
            _ => None,
        }
    }

    /// The one cell, and how many times it stands there.
    pub fn same(&self) -> Option<(&Value, usize)>
        ensures { IfSome result (λ parts. cells_of self.now ≡ replicate parts.1 parts.0.now) }
    {
        match self {
            Vector::Same(value, count) => Some((value, *count)),
            _ => None,
        }
    }

    /// The same cells, lent.
    pub fn lend(&self) -> Option<Vector<'_>>
        ensures { IfSome result (λ v. cells_of v ≡ cells_of self.now) }
    {
        match self {
            Vector::Longs(longs) => Some(Vector::LentLongs(longs.as_slice())),
            Vector::Moments(ticks) => Some(Vector::LentMoments(ticks.as_slice())),
            Vector::Spans(ticks) => Some(Vector::LentSpans(ticks.as_slice())),
            Vector::Truths(_) => None,
            Vector::Cells(cells) => Some(Vector::LentCells(cells.as_slice())),
            Vector::LentLongs(longs) => Some(Vector::LentLongs(longs)),
            Vector::LentMoments(ticks) => Some(Vector::LentMoments(ticks)),
            Vector::LentSpans(ticks) => Some(Vector::LentSpans(ticks)),
            Vector::LentCells(cells) => Some(Vector::LentCells(cells)),
            Vector::Marked(numbers) => Some(Vector::Marked(*numbers)),
            Vector::Words(words, codes) => Some(Vector::Words(words, codes)),
            Vector::Picked(words, codes) => Some(Vector::Words(words, codes.as_slice())),
            Vector::Placed(_, _) | Vector::Bags(_, _) | Vector::Parts(_) | Vector::Same(_, _) => {
                None
            }
        }
    }
}
