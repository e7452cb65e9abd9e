// Where the rows that a query reads stand, source by source.
ghost use Rattle.std.specs.Prelude.{◌≡◌, ◌<◌, IfNone, IfSome, [], Some, drop, length, slice_get};
ghost use Rattle.kq_run_scan.specs.Held.{rows_in, sources_in};
ghost use Rattle.kq_run_scan.specs.Sources.{source_rows};
ghost use Rattle.kq_run_scan.specs.Unread.{BeginsAt, rows_from};

use crate::beside::Beside;
use crate::lending::Lending;
use crate::source::Source;
use kq_run_row_operators::Relation;
use kq_store_frame::Frame;
use kq_store_rows::Rows;

// Rows are one source, side by side or in columns, and each extent is one, also where its rows stand beside others.
#[derive(Drop)]
pub(crate) enum Place {
    Own(Rows),
    Framed(Frame),
    Lent(Lending),
    Beside(Beside),
}

// The place of a row: the number of its source, and how many rows of that stand before it.
#[derive(Clone, Copy)]
pub(crate) struct Spot {
    pub source: usize,
    pub row: usize,
}

impl Place {
    /// The number of sources.
    pub fn len(&self) -> usize
        ensures { result ≡ length (sources_in self.now) }
    {
        match self {
            Place::Own(_) => 1,
            Place::Framed(_) => 1,
            Place::Lent(extents) => extents.len(),
            Place::Beside(rows) => rows.len(),
        }
    }

    pub fn source(&self, at: usize) -> Source<'_>
        requires { at < length (sources_in self.now) }
        ensures { slice_get (sources_in self.now) at ≡ Some (source_rows result) }
    {
        match self {
            Place::Own(rows) => Source::Rows(rows),
            Place::Framed(frame) => Source::Frame(frame),
            Place::Lent(extents) => Source::Extent(extents.records_at(at)),
            Place::Beside(rows) => Source::Beside(rows.source_at(at)),
        }
    }

    /// The place of the row of this number, or the end where there are fewer.
    pub fn spot_at(&self, number: u64) -> Spot
        ensures { rows_from (sources_in self.now) result.source result.row ≡ drop number (rows_in self.now) }
    {
        let mut row = number;
        for source in 0..self.len() {
            let len = self.source(source).len() as u64;
            if row < len {
                return Spot {
                    source,
                    row: row as usize,
                };
            }
            row -= len;
        }
        Spot {
            source: self.len(),
            row: 0,
        }
    }

    /// The first row from a spot on: sources without any that are left are passed over.
    pub fn seek(&self, spot: Spot) -> Option<Spot>
        ensures some { IfSome result (λ s. BeginsAt (sources_in self.now) s.source s.row (rows_from (sources_in self.now) spot.source spot.row)) }
        ensures none { IfNone result (rows_from (sources_in self.now) spot.source spot.row ≡ []) }
    {
        let mut row = spot.row;
        for source in spot.source..self.len() {
            if row < self.source(source).len() {
                return Some(Spot { source, row });
            }
            row = 0;
        }
        None
    }
}
