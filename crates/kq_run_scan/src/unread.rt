// Rows that are yet to be read.
ghost use Rattle.std.specs.Prelude.{◌≡◌};
ghost use Rattle.kq_run_row_operators.specs.kq_eval_pieces.Pieces.{piece_of};
ghost use Rattle.kq_run_scan.specs.Held.{IsReadable, rows_in};
ghost use Rattle.kq_run_scan.specs.ReadParts.{ReadsPart};
ghost use Rattle.kq_run_scan.specs.Unread.{width_of};

use crate::place::{Place, Spot};
use crate::source::Source;
use kq_run_row_operators::{Piece, Relation};
use std::marker::Model;

// The most rows of a part.
const PART: u64 = 4096;

// Rows as they are read in parts. Contracts see those that are left, and how many cells each row has.
#[derive(Drop)]
pub(crate) struct Unread<'a> {
    place: &'a Place,
    spot: Spot,
    left: u64,
}

impl<'a> Model for Unread<'a> {
    ghost use Rattle.std.specs.Prelude.{take};
    ghost use Rattle.std.specs.Coded.{codes};
    ghost use Rattle.kq_value.specs.contracts.value.Value as cell;
    ghost use Rattle.kq_run_scan.specs.Unread.{UnreadView};

    ghost Value = { UnreadView };

    ghost coded = { Prim.hlevel (codes, cell.the_row.coded) };

    ghost use Rattle.kq_run_scan.specs.Held.{rows_in, sources_in, IsReadable};
    ghost use Rattle.kq_run_scan.specs.Unread.{rows_from, width_of};

    ghost view = { λ u. record { rows = take u.left (rows_from (sources_in u.place.now) u.spot.source u.spot.row); width = width_of (rows_in u.place.now) } };

    ghost invariant = { λ u. IsReadable u.place.now };
}

impl<'a> Unread<'a> {
    /// The rows from the one of a number on, up to that of another.
    pub fn new(place: &'a Place, from: u64, to: u64) -> Unread<'a>
        requires { IsReadable place.now }
        ensures rows { result.rows ≡ piece_of (rows_in place.now) from to }
        ensures width { result.width ≡ width_of (rows_in place.now) }
    {
        Unread {
            place,
            spot: place.spot_at(from),
            left: to.saturating_sub(from),
        }
    }

    /// The next rows, of one source and at most a few thousand, or none where all have been read.
    pub fn next_part(&mut self) -> Option<Piece<Source<'a>>>
        ensures { ReadsPart self.old self.new result }
    {
        if self.left == 0 {
            return None;
        }
        match self.place.seek(self.spot) {
            Some(spot) => {
                let source = self.place.source(spot.source);
                let most = self.left.min(PART);
                let to = source.len().min(spot.row + most as usize);
                self.left -= (to - spot.row) as u64;
                self.spot = Spot {
                    source: spot.source,
                    row: to,
                };
                Some(Piece::Part(source, spot.row, to))
            }
            None => None,
        }
    }
}
