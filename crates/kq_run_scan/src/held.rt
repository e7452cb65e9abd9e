// The rows that a query reads.
ghost use Rattle.std.specs.Prelude.{◌≡◌, ◌<◌, ◌^◌, IfOk, IfSome, length, map, take};
ghost use Rattle.std.specs.List.{flat_map};
ghost use Rattle.kq_run_row_operators.specs.kq_eval_pieces.Pieces.{piece_of};
ghost use Rattle.kq_run_row_operators.specs.kq_eval_row.Val.{surroundings};
ghost use Rattle.kq_run_scan.specs.Beside.{each_found};
ghost use Rattle.kq_run_scan.specs.Gathered.{gathered};
ghost use Rattle.kq_store_extent.specs.Seen.{held_records};
ghost use Rattle.kq_store_extent.specs.Wide.{wide_held};
ghost use Rattle.kq_run_scan.specs.Lent.{AreLent, rows_held};
ghost use Rattle.kq_run_scan.specs.Ranges.{rows_between};
ghost use Rattle.kq_run_row_operators.specs.Operators.{rowwise_of};
ghost use Rattle.kq_run_row_operators.specs.Ran.{ran, width_in_end};
ghost use Rattle.kq_run_scan.specs.Unread.{width_of};

use crate::beside::Beside;
use crate::finder::Finder;
use crate::first::{all_copies, first_copies, first_rows};
use crate::flow::Flow;
use crate::gathered::Gathered;
use crate::lending::Lending;
use crate::place::Place;
use crate::ranged::pairs_between;
use kq_run_row_operators::Operator;
use kq_store_extent::TableExtents;
use kq_store_frame::Frame;
use kq_store_rows::Rows;
use kq_value::{Memory, Schema, Value};
use std::alloc::Global;
use std::marker::Model;

/// Rows of its own, side by side or in columns; the rows of the records of extents, which are lent as they stand and read under the columns of their
/// table; or such rows beside others, or those of a range of cursors, as pairs of places. Contracts see the list of the rows.
#[derive(Drop)]
pub struct Held {
    place: Place,
}

impl Model for Held {
    ghost use Rattle.std.specs.Prelude.{List};
    ghost use Rattle.kq_value.specs.declared.value.Value.{Value as Cell};
    ghost use Rattle.std.specs.Coded.{coded_list};
    ghost use Rattle.kq_value.specs.contracts.value.Value as cell;
    ghost use Rattle.kq_run_scan.specs.Held.{rows_in, IsReadable};

    ghost Value = { List (List Cell) };

    ghost coded = { coded_list (coded_list cell.the_row.coded) };

    ghost view = { λ h. rows_in h.place };

    ghost invariant = { λ h. IsReadable h.place };
}

impl Held {
    pub fn own(rows: Rows) -> Held
        ensures { result ≡ rows }
    {
        // Its rows are of one width.
        let _width = rows.width();
        Held {
            place: Place::Own(rows),
        }
    }

    /// Rows of its own in columns.
    pub fn framed(frame: Frame) -> Held
        ensures { result ≡ frame }
    {
        // Its rows are of one width.
        let _width = frame.width();
        Held {
            place: Place::Framed(frame),
        }
    }

    /// The rows of the records of a table with these columns.
    pub fn lent(extents: TableExtents, schema: Schema) -> Held
        requires { AreLent (wide_held schema extents) }
        ensures { result ≡ rows_held (wide_held schema extents) }
    {
        Held {
            place: Place::Lent(Lending::new(extents, schema)),
        }
    }

    /// The rows of the records of a table with a cursor above the one and not above the other, widened and cut to the columns. None is copied, and no
    /// record of an extent that has none above is looked at.
    pub fn between(
        alloc: Global,
        extents: TableExtents,
        schema: Schema,
        above: u64,
        to: u64,
    ) -> Result<Held, Memory>
        requires { length (held_records extents) < 2 ^ 63 }
        ensures { IfOk result (λ held. held ≡ rows_between above to schema (held_records extents)) }
    {
        let rows = pairs_between(alloc, extents, schema, above, to)?;
        Ok(Held {
            place: Place::Beside(rows),
        })
    }

    /// Each of the rows, cut to so many cells or filled with nulls, with each of the others that is found for it, likewise. No cell is copied. None
    /// where the rows do not lie in extents, or too many come.
    pub fn beside<F: Finder>(
        &self,
        alloc: Global,
        width: usize,
        others: Frame,
        others_width: usize,
        finder: &F,
    ) -> Result<Option<Held>, Memory>
        ensures { IfOk result (λ o. IfSome o (λ held. held ≡ flat_map (each_found width others_width (F.found finder.now) others) self.now)) }
    {
        let Place::Lent(extents) = &self.place else {
            return Ok(None);
        };
        match Beside::of(alloc, extents.share()?, width, others, others_width, finder)? {
            Some(rows) => Ok(Some(Held {
                place: Place::Beside(rows),
            })),
            None => Ok(None),
        }
    }

    /// Whether these are the rows of all records of a table, lent as they stand.
    pub fn are_records(&self) -> bool {
        matches!(self.place, Place::Lent(_))
    }

    /// Whether no row is made before it is read: they are records, or are told by pairs of places.
    pub fn are_lent(&self) -> bool {
        matches!(self.place, Place::Lent(_) | Place::Beside(_))
    }

    /// The number of rows, for which none is made.
    pub fn len(&self) -> u64
        ensures count { result ≡ length self.now }
        ensures small { result < 2 ^ 63 }
    {
        match &self.place {
            Place::Own(rows) => rows.len() as u64,
            Place::Framed(frame) => frame.len() as u64,
            Place::Lent(extents) => extents.count_records(),
            Place::Beside(rows) => rows.count(),
        }
    }

    /// The rows on their way through row operators, with the cells of the scalar lets and the ticks of the command's moment.
    pub fn flow<'a>(
        &'a self,
        alloc: Global,
        operators: &'a [Operator<'a>],
        lets: &'a [Value],
        now: i64,
    ) -> Flow<'a>
        ensures { result.to_come ≡ ran (map rowwise_of operators.now) (surroundings now lets.now) self.now }
    {
        self.flow_between(alloc, 0, self.len(), operators, lets, now)
    }

    /// The same of the rows from the one of a number on, up to that of another.
    pub fn flow_between<'a>(
        &'a self,
        alloc: Global,
        from: u64,
        to: u64,
        operators: &'a [Operator<'a>],
        lets: &'a [Value],
        now: i64,
    ) -> Flow<'a>
        ensures rows { result.to_come ≡ ran (map rowwise_of operators.now) (surroundings now lets.now) (piece_of self.now from to) }
        ensures width { result.width ≡ width_in_end (map rowwise_of operators.now) (width_of self.now) }
    {
        Flow::new(alloc, &self.place, from, to, operators, lets, now)
    }

    /// Copies of the first rows, so many or all: in columns, where they stand so.
    pub fn first(&self, alloc: Global, count: u64) -> Result<Held, Memory>
        ensures { IfOk result (λ few. few ≡ take count self.now) }
    {
        match &self.place {
            Place::Own(rows) => Ok(Held::own(first_rows(alloc, rows, count)?)),
            Place::Framed(frame) => Ok(Held::framed(frame.first(alloc, count)?)),
            Place::Lent(_) | Place::Beside(_) => {
                Ok(Held::own(first_copies(alloc, &self.place, count)?))
            }
        }
    }

    /// All rows side by side: those that stand so are lent, and others are copied.
    pub fn gather(&self, alloc: Global) -> Result<Gathered<'_>, Memory>
        ensures { IfOk result (λ rows. gathered rows ≡ self.now) }
    {
        match &self.place {
            Place::Own(rows) => Ok(Gathered::Own(rows)),
            place => Ok(Gathered::Copied(all_copies(alloc, place)?)),
        }
    }

    /// All rows: those that stand side by side move out, and others are copied.
    pub fn into_rows(self, alloc: Global) -> Result<Rows, Memory>
        ensures { IfOk result (λ rows. rows ≡ self) }
    {
        match self.place {
            Place::Own(rows) => Ok(rows),
            place => all_copies(alloc, &place),
        }
    }
}
