// Rows in one buffer.
ghost use Rattle.std.specs.Prelude.{◌≡◌, ◌↔◌, ◌+◌, ◌<◌, ◌≤◌, ◌^◌, List, [], ◌∷◌, ◌++◌, length, map, take, IfOk, IsTrue, OnOk, OnErr, slice_get, Some};
ghost use Rattle.std.specs.List.{All};
ghost use Rattle.kq_store_rows.specs.Chunks.{HasWidth, same_width, row_at};

use kq_value::{Memory, Value};
use std::alloc::{AllocError, Global};
use std::marker::Model;

// The most rows.
const MOST: usize = 0x7fff_ffff_ffff_ffff;

/// Records of one width, whose cells lie in one buffer. Contracts see the list of their rows.
///
/// The width is that of the rows put in, so that rows which are none yet have no width.
#[derive(Drop)]
pub struct Rows {
    cells: Vec<Value>,
    width: usize,
    count: usize,
}

impl Model for Rows {
    ghost use Rattle.std.specs.Prelude.{◌≡◌, ◌*◌, ◌<◌, ◌^◌, List, length};
    ghost use Rattle.kq_value.specs.declared.value.Value.{Value as Cell};
    ghost use Rattle.std.specs.Coded.{coded_list};
    ghost use Rattle.kq_value.specs.contracts.value.Value as cell;
    ghost use Rattle.kq_store_rows.specs.Chunks.{chunks};

    ghost Value = { List (List Cell) };

    ghost coded = { coded_list (coded_list cell.the_row.coded) };

    ghost view = { λ r. chunks r.count r.width r.cells.items };

    ghost invariant = { λ r. (length r.cells.items ≡ r.count * r.width) × (r.count < 2 ^ 63) };
}

// Appends copies, or leaves all as it was.
fn append_copies<T: Clone>(items: &mut Vec<T>, more: &[T]) -> Result<(), Memory>
    ensures ok { OnOk result (((x y : T) → T.is_clone x y → y ≡ x) → items.new.items ≡ items.old.items ++ more.now) }
    ensures err { OnErr result (items.new.items ≡ items.old.items) }
{
    items.extend_from_slice(more)
}

impl Rows {
    pub fn new(alloc: Global) -> Rows
        ensures { result ≡ [] }
    {
        Rows {
            cells: Vec::new(alloc),
            width: 0,
            count: 0,
        }
    }

    pub fn len(&self) -> usize
        ensures count { result ≡ length self.now }
        ensures small { result < 2 ^ 63 }
    {
        self.count
    }

    pub fn is_empty(&self) -> bool
        ensures { IsTrue result ↔ (self.now ≡ []) }
    {
        self.len() == 0
    }

    /// The number of cells of each row. Where there is no row, it may be any.
    pub fn width(&self) -> usize
        ensures { All (HasWidth result) self.now }
    {
        self.width
    }

    /// Whether a row of so many cells may be put in.
    pub fn has_width(&self, width: usize) -> bool
        ensures { IsTrue result ↔ All (HasWidth width) self.now }
    {
        if self.count == 0 {
            return true;
        }
        self.width == width
    }

    /// The cells of a row, lent.
    pub fn row(&self, index: usize) -> &[Value]
        requires { index < length self.now }
        ensures { slice_get self.now index ≡ Some result.now }
    {
        let from = index * self.width;
        &self.cells[from..from + self.width]
    }

    /// Puts a row last: its cells move in, and `row` is empty afterwards, with its room kept for the next row.
    pub fn push_from(&mut self, row: &mut Vec<Value>) -> Result<(), Memory>
        requires { All (HasWidth (length row.old.items)) self.old }
        ensures ok { OnOk result (self.new ≡ self.old ++ row.old.items ∷ []) }
        ensures left { OnOk result (row.new.items ≡ []) }
        ensures err { OnErr result (self.new ≡ self.old) }
    {
        room(self.count, 1)?;
        let width = row.len();
        self.cells.append(row)?;
        self.width = width;
        self.count += 1;
        Ok(())
    }

    /// Puts a copy of a row last.
    pub fn push_copy(&mut self, row: &[Value]) -> Result<(), Memory>
        requires { All (HasWidth (length row.now)) self.old }
        ensures ok { OnOk result (self.new ≡ self.old ++ row.now ∷ []) }
        ensures err { OnErr result (self.new ≡ self.old) }
    {
        room(self.count, 1)?;
        append_copies(&mut self.cells, row)?;
        self.width = row.len();
        self.count += 1;
        Ok(())
    }

    /// Keeps so many rows, the first ones.
    pub fn truncate(&mut self, count: usize)
        ensures { self.new ≡ take count self.old }
    {
        if count < self.count {
            self.cells.truncate(count * self.width);
            self.count = count;
        }
    }

    /// Puts all rows of another last.
    pub fn append(&mut self, mut other: Rows) -> Result<(), Memory>
        requires { same_width (self.old ++ other) }
        ensures ok { OnOk result (self.new ≡ self.old ++ other) }
        ensures err { OnErr result (self.new ≡ self.old) }
    {
        if other.count == 0 {
            return Ok(());
        }
        room(self.count, other.count)?;
        self.cells.append(&mut other.cells)?;
        self.width = other.width;
        self.count += other.count;
        Ok(())
    }

    /// Copies of the rows at these places, in this order: what a filter keeps, a page, or all rows sorted.
    pub fn select(&self, places: &[usize]) -> Result<Rows, Memory>
        requires { All (λ i. i < length self.now) places.now }
        ensures { IfOk result (λ rows. rows ≡ map (row_at self.now) places.now) }
    {
        let mut rows = Rows::new(*self.cells.allocator());
        for place in places {
            rows.push_copy(self.row(*place))?;
        }
        Ok(rows)
    }

    pub fn clone_in(&self) -> Result<Rows, Memory>
        ensures { IfOk result (λ r. r ≡ self.now) }
    {
        let cells = Vec::from_clones(*self.cells.allocator(), self.cells.as_slice())?;
        Ok(Rows {
            cells,
            width: self.width,
            count: self.count,
        })
    }
}

// Whether so many rows more may stand in a buffer.
fn room(count: usize, more: usize) -> Result<(), Memory>
    requires before { count < 2 ^ 63 }
    requires more { more < 2 ^ 63 }
    ensures ok { OnOk result (count + more < 2 ^ 63) }
    ensures err { OnErr result (2 ^ 63 ≤ count + more) }
{
    if count > MOST - more {
        return Err(AllocError);
    }
    Ok(())
}
