// Columns of shared values.
ghost use Rattle.std.specs.Prelude.{◌≡◌, ◌<◌, ◌≤◌, ◌-◌, ◌++◌, ◌^◌, All, flat_map, length, IfOk, IfSome, OnOk, Some, slice_get, take, drop};
ghost use Rattle.kq_store_column.specs.Cells.{column_of, IsWider};
ghost use Rattle.kq_store_column_view.specs.Vectors.{cells_of};

use crate::bags::Bags;
use crate::cells::cell_at;
use crate::zone::Cellwise;
use kq_store_column_view::Vector;
use kq_store_rows::Rows;
use kq_value::{Memory, Value};
use std::alloc::Global;
use std::marker::Model;

// A value for each row. The texts and dynamics in it are shared with the rows. Contracts see the cells.
#[derive(Drop)]
pub(crate) struct Shared {
    cells: Vec<Value>,
}

impl Model for Shared {
    ghost use Rattle.std.specs.Prelude.{List};
    ghost use Rattle.kq_value.specs.declared.value.Value.{Value as Cell};
    ghost use Rattle.std.specs.Coded.{coded_list};
    ghost use Rattle.kq_value.specs.contracts.value.Value as cell;

    ghost Value = { List Cell };

    ghost coded = { coded_list cell.the_row.coded };

    ghost view = { λ c. c.cells.items };
}

impl Shared {
    pub fn from_vec(cells: Vec<Value>) -> Shared
        ensures { result ≡ cells.items }
    {
        Shared { cells }
    }

    /// The cells of a column of rows.
    pub fn build(alloc: Global, rows: &Rows, column: usize) -> Result<Shared, Memory>
        requires { All (IsWider column) rows.now }
        ensures { IfOk result (λ c. c ≡ column_of column rows.now) }
    {
        let mut cells = Vec::with_capacity(alloc, rows.len())?;
        for i in 0..rows.len() {
            cells.push(cell_at(rows, column, i).clone_in()?)?;
        }
        Ok(Shared { cells })
    }

    pub fn len(&self) -> usize
        ensures count { result ≡ length self.now }
        ensures small { result < 2 ^ 63 }
    {
        self.cells.len()
    }

    /// A cell, lent.
    pub fn cell(&self, index: usize) -> &Value
        requires { index < length self.now }
        ensures { slice_get self.now index ≡ Some result.now }
    {
        &self.cells[index]
    }

    /// The cells from a place on, up to another, lent.
    pub fn lend(&self, from: usize, to: usize) -> Vector<'_>
        requires { (from ≤ to) × (to ≤ length self.now) }
        ensures { cells_of result ≡ take (to - from) (drop from self.now) }
    {
        Vector::LentCells(&self.cells[from..to])
    }

    /// The same cells by their members, where they are bags of the same keys.
    pub fn bags(&self) -> Result<Option<Bags>, Memory>
        ensures { IfOk result (λ found. IfSome found (λ bags. bags ≡ self.now)) }
    {
        let bags = Bags::split(&self.cells)?;
        Ok(bags)
    }

    /// Copies of the cells of parts, one part after another.
    pub fn joined(alloc: Global, parts: &[Vector]) -> Result<Shared, Memory>
        ensures { IfOk result (λ c. c ≡ flat_map cells_of parts.now) }
    {
        let mut cells = Vec::new(alloc);
        for part in parts {
            push_copies(&mut cells, part)?;
        }
        Ok(Shared { cells })
    }
}

impl Cellwise for Shared {
    ghost cells = { λ c. c };

    fn count(&self) -> usize {
        self.len()
    }

    fn lent(&self, index: usize) -> &Value {
        self.cell(index)
    }
}

// Puts copies of the cells of a part last.
fn push_copies(cells: &mut Vec<Value>, part: &Vector) -> Result<(), Memory>
    ensures { OnOk result (cells.new.items ≡ cells.old.items ++ cells_of part.now) }
{
    for i in 0..part.len() {
        cells.push(part.cell(i)?)?;
    }
    Ok(())
}
