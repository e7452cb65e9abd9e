// The cells of one column.
ghost use Rattle.std.specs.Prelude.{◌≡◌, ◌<◌, ◌≤◌, ◌-◌, ◌^◌, IfOk, Some, drop, length, slice_get, take};
ghost use Rattle.kq_store_frame.specs.Series.{cells_in};
ghost use Rattle.kq_store_column_view.specs.Vectors.{cells_of};

use crate::kind::Kind;
use kq_store_column_view::Vector;
use kq_value::{Memory, Value};
use std::alloc::Global;

/// The cells of one column: numbers of one kind, none of them null, or any cells.
#[derive(Drop)]
pub enum Series {
    Numbers(Kind, Vec<i64>),
    Cells(Vec<Value>),
}

impl Series {
    /// A copy of a cell, which shares its text or its dynamic.
    pub(crate) fn cell(&self, index: usize) -> Result<Value, Memory>
        requires { index < length (cells_in self.now) }
        ensures { IfOk result (λ v. slice_get (cells_in self.now) index ≡ Some v) }
    {
        match self {
            Series::Numbers(kind, numbers) => Ok(kind.cell(numbers[index])),
            Series::Cells(cells) => cells[index].clone_in(),
        }
    }

    /// The cells from a place on, up to another, lent.
    pub(crate) fn lend(&self, from: usize, to: usize) -> Vector<'_>
        requires { (from ≤ to) × (to ≤ length (cells_in self.now)) }
        ensures { cells_of result ≡ take (to - from) (drop from (cells_in self.now)) }
    {
        match self {
            Series::Numbers(kind, numbers) => kind.lent(&numbers[from..to]),
            Series::Cells(cells) => Vector::LentCells(&cells[from..to]),
        }
    }

    /// Copies of the first cells.
    pub(crate) fn first(&self, alloc: Global, count: usize) -> Result<Series, Memory>
        requires { count ≤ length (cells_in self.now) }
        ensures { IfOk result (λ few. cells_in few ≡ take count (cells_in self.now)) }
    {
        match self {
            Series::Numbers(kind, numbers) => {
                Ok(Series::Numbers(*kind, copied(alloc, &numbers[..count])?))
            }
            Series::Cells(cells) => Ok(Series::Cells(Vec::from_clones(alloc, &cells[..count])?)),
        }
    }
}

fn copied(alloc: Global, numbers: &[i64]) -> Result<Vec<i64>, Memory>
    ensures { IfOk result (λ v. v.items ≡ numbers.now) }
{
    numbers.to_vec(alloc)
}
