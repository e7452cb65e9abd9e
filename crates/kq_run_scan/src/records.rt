// The rows of the records of an extent, where they stand.
ghost use Rattle.std.specs.Prelude.{◌≡◌, IfOk};
ghost use Rattle.kq_store_rows.specs.Chunks.{row_at};
ghost use Rattle.kq_store_column_view.specs.Vectors.{cell_of};
ghost use Rattle.kq_run_scan.specs.Lent.{extent_of, rows_of};

use crate::framed::pick_cells;
use kq_run_row_operators::{Relation, Vector};
use kq_store_extent::Extent;
use kq_value::{Field, Memory, Ty, Value};
use std::alloc::Global;

/// The records of an extent, read under the columns of its table.
#[derive(Clone, Copy)]
pub struct Records<'a> {
    pub(crate) extent: &'a Extent,
    pub(crate) fields: &'a [Field],
}

impl Relation for Records<'_> {
    ghost use Rattle.kq_run_scan.specs.Lent.{extent_of, rows_of};

    ghost rows = { λ r. rows_of (extent_of r) };

    fn len(&self) -> usize {
        self.extent.len()
    }

    fn cell(&self, i: usize, j: usize) -> Result<Option<Value>, Memory> {
        self.extent.cell_under(self.fields, i, j)
    }

    fn lend(
        &self,
        _alloc: Global,
        j: usize,
        from: usize,
        to: usize,
    ) -> Result<Option<Vector<'_>>, Memory> {
        Ok(Some(self.extent.lend(self.fields, j, from, to)?))
    }

    fn pick(
        &self,
        alloc: Global,
        j: usize,
        places: &[usize],
    ) -> Result<Option<Vector<'_>>, Memory> {
        let whole = self.extent.lend(self.fields, j, 0, self.extent.len())?;
        pick_cells(alloc, &whole, places)
    }
}

impl Records<'_> {
    // A copy of the cell of a row in a column, and a null where there is none.
    pub(crate) fn cell_or_null(&self, place: usize, j: usize) -> Result<Value, Memory>
        ensures { IfOk result (λ v. v ≡ cell_of (row_at (rows_of (extent_of self.now)) place) j) }
    {
        if place >= self.len() {
            return Ok(Value::Null(Ty::Long));
        }
        match self.cell(place, j)? {
            Some(cell) => Ok(cell),
            None => Ok(Value::Null(Ty::Long)),
        }
    }
}
