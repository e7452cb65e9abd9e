// Walks over extents in a row.
ghost use Rattle.std.specs.Prelude.{◌≡◌, ◌<◌, ◌++◌, ◌^◌, OnOk, length, map};
ghost use Rattle.std.specs.Arc.{arc_value};
ghost use Rattle.kq_store_rows.specs.Chunks.{same_width};
ghost use Rattle.kq_store_extent.specs.Seen.{records_in, row_of};
ghost use Rattle.kq_store_extent.specs.Wide.{wide};

use crate::extent::Extent;
use kq_store_rows::Rows;
use kq_value::{Field, Memory};
use std::alloc::Global;
use std::sync::Arc;

// The number of records of these extents.
pub(crate) fn count_records(extents: &[Arc<Extent, Global>]) -> u64
    requires { length (records_in (map arc_value extents.now)) < 2 ^ 63 }
    ensures { result ≡ length (records_in (map arc_value extents.now)) }
{
    let mut count = 0;
    for extent in extents {
        count += extent.len() as u64;
    }
    count
}

// Adds the rows of these extents, widened to the columns, behind others, or some of them where memory is refused.
pub(crate) fn add_rows(
    extents: &[Arc<Extent, Global>],
    fields: &[Field],
    rows: &mut Rows,
) -> Result<(), Memory>
    requires { same_width (rows.old ++ map row_of (records_in (map (wide fields.now) (map arc_value extents.now)))) }
    ensures { OnOk result (rows.new ≡ rows.old ++ map row_of (records_in (map (wide fields.now) (map arc_value extents.now)))) }
{
    for extent in extents {
        extent.add_rows(fields, rows)?;
    }
    Ok(())
}
