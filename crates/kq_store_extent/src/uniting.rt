// One extent of the records of several.
ghost use Rattle.std.specs.Prelude.{◌≡◌, ◌<◌, ◌≤◌, ◌^◌, IfErr, IfOk, length, map};
ghost use Rattle.std.specs.List.{All, range_with_len};
ghost use Rattle.std.specs.Arc.{arc_value};
ghost use Rattle.kq_value.specs.Typed.{HasTypes};
ghost use Rattle.kq_store_column.specs.Cells.{column_of};
ghost use Rattle.kq_store_extent.specs.Seen.{id_of, records_in, row_of};
ghost use Rattle.kq_store_extent.specs.Wide.{wide};

use crate::columns::Columns;
use crate::extent::Extent;
use crate::runs::Runs;
use kq_store_column::Column;
use kq_value::{Field, Memory, Schema, Tags};
use std::alloc::{AllocError, Global};
use std::sync::Arc;

// The most records of an extent.
const MOST: usize = 0x7fff_ffff_ffff_ffff;

/// An extent with the records of these, widened to the schema, one extent after another, under an id and tags of its own. Its columns are those of
/// the
/// extents, joined one by one: no row is made.
pub fn united(
    alloc: Global,
    schema: &Schema,
    extents: &[Arc<Extent, Global>],
    id: u64,
    tags: Tags,
) -> Result<Extent, Memory>
    requires { All (HasTypes schema.now) (map row_of (records_in (map (wide schema.now) (map arc_value extents.now)))) }
    ensures { IfOk result (λ e. e ≡ record { id = id; records = records_in (map (wide schema.now) (map arc_value extents.now)); tags = tags }) }
{
    let columns = joined(alloc, schema.as_slice(), extents)?;
    let runs = runs_of(alloc, extents)?;
    Ok(Extent::from_parts(id, runs, columns, tags))
}

// The rows of these extents, widened to the columns.
fn joined(
    alloc: Global,
    fields: &[Field],
    extents: &[Arc<Extent, Global>],
) -> Result<Columns, Memory>
    requires { All (HasTypes fields.now) (map row_of (records_in (map (wide fields.now) (map arc_value extents.now)))) }
    ensures { IfOk result (λ c. c ≡ map row_of (records_in (map (wide fields.now) (map arc_value extents.now)))) }
{
    let count = count_of(extents)?;
    let columns = joined_columns(alloc, fields, extents)?;
    Ok(Columns::from_parts(columns, count))
}

// How many records they have. Contracts bound the rows of an extent by 2^63; more count as a want of memory.
fn count_of(extents: &[Arc<Extent, Global>]) -> Result<usize, Memory>
    ensures count { IfOk result (λ n. n ≡ length (records_in (map arc_value extents.now))) }
    ensures small { IfOk result (λ n. n < 2 ^ 63) }
    ensures err { IfErr result (λ e. 2 ^ 63 ≤ length (records_in (map arc_value extents.now))) }
{
    let mut count: usize = 0;
    for extent in extents {
        let len = extent.len();
        if len > MOST - count {
            return Err(AllocError);
        }
        count += len;
    }
    Ok(count)
}

// Their columns, each joined from those of the extents.
fn joined_columns(
    alloc: Global,
    fields: &[Field],
    extents: &[Arc<Extent, Global>],
) -> Result<Vec<Column>, Memory>
    requires { All (HasTypes fields.now) (map row_of (records_in (map (wide fields.now) (map arc_value extents.now)))) }
    ensures { IfOk result (λ cs. cs.items ≡ map (λ j. column_of j (map row_of (records_in (map (wide fields.now) (map arc_value extents.now))))) (range_with_len 0 (length fields.now))) }
{
    let mut columns = Vec::with_capacity(alloc, fields.len())?;
    for j in 0..fields.len() {
        columns.push(joined_column(alloc, fields, j, extents)?)?;
    }
    Ok(columns)
}

fn joined_column(
    alloc: Global,
    fields: &[Field],
    j: usize,
    extents: &[Arc<Extent, Global>],
) -> Result<Column, Memory>
    requires column { j < length fields.now }
    requires typed { All (HasTypes fields.now) (map row_of (records_in (map (wide fields.now) (map arc_value extents.now)))) }
    ensures { IfOk result (λ c. c ≡ column_of j (map row_of (records_in (map (wide fields.now) (map arc_value extents.now))))) }
{
    let mut parts = Vec::with_capacity(alloc, extents.len())?;
    for extent in extents {
        parts.push(extent.lend(fields, j, 0, extent.len())?)?;
    }
    Column::joined(alloc, fields[j].ty, &parts)
}

// The ids of the records of these extents.
fn runs_of(alloc: Global, extents: &[Arc<Extent, Global>]) -> Result<Runs, Memory>
    ensures { IfOk result (λ runs. runs ≡ map id_of (records_in (map arc_value extents.now))) }
{
    let mut runs = Runs::new(alloc);
    for extent in extents {
        extent.add_ids(&mut runs)?;
    }
    Ok(runs)
}
