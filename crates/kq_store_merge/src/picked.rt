// The extents that a merge replaces.
ghost use Rattle.std.specs.Prelude.{◌≡◌, ◌<◌, ◌≤◌, IfOk, Some, length, option_map, slice_get, take};
ghost use Rattle.std.specs.Arc.{arc_value};
ghost use Rattle.kq_store_merge.specs.Merges.{picked_of};

use kq_store_extent::{Extent, TableExtents};
use kq_store_shared_lists::SharedQueue;
use kq_value::Memory;
use std::alloc::Global;
use std::marker::Model;
use std::sync::Arc;

// The most extents that one merge replaces.
const MOST: usize = 64;

/// Extents of a table that are to be merged, in the order of the table's list. They are shared with the table.
#[derive(Drop)]
pub struct Picked {
    extents: Vec<Arc<Extent, Global>>,
}

impl Model for Picked {
    ghost use Rattle.std.specs.Prelude.{List, map};
    ghost use Rattle.std.specs.Arc.{arc_value};
    ghost use Rattle.std.specs.Coded.{coded_list, codes};
    ghost use Rattle.kq_value.specs.contracts.record.Record as held;
    ghost use Rattle.kq_store_extent.specs.Seen.{ExtentView};

    ghost Value = { List ExtentView };

    ghost coded = { Prim.hlevel (codes, held.the_row.coded) };

    ghost view = { λ p. map arc_value p.extents.items };
}

impl Picked {
    ghost use Rattle.std.specs.Prelude.{map};

    pub fn as_slice(&self) -> &[Arc<Extent, Global>]
        ensures { map arc_value result.now ≡ self.now }
    {
        self.extents.as_slice()
    }

    /// The number of extents.
    pub fn len(&self) -> usize
        ensures { result ≡ length self.now }
    {
        self.extents.len()
    }
}

/// The extents of a table that a merge replaces: the first 64 of fewer than 4096 records, or all where there are fewer.
/// None exactly where there are fewer than two.
pub fn pick(alloc: Global, extents: &TableExtents) -> Result<Option<Picked>, Memory>
    ensures { IfOk result (λ picked. picked ≡ picked_of extents.now.small) }
{
    let small = extents.small();
    if small.len() < 2 {
        return Ok(None);
    }
    let count = small.len().min(MOST);
    Ok(Some(first_of(alloc, small, count)?))
}

fn first_of(alloc: Global, small: &SharedQueue<Extent>, count: usize) -> Result<Picked, Memory>
    requires { count ≤ length small.now }
    ensures { IfOk result (λ picked. picked ≡ take count small.now) }
{
    let mut extents = Vec::with_capacity(alloc, count)?;
    for at in 0..count {
        extents.push(Arc::try_clone(handle_at(small, at))?)?;
    }
    Ok(Picked { extents })
}

fn handle_at(small: &SharedQueue<Extent>, at: usize) -> &Arc<Extent, Global>
    requires { at < length small.now }
    ensures { slice_get small.now at ≡ Some (arc_value result.now) }
{
    let part = small.part_from(at);
    &part[0]
}
