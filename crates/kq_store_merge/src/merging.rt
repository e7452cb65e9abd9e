// The extent that others become.
ghost use Rattle.std.specs.Prelude.{◌≡◌, IfOk, map};
ghost use Rattle.std.specs.List.{All};
ghost use Rattle.kq_value.specs.Typed.{HasTypes};
ghost use Rattle.kq_store_extent.specs.Seen.{records_in, row_of};
ghost use Rattle.kq_store_extent.specs.Wide.{wide};
ghost use Rattle.kq_store_merge.specs.Merges.{merge_of};

use crate::picked::Picked;
use crate::tags::union_of;
use kq_store_extent::{Extent, united};
use kq_value::{Memory, Schema};
use std::alloc::Global;

/// The extent that these become under an id: it has all their records, one extent after another, widened to the schema, and the union
/// of their tags in the order of first appearance.
pub fn merged(alloc: Global, picked: &Picked, schema: &Schema, id: u64) -> Result<Extent, Memory>
    requires { All (HasTypes schema.now) (map row_of (records_in (map (wide schema.now) picked.now))) }
    ensures { IfOk result (λ e. e ≡ merge_of id (map (wide schema.now) picked.now)) }
{
    let extents = picked.as_slice();
    let tags = union_of(alloc, extents)?;
    united(alloc, schema, extents, id, tags)
}
