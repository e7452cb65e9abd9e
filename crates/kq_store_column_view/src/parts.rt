// Parts of dynamics, where they lie.
ghost use Rattle.std.specs.Prelude.{◌≡◌, ℕ, map, IfOk, IfSome, option_map, slice_get, unwrap_or};
ghost use Rattle.kq_value.specs.Bags.{value_at};
ghost use Rattle.kq_value.specs.Seen.{dyn_of};
ghost use Rattle.kq_value.specs.Tree.{null};
ghost use Rattle.kq_value.specs.declared.dynamic.Dyn.TheVariants as dyn;
ghost use Rattle.kq_value.specs.declared.value.Value.TheVariants.{Dynamic};
ghost use Rattle.kq_store_column_view.specs.Bags.{bags_in, entries_at};
ghost use Rattle.kq_store_column_view.specs.Vectors.{cell_of, cells_of, dynamic_of, member_at};

use crate::bags::{LentBags, Part};
use crate::vector::Vector;
use kq_value::{Dyn, Memory, Value};
use std::alloc::Global;

/// The values at a key of the dynamics at these places, where none is past the end.
pub fn parts_at<'a>(
    alloc: Global,
    cells: &'a [Value],
    key: &str,
    places: &[usize],
) -> Result<Option<Vector<'a>>, Memory>
    ensures { IfOk result (λ o. IfSome o (λ v. cells_of v ≡ map (λ i. member_at key.now (cell_of cells.now i)) places.now)) }
{
    let mut parts = Vec::with_capacity(alloc, places.len())?;
    for place in places {
        if *place >= cells.len() {
            return Ok(None);
        }
        parts.push(part_of(&cells[*place], key))?;
    }
    Ok(Some(Vector::Parts(parts)))
}

// The value at a key, where the cell is a bag that has it.
fn part_of<'a>(cell: &'a Value, key: &str) -> Option<&'a Dyn>
    ensures { dynamic_of (option_map (λ d. d.now) result) ≡ member_at key.now cell.now }
{
    match cell {
        Value::Dynamic(dynamic) => part_in(dynamic.as_dyn(), key),
        _ => None,
    }
}

fn part_in<'a>(dynamic: &'a Dyn, key: &str) -> Option<&'a Dyn>
    ensures { dynamic_of (option_map (λ d. d.now) result) ≡ member_at key.now (Dynamic dynamic.now) }
{
    match dynamic {
        Dyn::Bag(members) => members.get(key),
        _ => None,
    }
}

/// The values at a key of the bags at these places, where none is past the end: the members where they lie, and no bag is made.
pub fn members_of_bags<'a>(
    alloc: Global,
    bags: LentBags<'a>,
    key: &str,
    places: &[usize],
) -> Result<Option<Vector<'a>>, Memory>
    ensures { IfOk result (λ o. IfSome o (λ v. cells_of v ≡ map (λ i. member_at key.now (cell_of (bags_in bags.entry.parts.now bags.entry.count) i)) places.now)) }
{
    let members = members_with(bags.parts, key);
    let mut parts = Vec::with_capacity(alloc, places.len())?;
    for place in places {
        if *place >= bags.count {
            return Ok(None);
        }
        parts.push(members.get(*place))?;
    }
    Ok(Some(Vector::Parts(parts)))
}

// The members at a key, and none where no part has it.
fn members_with<'a>(parts: &'a [Part], key: &str) -> &'a [Dyn]
    ensures { (i : ℕ) → unwrap_or (slice_get result.now i) dyn.Null ≡ dyn_of (unwrap_or (value_at key.now (entries_at parts.now i)) null) }
{
    for part in parts {
        if part.key.as_str() == key {
            return &part.members;
        }
    }
    &[]
}
