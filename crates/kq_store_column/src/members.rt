// The members that bags have at one place.
ghost use Rattle.std.specs.Prelude.{◌≡◌, IfSome};
ghost use Rattle.kq_value.specs.Bags.{IsBag};
ghost use Rattle.kq_value.specs.Seen.{entries_of};
ghost use Rattle.kq_value.specs.declared.dynamic.Dyn.TheVariants as dyn;
ghost use Rattle.kq_value.specs.declared.value.Value.TheVariants.{Dynamic};

use kq_value::{Dyn, Member, Memory, Value};
use std::alloc::Global;

/// The members of a cell that is a bag.
pub(crate) fn members_of(cell: &Value) -> Option<&[Member]>
    ensures bag { IfSome result (λ members. cell.now ≡ Dynamic (dyn.Bag (entries_of members.now))) }
    ensures ordered { IfSome result (λ members. IsBag (entries_of members.now)) }
{
    match cell {
        Value::Dynamic(dynamic) => members_in(dynamic.as_dyn()),
        _ => None,
    }
}

fn members_in(dynamic: &Dyn) -> Option<&[Member]>
    ensures bag { IfSome result (λ members. dynamic.now ≡ dyn.Bag (entries_of members.now)) }
    ensures ordered { IfSome result (λ members. IsBag (entries_of members.now)) }
{
    match dynamic {
        Dyn::Bag(bag) => Some(bag.as_slice()),
        _ => None,
    }
}

// The member at a place of a cell.
fn member_of(cell: &Value, place: usize) -> Option<&Dyn> {
    let member = members_of(cell)?.get(place)?;
    Some(&member.value)
}

/// The members of the cells at a place. Nothing is claimed of what they are: whoever asks tests the answer.
pub(crate) fn members_at(alloc: Global, cells: &[Value], place: usize) -> Result<Vec<Dyn>, Memory> {
    let mut members = Vec::with_capacity(alloc, cells.len())?;
    for cell in cells {
        match member_of(cell, place) {
            Some(member) => members.push(member.clone_in()?)?,
            None => members.push(Dyn::Null)?,
        }
    }
    Ok(members)
}
