// Bags made of their members.
ghost use Rattle.std.specs.Prelude.{◌≡◌, map, IfOk, slice_get, unwrap_or};
ghost use Rattle.kq_value.specs.Bags.{IsBag};
ghost use Rattle.kq_value.specs.declared.dynamic.Dyn.TheVariants as dyn;
ghost use Rattle.kq_store_column_view.specs.Bags.{bag_at, bags_in, entries_at, member_in};
ghost use Rattle.kq_store_column_view.specs.Vectors.{cell_of};

use crate::bags::{LentBags, Part};
use kq_value::{Dyn, DynBag, Member, Memory, Ty, Value};
use std::alloc::Global;

impl Part {
    fn member(&self, index: usize) -> Result<Member, Memory>
        ensures key { IfOk result (λ m. m.key ≡ self.now.key) }
        ensures value { IfOk result (λ m. m.value ≡ member_in self.now index) }
    {
        Ok(Member {
            key: self.key.clone_in()?,
            value: dynamic_at(&self.members, index)?,
        })
    }
}

fn dynamic_at(dynamics: &[Dyn], index: usize) -> Result<Dyn, Memory>
    ensures { IfOk result (λ d. d ≡ unwrap_or (slice_get dynamics.now index) dyn.Null) }
{
    if index < dynamics.len() {
        dynamics[index].clone_in()
    } else {
        Ok(Dyn::Null)
    }
}

// The bag of the members at a place.
fn bag_of(alloc: Global, parts: &[Part], index: usize) -> Result<DynBag, Memory>
    requires { IsBag (entries_at parts.now index) }
    ensures { IfOk result (λ bag. bag ≡ entries_at parts.now index) }
{
    let mut members = Vec::with_capacity(alloc, parts.len())?;
    for part in parts {
        members.push(part.member(index)?)?;
    }
    Ok(DynBag::from_vec(members))
}

fn bag_cell(alloc: Global, parts: &[Part], index: usize) -> Result<Value, Memory>
    requires { IsBag (entries_at parts.now index) }
    ensures { IfOk result (λ v. v ≡ bag_at parts.now index) }
{
    let bag = bag_of(alloc, parts, index)?;
    let cell = Value::dynamic(alloc, Dyn::Bag(bag))?;
    Ok(cell)
}

impl LentBags<'_> {
    /// The bag at a place, made of its members, with which it shares its texts; and a null past the end.
    pub fn cell(&self, alloc: Global, index: usize) -> Result<Value, Memory>
        ensures { IfOk result (λ v. v ≡ cell_of (bags_in self.now.parts.now self.now.count) index) }
    {
        if index < self.count {
            let cell = bag_cell(alloc, self.parts, index)?;
            Ok(cell)
        } else {
            Ok(Value::Null(Ty::Long))
        }
    }
}

pub(crate) fn placed_bag(
    alloc: Global,
    bags: &LentBags,
    places: &[usize],
    i: usize,
) -> Result<Value, Memory>
    ensures { IfOk result (λ v. v ≡ cell_of (map (cell_of (bags_in bags.now.parts.now bags.now.count)) places.now) i) }
{
    if i < places.len() {
        bags.cell(alloc, places[i])
    } else {
        Ok(Value::Null(Ty::Long))
    }
}
