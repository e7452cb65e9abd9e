// Columns of bags that have the same keys.
ghost use Rattle.std.specs.Prelude.{◌≡◌, ◌<◌, ◌≤◌, ◌-◌, ◌^◌, IfOk, IfSome, IsTrue, Some, length, slice_get, take, drop, unwrap_or};
ghost use Rattle.std.specs.List.{range_with_len};
ghost use Rattle.kq_value.specs.Seen.{entries_of};
ghost use Rattle.kq_value.specs.declared.dynamic.Dyn.TheVariants as dyn;
ghost use Rattle.kq_store_column.specs.Bags.{AreBagsOf, IsBagOf};
ghost use Rattle.kq_store_column_view.specs.Bags.{bags_in, entries_at, member_in};
ghost use Rattle.kq_store_column_view.specs.Vectors.{cells_of};

use crate::dictionary::FEWEST_ROWS;
use crate::members::{members_at, members_of};
use kq_store_column_view::{LentBags, Part, Vector};
use kq_value::{Dyn, Member, Memory, Value};
use std::alloc::Global;
use std::marker::Model;

// Bags by their members, key by key. A bag is made where it is asked for. Contracts see the cells.
#[derive(Drop)]
pub(crate) struct Bags {
    parts: Vec<Part>,
    count: usize,
}

impl Model for Bags {
    ghost use Rattle.std.specs.Prelude.{List};
    ghost use Rattle.kq_value.specs.declared.value.Value.{Value as Cell};
    ghost use Rattle.std.specs.Coded.{coded_list};
    ghost use Rattle.kq_value.specs.contracts.value.Value as cell;
    ghost use Rattle.kq_store_column_view.specs.Bags.{bags_in, AreBags};

    ghost Value = { List Cell };

    ghost coded = { coded_list cell.the_row.coded };

    ghost view = { λ b. bags_in b.parts.items b.count };

    ghost invariant = { λ b. AreBags b.parts.items b.count };
}

// The members of the first cell, where all cells are bags of its keys.
fn agreed(cells: &[Value]) -> Option<&[Member]> {
    let first = members_of(cells.get(0)?)?;
    for cell in cells {
        if !have_keys(members_of(cell)?, first) {
            return None;
        }
    }
    Some(first)
}

fn have_keys(members: &[Member], others: &[Member]) -> bool {
    if members.len() != others.len() {
        return false;
    }
    for i in 0..members.len() {
        if !members[i].key.same(&others[i].key) {
            return false;
        }
    }
    true
}

// The members of the cells at each place of the first.
fn parts_of(alloc: Global, cells: &[Value], first: &[Member]) -> Result<Vec<Part>, Memory> {
    let mut parts = Vec::with_capacity(alloc, first.len())?;
    for i in 0..first.len() {
        parts.push(Part {
            key: first[i].key.clone_in()?,
            members: members_at(alloc, cells, i)?,
        })?;
    }
    Ok(parts)
}

// Whether the part has this member at a place.
fn has_member(part: &Part, index: usize, member: &Member) -> bool
    ensures key { IsTrue result → member.now.key ≡ part.now.key }
    ensures value { IsTrue result → member.now.value ≡ member_in part.now index }
{
    if part.key.same(&member.key) {
        stands_at(&part.members, index, &member.value)
    } else {
        false
    }
}

fn stands_at(members: &[Dyn], index: usize, member: &Dyn) -> bool
    ensures { IsTrue result → member.now ≡ unwrap_or (slice_get members.now index) dyn.Null }
{
    if index < members.len() {
        members[index].cmp(member).is_eq()
    } else {
        false
    }
}

// Whether the members at a place are these.
fn hold(parts: &[Part], index: usize, members: &[Member]) -> bool
    ensures { IsTrue result → entries_of members.now ≡ entries_at parts.now index }
{
    if parts.len() != members.len() {
        return false;
    }
    for i in 0..parts.len() {
        let has = has_member(&parts[i], index, &members[i]);
        if !has {
            return false;
        }
    }
    true
}

// Whether the bag of the members at a place is this cell.
fn is_bag_of(parts: &[Part], index: usize, cell: &Value) -> bool
    ensures { IsTrue result → IsBagOf parts.now index cell.now }
{
    match members_of(cell) {
        Some(members) => hold(parts, index, members),
        None => false,
    }
}

// Whether the bags of the members are these cells.
fn are_bags_of(parts: &[Part], cells: &[Value]) -> bool
    ensures { IsTrue result → AreBagsOf parts.now cells.now }
{
    for i in 0..cells.len() {
        let same = is_bag_of(parts, i, &cells[i]);
        if !same {
            return false;
        }
    }
    true
}

// The places from one on, up to another.
fn places_between(alloc: Global, from: usize, to: usize) -> Result<Vec<usize>, Memory>
    ensures { IfOk result (λ v. v.items ≡ range_with_len from (to - from)) }
{
    (from..to).collect(alloc)
}

impl Bags {
    /// The cells by their members; None where they are few, or no bags of the same keys.
    pub fn split(cells: &Vec<Value>) -> Result<Option<Bags>, Memory>
        ensures { IfOk result (λ found. IfSome found (λ bags. bags ≡ cells.now.items)) }
    {
        if cells.len() < FEWEST_ROWS {
            return Ok(None);
        }
        match agreed(cells) {
            Some(first) => {
                let parts = parts_of(*cells.allocator(), cells, first)?;
                Ok(Bags::from_parts(parts, cells))
            }
            None => Ok(None),
        }
    }

    // The bags of the members, where they are these cells.
    fn from_parts(parts: Vec<Part>, cells: &Vec<Value>) -> Option<Bags>
        ensures { IfSome result (λ bags. bags ≡ cells.now.items) }
    {
        let same = are_bags_of(&parts, cells);
        if same {
            let count = cells.len();
            let bags = Bags { parts, count };
            Some(bags)
        } else {
            None
        }
    }

    pub fn len(&self) -> usize
        ensures count { result ≡ length self.now }
        ensures small { result < 2 ^ 63 }
    {
        self.count
    }

    /// The cell, a bag of its own whose texts are shared.
    pub fn cell(&self, index: usize) -> Result<Value, Memory>
        requires { index < length self.now }
        ensures { IfOk result (λ v. slice_get self.now index ≡ Some v) }
    {
        let bags = self.lent();
        let cell = bags.cell(*self.parts.allocator(), index)?;
        Ok(cell)
    }

    /// The cells from a place on, up to another, lent by their members.
    pub fn lend(&self, from: usize, to: usize) -> Result<Vector<'_>, Memory>
        requires { (from ≤ to) × (to ≤ length self.now) }
        ensures { IfOk result (λ v. cells_of v ≡ take (to - from) (drop from self.now)) }
    {
        let bags = self.lent();
        let places = places_between(*self.parts.allocator(), from, to)?;
        Ok(Vector::Bags(bags, places))
    }

    fn lent(&self) -> LentBags<'_>
        ensures { bags_in result.parts.now result.count ≡ self.now }
    {
        LentBags {
            parts: &self.parts,
            count: self.count,
        }
    }
}
