// The parts of dynamics.
ghost use Rattle.std.specs.Prelude.{◌≡◌, ◌<◌, [], ◌∷◌, IfOk, map};
ghost use Rattle.kq_value.specs.Seen.{tree_of, trees_of, entries_of};
ghost use Rattle.kq_value.specs.Tree.{bag, entries_depth, entry, items_of, no_entries, tree_depth};
ghost use Rattle.kq_run_reshape.specs.MvExpand.{as_value, or_null as the_or_null, parts as the_parts, parts_of as the_parts_of, single_entries};

use kq_value::{Dyn, DynBag, Member, Memory, Value};
use std::alloc::Global;

// The items of an array, the entries of a bag, null where there are none, or the value itself.
pub(crate) fn parts_of(alloc: Global, value: &Value) -> Result<Vec<Value>, Memory>
    ensures { IfOk result (λ ps. ps.items ≡ the_parts_of value.now) }
{
    match value {
        Value::Dynamic(dynamic) => parts(alloc, dynamic.as_dyn()),
        _ => only(alloc, value.clone_in()?),
    }
}

fn parts(alloc: Global, dynamic: &Dyn) -> Result<Vec<Value>, Memory>
    ensures { IfOk result (λ ps. ps.items ≡ the_parts (tree_of dynamic.now)) }
{
    match dynamic {
        Dyn::List(items) => Ok(or_null(alloc, copies(alloc, items.as_slice())?)?),
        Dyn::Bag(members) => Ok(or_null(alloc, single_bags(alloc, members.as_slice())?)?),
        _ => only(alloc, Value::dynamic(alloc, dynamic.clone_in()?)?),
    }
}

fn or_null(alloc: Global, values: Vec<Value>) -> Result<Vec<Value>, Memory>
    ensures { IfOk result (λ ps. ps.items ≡ the_or_null values.items) }
{
    if values.is_empty() {
        return only(alloc, Value::dynamic(alloc, Dyn::Null)?);
    }
    Ok(values)
}

fn only(alloc: Global, value: Value) -> Result<Vec<Value>, Memory>
    ensures { IfOk result (λ ps. ps.items ≡ value ∷ []) }
{
    let mut values = Vec::new(alloc);
    values.push(value)?;
    Ok(values)
}

fn copies(alloc: Global, items: &[Dyn]) -> Result<Vec<Value>, Memory>
    ensures { IfOk result (λ ps. ps.items ≡ map as_value (items_of (trees_of items.now))) }
{
    let mut values = Vec::new(alloc);
    for item in items {
        values.push(Value::dynamic(alloc, item.clone_in()?)?)?;
    }
    Ok(values)
}

fn single_bags(alloc: Global, members: &[Member]) -> Result<Vec<Value>, Memory>
    requires { entries_depth (entries_of members.now) < 127 }
    ensures { IfOk result (λ ps. ps.items ≡ map as_value (single_entries (entries_of members.now))) }
{
    let mut values = Vec::new(alloc);
    for member in members {
        values.push(single_bag(alloc, member)?)?;
    }
    Ok(values)
}

fn single_bag(alloc: Global, member: &Member) -> Result<Value, Memory>
    requires { tree_depth (tree_of member.now.value) < 127 }
    ensures { IfOk result (λ v. v ≡ as_value (bag (entry member.now.key (tree_of member.now.value) no_entries))) }
{
    let mut bag = DynBag::new(alloc);
    bag.push(Member {
        key: member.key.clone_in()?,
        value: member.value.clone_in()?,
    })?;
    Value::dynamic(alloc, Dyn::Bag(bag))
}
