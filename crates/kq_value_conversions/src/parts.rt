// The parts of dynamics.
ghost use Rattle.std.specs.Prelude.{◌≡◌, IfOk, length, option_map, pos};
ghost use Rattle.kq_value.specs.Tree.{array, items_of};
ghost use Rattle.kq_value.specs.Seen.{tree_of};
ghost use Rattle.kq_value_formats.specs.Members.{in_order, strings, trees_from_list};
ghost use Rattle.kq_value_formats.specs.Members as members;
ghost use Rattle.kq_value.specs.Tree as tree;
ghost use Rattle.kq_value.specs.declared.value.Value.TheVariants.{Long};
ghost use Rattle.kq_value_conversions.specs.Parts as parts;

use kq_value::{Dyn, DynBag, DynList, Memory, Ty, Value};
use kq_value_json::{at_index, at_key};
use std::alloc::Global;
use std::cmp::Ordering;

/// What stands at a key of a bag or an index of an array, as a dynamic of its own. An index counts from 0, or from the end where it is negative, -1
/// being the last.
pub fn member_of(alloc: Global, value: &Value, member: &Value) -> Result<Value, Memory>
    ensures { IfOk result (λ v. v ≡ parts.member_of value.now member.now) }
{
    match (value, member) {
        (Value::Dynamic(dynamic), Value::Text(key)) => {
            let found = at_key(dynamic.as_dyn(), key.as_str());
            copy_or_null(alloc, found)
        }
        (Value::Dynamic(dynamic), Value::Long(index)) => {
            let found = at_index(dynamic.as_dyn(), *index);
            copy_or_null(alloc, found)
        }
        _ => Value::dynamic(alloc, Dyn::Null),
    }
}

fn copy_or_null(alloc: Global, found: Option<&Dyn>) -> Result<Value, Memory>
    ensures { IfOk result (λ v. v ≡ parts.or_null (option_map (λ d. tree_of d.now) found.entry)) }
{
    match found {
        Some(dynamic) => Value::dynamic(alloc, dynamic.clone_in()?),
        None => Value::dynamic(alloc, Dyn::Null),
    }
}

/// `array_length`.
pub fn array_length_of(value: &Value) -> Value
    ensures { result ≡ parts.array_length_of value.now }
{
    let Value::Dynamic(dynamic) = value else {
        return Value::Null(Ty::Long);
    };
    match dynamic.as_dyn() {
        Dyn::List(items) => length_of(items.as_slice()),
        _ => Value::Null(Ty::Long),
    }
}

fn length_of(items: &[Dyn]) -> Value
    ensures { result ≡ Long (pos (length items.now)) }
{
    Value::Long(items.len() as i64)
}

/// `array_sort_asc`.
pub fn sorted_of(alloc: Global, value: &Value) -> Result<Value, Memory>
    ensures { IfOk result (λ v. v ≡ parts.sorted_of value.now) }
{
    let Value::Dynamic(dynamic) = value else {
        return Value::dynamic(alloc, Dyn::Null);
    };
    match dynamic.as_dyn() {
        Dyn::List(items) => Value::dynamic(alloc, Dyn::List(sorted(items)?)),
        _ => Value::dynamic(alloc, Dyn::Null),
    }
}

fn sorted(list: &DynList) -> Result<DynList, Memory>
    ensures { IfOk result (λ d. d ≡ trees_from_list (in_order (items_of list.now))) }
{
    let mut items = list.clone_in()?.into_vec();
    items.sort_by(|a, b| compare(a, b))?;
    Ok(DynList::from_vec(items))
}

// Numbers, then strings, then other items but nulls, then nulls.
fn compare(a: &Dyn, b: &Dyn) -> Ordering
    ensures { result ≡ members.sorting_cmp (tree_of a.now) (tree_of b.now) }
{
    rank(a).cmp(&rank(b)).then(a.cmp(b))
}

fn rank(item: &Dyn) -> u8
    ensures { result ≡ members.sorting_rank (tree_of item.now) }
{
    match item {
        Dyn::Long(_) => 0,
        Dyn::Text(_) => 1,
        Dyn::Bool(_) | Dyn::List(_) | Dyn::Bag(_) => 2,
        Dyn::Null => 3,
    }
}

/// `bag_keys`.
pub fn keys_of(alloc: Global, value: &Value) -> Result<Value, Memory>
    ensures { IfOk result (λ v. v ≡ parts.keys_of value.now) }
{
    let Value::Dynamic(dynamic) = value else {
        return Value::dynamic(alloc, Dyn::Null);
    };
    match dynamic.as_dyn() {
        Dyn::Bag(members) => Value::dynamic(alloc, Dyn::List(keys(alloc, members)?)),
        _ => Value::dynamic(alloc, Dyn::Null),
    }
}

fn keys(alloc: Global, bag: &DynBag) -> Result<DynList, Memory>
    ensures { IfOk result (λ d. d ≡ strings (tree.keys_of bag.now)) }
{
    let mut keys = DynList::new(alloc);
    for member in bag.as_slice() {
        keys.push(Dyn::Text(member.key.clone_in()?))?;
    }
    Ok(keys)
}
