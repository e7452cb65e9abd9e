// Printing.
ghost use Rattle.std.specs.Prelude.{◌≡◌, ◌≤◌, ◌<◌, ◌++◌, IfOk, OnOk, OnErr, Some, string_bytes};
ghost use Rattle.serde_json.specs.Data.{depth, items_depth, members_depth};
ghost use Rattle.serde_json.specs.View.{view, items_view, members_view};
ghost use Rattle.kq_value.specs.Seen.{tree_of};
ghost use Rattle.kq_value_formats.specs.Json.{tree_from, trees_from, entries_from, data_from, items_from, members_from, json_of, dynamic_text};

use kq_value::{Bytes, Dyn, DynBag, DynList, Memory};
use serde_json::{Map, Number, Value};
use std::alloc::Global;

/// Appends a dynamic as compact JSON, a bag's keys in byte order.
pub fn put_dyn(alloc: Global, value: &Dyn, out: &mut Bytes) -> Result<(), Memory>
    ensures ok { OnOk result (out.new ≡ out.old ++ dynamic_text (tree_of value.now)) }
    ensures err { OnErr result (out.new ≡ out.old) }
    ensures reads_back { OnOk result (json_of (dynamic_text (tree_of value.now)) ≡ Some (tree_of value.now)) }
{
    let json = value_from(alloc, value)?;
    let text = json.to_vec(alloc)?;
    out.extend(text.as_slice())
}

/// A dynamic as compact JSON, a bag's keys in byte order.
pub fn dyn_text(alloc: Global, value: &Dyn) -> Result<String, Memory>
    ensures { IfOk result (λ s. string_bytes s ≡ dynamic_text (tree_of value.now)) }
{
    let json = value_from(alloc, value)?;
    json.to_string(alloc)
}

#[cycle(write)]
fn value_from(alloc: Global, value: &Dyn) -> Result<Value, Memory>
    ensures json { IfOk result (λ v. view v ≡ data_from (tree_of value.now)) }
    ensures back { IfOk result (λ v. tree_from (data_from (tree_of value.now)) ≡ Some (tree_of value.now)) }
    ensures shallow { IfOk result (λ v. depth (view v) ≤ 127) }
{
    match value {
        Dyn::Null => Ok(Value::Null),
        Dyn::Bool(b) => Ok(Value::Bool(*b)),
        Dyn::Long(n) => Ok(Value::Number(Number::from(*n))),
        Dyn::Text(text) => Ok(Value::String(String::from_str(alloc, text.as_str())?)),
        Dyn::List(items) => Ok(Value::Array(array_from(alloc, items)?)),
        Dyn::Bag(members) => Ok(Value::Object(object_from(alloc, members)?)),
    }
}

#[cycle(write)]
fn array_from(alloc: Global, list: &DynList) -> Result<Vec<Value>, Memory>
    ensures json { IfOk result (λ v. items_view v.items ≡ items_from list.now) }
    ensures back { IfOk result (λ v. trees_from (items_from list.now) ≡ Some list.now) }
    ensures shallow { IfOk result (λ v. items_depth (items_view v.items) < 127) }
{
    let mut array = Vec::with_capacity(alloc, list.len())?;
    for item in list.as_slice() {
        array.push(value_from(alloc, item)?)?;
    }
    Ok(array)
}

#[cycle(write)]
fn object_from(alloc: Global, bag: &DynBag) -> Result<Map<String, Value>, Memory>
    ensures json { IfOk result (λ m. members_view m.entries ≡ members_from bag.now) }
    ensures back { IfOk result (λ m. entries_from (members_from bag.now) ≡ Some bag.now) }
    ensures shallow { IfOk result (λ m. members_depth (members_view m.entries) < 127) }
{
    let mut object = Map::new(alloc);
    for member in bag.as_slice() {
        let key = String::from_str(alloc, member.key.as_str())?;
        drop(object.insert(key, value_from(alloc, &member.value)?)?);
    }
    Ok(object)
}
