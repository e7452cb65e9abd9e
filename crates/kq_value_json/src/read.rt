// Reading.
ghost use Rattle.std.specs.Prelude.{◌≡◌, ◌≤◌, ◌<◌, IfOk, option_map};
ghost use Rattle.serde_json.specs.Data.{depth, items_depth, members_depth};
ghost use Rattle.serde_json.specs.View.{view, items_view, members_view};
ghost use Rattle.kq_value.specs.Seen.{tree_of};
ghost use Rattle.kq_value_formats.specs.Json.{tree_from, trees_from, entries_from, json_of};

use kq_value::{Dyn, DynBag, DynList, Member, Memory, Text};
use serde_json::{Map, Value};
use std::alloc::{AllocError, Global};

/// The dynamic that a text is as JSON, or none: of text that is no JSON, nests deeper than 127 levels, or has a number that isn't whole and of 64
/// signed bits.
pub fn read_dyn(alloc: Global, text: &str) -> Result<Option<Dyn>, Memory>
    ensures { IfOk result (λ o. option_map tree_of o ≡ json_of text.now) }
{
    match Value::from_str(alloc, text) {
        Ok(value) => dyn_from(alloc, &value),
        Err(error) => if error.is_memory() {
            Err(AllocError)
        } else {
            Ok(None)
        },
    }
}

#[cycle(read)]
fn dyn_from(alloc: Global, value: &Value) -> Result<Option<Dyn>, Memory>
    requires { depth (view value.now) ≤ 127 }
    ensures { IfOk result (λ o. option_map tree_of o ≡ tree_from (view value.now)) }
{
    match value {
        Value::Null => Ok(Some(Dyn::Null)),
        Value::Bool(b) => Ok(Some(Dyn::Bool(*b))),
        Value::Number(number) => match number.as_i64() {
            Some(n) => Ok(Some(Dyn::Long(n))),
            None => Ok(None),
        },
        Value::String(text) => Ok(Some(Dyn::Text(Text::from_str(alloc, text.as_str())?))),
        Value::Array(items) => match list_from(alloc, items)? {
            Some(list) => Ok(Some(Dyn::List(list))),
            None => Ok(None),
        },
        Value::Object(members) => match bag_from(alloc, members)? {
            Some(bag) => Ok(Some(Dyn::Bag(bag))),
            None => Ok(None),
        },
    }
}

#[cycle(read)]
fn list_from(alloc: Global, items: &Vec<Value>) -> Result<Option<DynList>, Memory>
    requires { items_depth (items_view items.now.items) < 127 }
    ensures { IfOk result (λ o. o ≡ trees_from (items_view items.now.items)) }
{
    let mut list = Vec::with_capacity(alloc, items.len())?;
    for item in items {
        match dyn_from(alloc, item)? {
            Some(d) => list.push(d)?,
            None => return Ok(None),
        }
    }
    Ok(Some(DynList::from_vec(list)))
}

#[cycle(read)]
fn bag_from(alloc: Global, members: &Map<String, Value>) -> Result<Option<DynBag>, Memory>
    requires { members_depth (members_view members.now.entries) < 127 }
    ensures { IfOk result (λ o. o ≡ entries_from (members_view members.now.entries)) }
{
    let mut bag = Vec::with_capacity(alloc, members.len())?;
    for (key, member) in members.iter() {
        let Some(value) = dyn_from(alloc, member)? else {
            return Ok(None);
        };
        let key = Text::from_str(alloc, key.as_str())?;
        bag.push(Member { key, value })?;
    }
    Ok(Some(DynBag::from_vec(bag)))
}
