// Reading.
ghost use Rattle.std.specs.Prelude.{◌≡◌, ◌≢◌, Some, None, IfErr, IfOk, OnOk, option_map};
ghost use Rattle.serde_json.specs.View.{view, items_view};
ghost use Rattle.kq_policy_entries.specs.PolicyTexts.{bool_at, elements_of, entries_of, entry_of, fault_of, string_at};

use crate::json_fault::JsonFault;
use crate::written::Written;
use kq_value::{Memory, Text};
use serde_json::Value;
use std::alloc::Global;

/// The entries of an update policy, one for each element of the JSON array that the text is, in order. It is `None` for an
/// element that is no object with the members of an entry, so that the caller can tell the first wrong entry, whatever is wrong.
/// The array may have `limit` elements.
#[tactic(auto, unfolding(crate::specs::PolicyTexts::entries_of))]
pub fn read_policy(alloc: Global, text: &str, limit: u64) -> Result<Vec<Option<Written>>, JsonFault>
    ensures entries { IfOk result (λ entries. entries_of text.now ≡ Some entries.items) }
    ensures sound { OnOk result (fault_of limit text.now ≡ None) }
    ensures fault { IfErr result (λ e. e ≢ JsonFault.Memory → fault_of limit text.now ≡ Some e) }
{
    let value = match Value::from_str(alloc, text) {
        Ok(value) => value,
        Err(error) => return Err(if error.is_memory() {
            JsonFault::Memory
        } else {
            JsonFault::NoArray
        }),
    };
    let Some(items) = value.as_array() else {
        return Err(JsonFault::NoArray);
    };
    if items.len() as u64 > limit {
        return Err(JsonFault::Full { limit });
    }
    Ok(read_entries(alloc, items.as_slice())?)
}

fn read_entries(alloc: Global, items: &[Value]) -> Result<Vec<Option<Written>>, Memory>
    ensures { IfOk result (λ entries. entries.items ≡ elements_of (items_view items.now)) }
{
    let mut entries = Vec::with_capacity(alloc, items.len())?;
    for item in items {
        entries.push(read_entry(alloc, item)?)?;
    }
    Ok(entries)
}

fn read_entry(alloc: Global, value: &Value) -> Result<Option<Written>, Memory>
    ensures { IfOk result (λ entry. entry ≡ entry_of (view value.now)) }
{
    let Some(enabled) = bool_member(value, "IsEnabled", true) else {
        return Ok(None);
    };
    let Some(source) = string_member(value, "Source") else {
        return Ok(None);
    };
    let Some(query) = string_member(value, "Query") else {
        return Ok(None);
    };
    let Some(transactional) = bool_member(value, "IsTransactional", false) else {
        return Ok(None);
    };
    let Some(propagate) = bool_member(value, "PropagateIngestionProperties", false) else {
        return Ok(None);
    };
    let source = Text::from_str(alloc, source)?;
    let query = Text::from_str(alloc, query)?;
    Ok(Some(Written {
        enabled,
        source,
        query,
        transactional,
        propagate,
    }))
}

fn string_member<'v>(value: &'v Value, name: &str) -> Option<&'v str>
    ensures { option_map (λ s. s.now) result ≡ string_at name.now (view value.now) }
{
    value.get(name).and_then(Value::as_str)
}

fn bool_member(value: &Value, name: &str, otherwise: bool) -> Option<bool>
    ensures { result ≡ bool_at name.now otherwise (view value.now) }
{
    match value.get(name) {
        Some(member) => member.as_bool(),
        None => Some(otherwise),
    }
}
