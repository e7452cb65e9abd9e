// The tags of an ingestion's properties.
ghost use Rattle.std.specs.Prelude.{◌≡◌, IfOk, option_map, option_and_then};
ghost use Rattle.serde_json.specs.Find.{as_array};
ghost use Rattle.serde_json.specs.View.{view, items_view};
ghost use Rattle.kq_value_text_sets.specs.EachOnce.{each_once};
ghost use Rattle.kq_store_ingest.specs.TagTexts.{strings_of, tags_of};

use kq_value::{Memory, Tags, Text};
use kq_value_text_sets::distinct;
use serde_json::Value;
use std::alloc::{AllocError, Global};

/// The strings of a JSON array of strings, each kept once in the order of first appearance, or none where the text is no such array.
pub fn read_tags(alloc: Global, text: &str) -> Result<Option<Tags>, Memory>
    ensures { IfOk result (λ o. o ≡ tags_of text.now) }
{
    match Value::from_str(alloc, text) {
        Ok(value) => tags_in(alloc, &value),
        Err(error) => if error.is_memory() {
            Err(AllocError)
        } else {
            Ok(None)
        },
    }
}

fn tags_in(alloc: Global, value: &Value) -> Result<Option<Tags>, Memory>
    ensures { IfOk result (λ o. o ≡ option_map each_once (option_and_then strings_of (as_array (view value.now)))) }
{
    match value.as_array() {
        Some(items) => distinct_strings(alloc, items.as_slice()),
        None => Ok(None),
    }
}

fn distinct_strings(alloc: Global, items: &[Value]) -> Result<Option<Tags>, Memory>
    ensures { IfOk result (λ o. o ≡ option_map each_once (strings_of (items_view items.now))) }
{
    match strings(alloc, items)? {
        Some(texts) => Ok(Some(distinct(alloc, texts.as_slice())?)),
        None => Ok(None),
    }
}

// The strings, or none where an item is no string.
fn strings(alloc: Global, items: &[Value]) -> Result<Option<Tags>, Memory>
    ensures { IfOk result (λ o. o ≡ strings_of (items_view items.now)) }
{
    let mut texts = Tags::new(alloc);
    for item in items {
        match item.as_str() {
            Some(text) => texts.push(Text::from_str(alloc, text)?)?,
            None => return Ok(None),
        }
    }
    Ok(Some(texts))
}
