// Texts, each kept once in the order of first appearance.
ghost use Rattle.std.specs.Prelude.{◌≡◌, IfOk, map};
ghost use Rattle.kq_value_text_sets.specs.EachOnce.{each_once};

use indexmap::IndexSet;
use kq_value::{Memory, Tags, Text};
use std::alloc::Global;

/// Copies of the texts, each once, in the order of first appearance.
pub fn distinct(alloc: Global, texts: &[Text]) -> Result<Tags, Memory>
    ensures { IfOk result (λ tags. tags ≡ each_once texts.now) }
{
    let mut seen = IndexSet::new(alloc);
    for text in texts {
        seen.insert(text.as_str())?;
    }
    owned(alloc, seen.as_slice())
}

fn owned(alloc: Global, texts: &[&str]) -> Result<Tags, Memory>
    ensures { IfOk result (λ tags. tags ≡ map (λ text. text.now) texts.now) }
{
    let mut tags = Vec::with_capacity(alloc, texts.len())?;
    for text in texts {
        tags.push(Text::from_str(alloc, text)?)?;
    }
    Ok(Tags::from_vec(tags))
}
