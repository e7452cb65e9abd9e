// The tags of several extents.
ghost use Rattle.std.specs.Prelude.{◌≡◌, ◌++◌, IfOk, OnOk, map};
ghost use Rattle.std.specs.Arc.{arc_value};
ghost use Rattle.kq_value_text_sets.specs.EachOnce.{each_once};
ghost use Rattle.kq_store_merge.specs.Merges.{tags_in};

use kq_store_extent::Extent;
use kq_value::{Memory, Tags, Text};
use kq_value_text_sets::distinct;
use std::alloc::Global;
use std::sync::Arc;

// The tags of these extents, each once, in the order of first appearance.
pub(crate) fn union_of(alloc: Global, extents: &[Arc<Extent, Global>]) -> Result<Tags, Memory>
    ensures { IfOk result (λ tags. tags ≡ each_once (tags_in (map arc_value extents.now))) }
{
    let texts = texts_of(alloc, extents)?;
    distinct(alloc, texts.as_slice())
}

// The tags of one extent after another.
fn texts_of(alloc: Global, extents: &[Arc<Extent, Global>]) -> Result<Vec<Text>, Memory>
    ensures { IfOk result (λ texts. texts.items ≡ tags_in (map arc_value extents.now)) }
{
    let mut texts = Vec::new(alloc);
    for extent in extents {
        add_tags(&mut texts, extent.tags())?;
    }
    Ok(texts)
}

fn add_tags(texts: &mut Vec<Text>, tags: &Tags) -> Result<(), Memory>
    ensures { OnOk result (texts.new.items ≡ texts.old.items ++ tags.now) }
{
    for tag in tags.as_slice() {
        texts.push(tag.clone_in()?)?;
    }
    Ok(())
}
