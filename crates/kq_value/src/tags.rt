// Tags.
ghost use Rattle.std.specs.Prelude.{◌≡◌, ◌↔◌, ◌<◌, ◌^◌, List, [], ◌∷◌, ◌++◌, length, IfOk, IsTrue, OnOk, OnErr};

use crate::Memory;
use crate::items::{copy_of, push_to};
use crate::text::Text;
use std::alloc::Global;
use std::marker::Model;

/// The tags of an extent, in order of first appearance, as `ingest-by:batch-7`. Contracts see their list.
#[derive(Drop)]
pub struct Tags {
    tags: Vec<Text>,
}

impl Model for Tags {
    ghost use Rattle.std.specs.Prelude.{ℕ, List};
    ghost use Rattle.std.specs.Coded.{coded_ℕ, coded_list};

    ghost Value = { List (List ℕ) };

    ghost coded = { coded_list (coded_list coded_ℕ) };

    ghost view = { λ t. t.tags.items };
}

impl Tags {
    pub fn new(alloc: Global) -> Tags
        ensures { result ≡ [] }
    {
        Tags {
            tags: Vec::new(alloc),
        }
    }

    pub fn from_vec(tags: Vec<Text>) -> Tags
        ensures { result ≡ tags.items }
    {
        Tags { tags }
    }

    pub fn into_vec(self) -> Vec<Text>
        ensures { result.items ≡ self }
    {
        self.tags
    }

    pub fn as_slice(&self) -> &[Text]
        ensures { result.now ≡ self.now }
    {
        self.tags.as_slice()
    }

    pub fn len(&self) -> usize
        ensures count { result ≡ length self.now }
        ensures small { result < 2 ^ 63 }
    {
        self.tags.len()
    }

    pub fn is_empty(&self) -> bool
        ensures { IsTrue result ↔ (self.now ≡ []) }
    {
        self.tags.is_empty()
    }

    pub fn push(&mut self, tag: Text) -> Result<(), Memory>
        ensures ok { OnOk result (self.new ≡ self.old ++ tag ∷ []) }
        ensures err { OnErr result (self.new ≡ self.old) }
    {
        push_to(&mut self.tags, tag)
    }

    pub fn clone_in(&self) -> Result<Tags, Memory>
        ensures { IfOk result (λ t. t ≡ self.now) }
    {
        let tags = copy_of(&self.tags)?;
        Ok(Tags { tags })
    }
}
