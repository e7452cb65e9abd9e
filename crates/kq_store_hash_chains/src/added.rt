// The heads that links were added to, for contracts alone.
ghost use Rattle.std.specs.Prelude.{◌≡◌, [], ◌∷◌, ◌++◌};

use std::marker::Model;
use std::snapshot::Snapshot;

// A list of any length that takes no memory: it holds its last head, and those before it as contracts see them.
#[cycle(added)]
#[derive(Drop)]
pub(crate) struct Added {
    link: Link,
}

#[cycle(added)]
#[derive(Drop)]
enum Link {
    Start,
    More(Snapshot<Added>, usize),
}

impl Model for Added {
    ghost use Rattle.std.specs.Prelude.{List, ℕ, length};

    ghost Value = { List ℕ };

    ghost use Rattle.kq_store_hash_chains.specs.Added.{heads};

    ghost view = { λ a. heads a.link };

    ghost size = { length };

    ghost use Rattle.std.proofs.Common.{arith, length-append};

    ghost size_decreases = { λ a h. Prim.grind (arith, length-append) };
}

impl Added {
    pub(crate) fn new() -> Added
        ensures { result ≡ [] }
    {
        Added { link: Link::Start }
    }

    pub(crate) fn and(&self, head: usize) -> Added
        ensures { result ≡ self.now ++ head ∷ [] }
    {
        Added {
            link: Link::More(Snapshot::of(self), head),
        }
    }
}
