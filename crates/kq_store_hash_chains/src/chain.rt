// Chains.
ghost use Rattle.std.specs.Prelude.{◌≡◌, ◌<◌, ◌++◌, ◌∷◌, [], IfOk, OnErr, length, slice_index};
ghost use Rattle.kq_store_hash_chains.specs.Chain.{LeadsTo};

use crate::Memory;
use crate::added::Added;
use std::alloc::Global;
use std::marker::Model;

/// Links behind a fixed number of heads. A link is the number of links that were added before it, to any head, so it
/// can be the index of what belongs to it in a `Vec`. A walk begins at `first` and goes on by `next`: it visits the
/// links that were added to its head, newest first.
#[derive(Drop)]
pub struct Chain {
    firsts: Vec<Option<usize>>,
    nexts: Vec<Option<usize>>,
    added: Added,
}

impl Model for Chain {
    ghost use Rattle.std.specs.Prelude.{length};
    ghost use Rattle.kq_store_hash_chains.specs.Chain.{ChainState, IsLinked};

    ghost Value = { ChainState };

    ghost view = { λ c. record { heads = length c.firsts.items; added = c.added } };

    ghost invariant = { λ c. IsLinked c.firsts.items c.nexts.items c.added };
}

impl Chain {
    /// Heads with no links.
    pub fn new(alloc: Global, heads: usize) -> Result<Chain, Memory>
        ensures { IfOk result (λ c. c ≡ record { heads = heads; added = [] }) }
    {
        Ok(Chain {
            firsts: vec![in alloc; None; heads]?,
            nexts: Vec::new(alloc),
            added: Added::new(),
        })
    }

    /// Adds a link at the front of the head.
    pub fn add(&mut self, head: usize) -> Result<usize, Memory>
        requires { head < self.old.heads }
        ensures link { IfOk result (λ link. link ≡ length self.old.added) }
        ensures added { IfOk result (λ _. self.new ≡ record self.old { added = self.old.added ++ head ∷ [] }) }
        ensures err { OnErr result (self.new ≡ self.old) }
    {
        let link = self.nexts.len();
        self.nexts.push(self.firsts[head])?;
        self.firsts[head] = Some(link);
        self.added = self.added.and(head);
        Ok(link)
    }

    /// The newest link of the head.
    pub fn first(&self, head: usize) -> Option<usize>
        requires { head < self.now.heads }
        ensures { LeadsTo self.now.added head (length self.now.added) result }
    {
        self.firsts[head]
    }

    /// The link that was added to the same head before this one.
    pub fn next(&self, link: usize) -> Option<usize>
        requires { link < length self.now.added }
        ensures { LeadsTo self.now.added (slice_index self.now.added link) link result }
    {
        self.nexts[link]
    }
}
