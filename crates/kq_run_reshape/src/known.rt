// Rows that are found by their hashes.
ghost use Rattle.std.specs.Prelude.{◌≡◌, ◌<◌, ◌↔◌, ◌++◌, ◌∷◌, [], IfOk, IsTrue, OnOk, length};
ghost use Rattle.std.specs.List.{All};
ghost use Rattle.kq_store_rows.specs.Chunks.{HasWidth};
ghost use Rattle.kq_value.specs.Same.{times};
ghost use Rattle.kq_run_reshape.specs.Known.{IsFiled, head_of};

use crate::cells::{row_in, same_cells};
use kq_store_hash_chains::Chain;
use kq_store_rows::Rows;
use kq_value::{Memory, Row};
use std::alloc::Global;

// The most heads of chains.
const MOST_HEADS: usize = 0x10_0000;

// Rows, each a link of the chain behind the head of its hash.
#[derive(Drop)]
pub(crate) struct Known {
    pub(crate) chain: Chain,
    pub(crate) heads: usize,
    pub(crate) rows: Rows,
}

impl Known {
    // No rows, with heads for so many.
    pub(crate) fn new(alloc: Global, count: usize) -> Result<Known, Memory>
        ensures filed { IfOk result (λ k. IsFiled k) }
        ensures empty { IfOk result (λ k. k.rows ≡ []) }
    {
        let heads = count.clamp(1, MOST_HEADS);
        let chain = Chain::new(alloc, heads)?;
        let rows = Rows::new(alloc);
        Ok(Known { chain, heads, rows })
    }

    pub(crate) fn contains(&self, row: &Row) -> bool
        requires { IsFiled self.now }
        ensures { IsTrue result ↔ (0 < times row.now self.now.rows) }
    {
        let mut link = self.chain.first(head(row, self.heads));
        while let Some(i) = link {
            if same_cells(row_in(&self.rows, i), row.as_slice()) {
                return true;
            }
            link = self.chain.next(i);
        }
        false
    }

    // Puts a row last.
    pub(crate) fn push(&mut self, row: Row) -> Result<(), Memory>
        requires filed { IsFiled self.old }
        requires wide { All (HasWidth (length row)) self.old.rows }
        ensures filed { OnOk result (IsFiled self.new) }
        ensures last { OnOk result (self.new.rows ≡ self.old.rows ++ row ∷ []) }
    {
        self.chain.add(head(&row, self.heads))?;
        self.rows.push_from(&mut row.into_vec())
    }
}

fn head(row: &Row, heads: usize) -> usize
    requires { 0 < heads }
    ensures head { result ≡ head_of heads row.now }
    ensures within { result < heads }
{
    (row.hash64() % heads as u64) as usize
}
