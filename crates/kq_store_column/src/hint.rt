// Where a cell may stand in a dictionary.
use kq_value::{Memory, Value};
use std::alloc::Global;

// For each bucket of hashes the number of its newest word, and for each word that of the one before it in its bucket. Words are counted from 1, and 0
// is none.
// Nothing is claimed of what it holds: whoever asks tests the answer.
#[derive(Drop)]
pub(crate) struct Hint {
    newest: Vec<u32>,
    before: Vec<u32>,
}

impl Hint {
    /// With so many buckets.
    pub fn new(alloc: Global, buckets: usize) -> Result<Hint, Memory> {
        Ok(Hint {
            newest: vec![in alloc; 0; buckets]?,
            before: Vec::new(alloc),
        })
    }

    fn bucket(&self, hash: u64) -> usize {
        hash.checked_rem(self.newest.len() as u64).unwrap_or(0) as usize
    }

    /// The newest word of a hash's bucket.
    pub fn newest(&self, hash: u64) -> u32 {
        self.newest.get(self.bucket(hash)).copied().unwrap_or(0)
    }

    /// The word before one in its bucket.
    pub fn before(&self, word: u32) -> u32 {
        self.before
            .get((word as usize).wrapping_sub(1))
            .copied()
            .unwrap_or(0)
    }

    /// Takes more buckets, where there are more words than buckets.
    pub fn widen(&mut self, words: &[Value]) -> Result<(), Memory> {
        if words.len() <= self.newest.len() {
            return Ok(());
        }
        let mut wider = Hint::new(*self.before.allocator(), words.len().saturating_mul(2))?;
        for word in words {
            wider.add(word.hash64())?;
        }
        *self = wider;
        Ok(())
    }

    /// Notes the next word.
    pub fn add(&mut self, hash: u64) -> Result<(), Memory> {
        let bucket = self.bucket(hash);
        if let Some(newest) = self.newest.get_mut(bucket) {
            self.before.push(*newest)?;
            *newest = u32::try_from(self.before.len()).unwrap_or(0);
        }
        Ok(())
    }
}
