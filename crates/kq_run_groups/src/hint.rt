// Which number a key may have.
use kq_value::Memory;
use std::alloc::Global;

const FIRST_BUCKETS: usize = 0x400;

const MOST_BUCKETS: usize = 0x10_0000;

// Multiples of it spread over all bits: 2^64 divided by the golden ratio.
const SPREAD: u64 = 0x9e37_79b9_7f4a_7c15;

// For each bucket of numeric keys the number of the key that was noted last. Nothing is claimed of it: whoever asks tests the answer.
#[derive(Drop)]
pub(crate) struct Hint {
    numbers: Vec<u32>,
}

impl Hint {
    pub(crate) fn new(alloc: Global) -> Hint {
        Hint {
            numbers: Vec::new(alloc),
        }
    }

    // Has more buckets where there are as many keys. Answers whether what was noted is gone.
    pub(crate) fn widen(&mut self, alloc: Global, keys: usize) -> Result<bool, Memory> {
        let buckets = self.numbers.len();
        if buckets == 0 {
            self.numbers = vec![in alloc; u32::MAX; FIRST_BUCKETS]?;
        } else if buckets <= keys && buckets < MOST_BUCKETS {
            self.numbers = vec![in alloc; u32::MAX; buckets * 4]?;
        } else {
            return Ok(false);
        }
        Ok(true)
    }

    // By the upper bits of the product, which part numbers in a row; its middle bits let many of them share a bucket.
    fn bucket(&self, value: i64) -> usize {
        let spread = value.cast_unsigned().wrapping_mul(SPREAD) >> 32;
        (spread.wrapping_mul(self.numbers.len() as u64) >> 32) as usize
    }

    pub(crate) fn of(&self, value: i64) -> u32 {
        self.numbers
            .get(self.bucket(value))
            .copied()
            .unwrap_or(u32::MAX)
    }

    pub(crate) fn note(&mut self, value: i64, number: u32) {
        let bucket = self.bucket(value);
        if let Some(slot) = self.numbers.get_mut(bucket) {
            *slot = number;
        }
    }
}
