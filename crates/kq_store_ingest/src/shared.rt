// What is kept from cell to cell, so that a cell takes no memory but what stays of it.
ghost use Rattle.std.specs.Prelude.{◌≡◌, ◌<◌, IfOk};

use json::Scratch;
use kq_value::{Memory, Text};
use std::alloc::Global;

// How many texts are kept, and the most bytes that one has: a longer one seldom comes again.
const KEPT: usize = 256;

const LONGEST: usize = 32;

#[derive(Drop)]
pub(crate) struct Kept {
    pub(crate) texts: Texts,
    // Where JSON is read.
    pub(crate) scratch: Scratch,
    // How many entries the last bag had, as the next is likely to have.
    pub(crate) entries: usize,
}

// Short texts that come again and again, which their copies share: the last text of each place. A place is found by the bytes, and what stands there
// is compared.
#[derive(Drop)]
pub(crate) struct Texts {
    kept: Vec<Text>,
}

impl Texts {
    pub(crate) fn new(alloc: Global) -> Result<Texts, Memory> {
        let empty = Text::from_str(alloc, "")?;
        let mut kept = Vec::with_capacity(alloc, KEPT)?;
        for _ in 0..KEPT {
            kept.push(empty.clone_in()?)?;
        }
        Ok(Texts { kept })
    }

    // The text, which is shared with the last of the same bytes where that is kept.
    pub(crate) fn text(&mut self, alloc: Global, text: &str) -> Result<Text, Memory>
        ensures { IfOk result (λ t. t ≡ text.now) }
    {
        let count = self.kept.len();
        if text.len() > LONGEST || count == 0 {
            return Text::from_str(alloc, text);
        }
        let place = place_among(count, text);
        if self.kept[place].as_str() == text {
            return self.kept[place].clone_in();
        }
        let new = Text::from_str(alloc, text)?;
        self.kept[place] = new.clone_in()?;
        Ok(new)
    }
}

fn place_among(count: usize, text: &str) -> usize
    requires { 0 < count }
    ensures { result < count }
{
    let mut hash: usize = 0;
    for byte in text.as_bytes() {
        hash = hash.wrapping_mul(31).wrapping_add(usize::from(*byte));
    }
    hash % count
}
