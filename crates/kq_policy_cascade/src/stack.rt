// Batches of which entries still run, one upon another.
ghost use Rattle.std.specs.Prelude.{◌≡◌, [], ◌∷◌, IfNone, IfSome, OnOk};

use kq_value::Memory;
use std::alloc::Global;
use std::marker::Model;

// A batch whose entries run: its place among the batches so far, the number of failures that were noted before it, and the place among all enabled
// entries from which on its own are still to run. The first of these is the one that runs.
#[derive(Clone, Copy)]
pub(crate) struct Frame {
    pub own: usize,
    pub noted: usize,
    pub at: usize,
}

// Frames, the last one first: each is that of the batch which its entry made the next one's of.
#[derive(Drop)]
pub(crate) struct Stack {
    frames: Vec<Frame>,
}

impl Model for Stack {
    ghost use Rattle.std.specs.Prelude.{List, reverse};
    ghost use Rattle.kq_policy_cascade.specs.declared.stack.Frame.{Frame as Part};
    ghost use Rattle.std.specs.Coded.{coded_list};
    ghost use Rattle.kq_policy_cascade.specs.contracts.stack.Frame as frame;

    ghost Value = { List Part };

    ghost coded = { coded_list frame.the_row.coded };

    ghost view = { λ s. reverse s.frames.items };
}

impl Stack {
    pub fn new(alloc: Global) -> Stack
        ensures { result ≡ [] }
    {
        Stack {
            frames: Vec::new(alloc),
        }
    }

    pub fn push(&mut self, frame: Frame) -> Result<(), Memory>
        ensures { OnOk result (self.new ≡ frame ∷ self.old) }
    {
        self.frames.push(frame)?;
        Ok(())
    }

    pub fn pop(&mut self) -> Option<Frame>
        ensures none { IfNone result (self.old ≡ []) }
        ensures same { IfNone result (self.new ≡ []) }
        ensures some { IfSome result (λ frame. self.old ≡ frame ∷ self.new) }
    {
        self.frames.pop()
    }
}
