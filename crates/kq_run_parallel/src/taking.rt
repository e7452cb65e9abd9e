// What threads take of rows beside each other.
ghost use Rattle.std.specs.Prelude.{◌≤◌, IfOk, ℕ};

use kq_value::Memory;
use std::alloc::Global;

// Rows of which those from one number up to another may be taken by themselves.
pub(crate) trait Taking<R> {
    // What some of them come to.
    type Got: Send + Drop;

    // They may be taken.
    ghost ready: { Self → Type 0 };

    // What those from one number up to another come to.
    ghost comes: { Self → ℕ → ℕ → Self.Got → Type 0 };

    fn take(&self, alloc: Global, from: u64, to: u64) -> Result<Self::Got, Memory>
        requires { ready self.now }
        ensures { IfOk result (comes self.now from to) };

    // What rows come to of which the first and the rest came to these. At most so many threads work at it.
    fn both(
        &self,
        rt: &R,
        alloc: Global,
        first: Self::Got,
        rest: Self::Got,
        most: u64,
    ) -> Result<Self::Got, Memory>
        requires ready { ready self.now }
        requires came { (i : ℕ) × (j : ℕ) × (k : ℕ) × comes self.now i j first × comes self.now j k rest }
        ensures { (i j k : ℕ) → i ≤ j → j ≤ k → comes self.now i j first → comes self.now j k rest → IfOk result (comes self.now i k) };
}
