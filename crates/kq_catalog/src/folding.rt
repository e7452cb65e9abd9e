// Folds of views.
ghost use Rattle.std.specs.Prelude.{◌≡◌};

use std::alloc::{AllocError, AllocFailed};

/// Why a fold isn't staged.
#[derive(Clone, Copy, PartialEq, Eq)]
pub enum FoldFault {
    /// The view is materialized as far already, up to this cursor.
    Behind { cursor: u64 },
    /// Want of memory.
    Memory,
}

impl From<AllocError> for FoldFault {
    ghost use Rattle.kq_catalog.specs.declared.folding.FoldFault.TheVariants.{Memory};

    ghost from_gives = { λ e f. f ≡ Memory };

    fn from(_error: AllocError) -> FoldFault {
        FoldFault::Memory
    }
}

impl<T: Drop> From<AllocFailed<T>> for FoldFault {
    ghost use Rattle.kq_catalog.specs.declared.folding.FoldFault.TheVariants.{Memory};

    ghost from_gives = { λ e f. f ≡ Memory };

    fn from(_error: AllocFailed<T>) -> FoldFault {
        FoldFault::Memory
    }
}
