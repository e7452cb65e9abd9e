// Why there is no value.
ghost use Rattle.std.specs.Prelude.{◌≡◌};
ghost use Rattle.kq_value.specs.declared.fault.EvalFault.TheVariants.{Memory};

use std::alloc::{AllocError, AllocFailed};

/// Why an evaluation gives no value.
#[derive(Clone, Copy, PartialEq, Eq)]
pub enum EvalFault {
    /// A result is outside its type.
    Overflow,
    /// Want of memory.
    Memory,
}

impl From<AllocError> for EvalFault {
    ghost from_gives = { λ _ e. e ≡ Memory };

    fn from(_error: AllocError) -> EvalFault {
        EvalFault::Memory
    }
}

impl<T: Drop> From<AllocFailed<T>> for EvalFault {
    ghost from_gives = { λ _ e. e ≡ Memory };

    fn from(_error: AllocFailed<T>) -> EvalFault {
        EvalFault::Memory
    }
}
