// Why a query isn't bound.
ghost use Rattle.std.specs.Prelude.{◌≡◌};
ghost use Rattle.kq_bind_expressions.specs.declared.fault.BindFault.TheVariants as fault;

use std::alloc::{AllocError, AllocFailed};

/// Why a query isn't bound. A place is an offset in the query's text.
#[derive(Clone, Copy, PartialEq, Eq)]
pub enum BindFault {
    /// A literal that the language has and this engine doesn't take.
    Unsupported { at: usize },
    /// A name that stands for nothing.
    Unknown { at: usize },
    /// A type that doesn't fit: the place is that of the operator, or of the called name.
    Mistyped { at: usize },
    Memory,
}

impl From<AllocError> for BindFault {
    ghost from_gives = { λ _ e. e ≡ fault.Memory };

    fn from(_error: AllocError) -> BindFault {
        BindFault::Memory
    }
}

impl<T: Drop> From<AllocFailed<T>> for BindFault {
    ghost from_gives = { λ _ e. e ≡ fault.Memory };

    fn from(_error: AllocFailed<T>) -> BindFault {
        BindFault::Memory
    }
}
