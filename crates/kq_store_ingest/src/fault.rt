// Why a body gives no rows.
ghost use Rattle.std.specs.Prelude.{◌≡◌};
ghost use Rattle.kq_store_ingest.specs.declared.fault.IngestFault.TheVariants as fault;

use std::alloc::{AllocError, AllocFailed};

/// Why a body gives no rows.
#[derive(Clone, Copy, PartialEq, Eq)]
pub enum IngestFault {
    /// The record with this number, from 1, has more cells than there are columns.
    WideRow { row: u64 },
    /// There are more rows than the limit.
    Full { limit: u64 },
    Memory,
}

impl From<AllocError> for IngestFault {
    ghost from_gives = { λ _ e. e ≡ fault.Memory };

    fn from(_error: AllocError) -> IngestFault {
        IngestFault::Memory
    }
}

impl<T: Drop> From<AllocFailed<T>> for IngestFault {
    ghost from_gives = { λ _ e. e ≡ fault.Memory };

    fn from(_error: AllocFailed<T>) -> IngestFault {
        IngestFault::Memory
    }
}
