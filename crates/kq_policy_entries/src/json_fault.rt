// Why a text gives no entries.
ghost use Rattle.std.specs.Prelude.{◌≡◌};
ghost use Rattle.kq_policy_entries.specs.declared.json_fault.JsonFault.TheVariants as fault;

use std::alloc::{AllocError, AllocFailed};

/// Why a text gives no entries.
#[derive(Clone, Copy, PartialEq, Eq)]
pub enum JsonFault {
    /// The text is no JSON, or the JSON of something else than an array.
    NoArray,
    /// The array has more elements than the limit.
    Full { limit: u64 },
    Memory,
}

impl From<AllocError> for JsonFault {
    ghost from_gives = { λ _ e. e ≡ fault.Memory };

    fn from(_error: AllocError) -> JsonFault {
        JsonFault::Memory
    }
}

impl<T: Drop> From<AllocFailed<T>> for JsonFault {
    ghost from_gives = { λ _ e. e ≡ fault.Memory };

    fn from(_error: AllocFailed<T>) -> JsonFault {
        JsonFault::Memory
    }
}
