// Why a text is no update policy.
use kq_store_rows::Why;
use std::alloc::{AllocError, AllocFailed};

/// Why a text gives no entries of an update policy.
#[derive(Drop)]
pub enum EntriesFault {
    /// The array has more elements than the limit.
    Full { limit: u64 },
    /// The entry, counted from 0, is the first bad one; it is 0 too where the text is no array.
    Bad { entry: u32, why: Why },
    Memory,
}

impl From<AllocError> for EntriesFault {
    ghost use Rattle.std.specs.Prelude.{◌≡◌};
    ghost use Rattle.kq_policy_entries.specs.declared.fault.EntriesFault.TheVariants as faults;

    ghost from_gives = { λ _ e. e ≡ faults.Memory };

    fn from(_error: AllocError) -> EntriesFault {
        EntriesFault::Memory
    }
}

impl<T: Drop> From<AllocFailed<T>> for EntriesFault {
    ghost use Rattle.std.specs.Prelude.{◌≡◌};
    ghost use Rattle.kq_policy_entries.specs.declared.fault.EntriesFault.TheVariants as faults;

    ghost from_gives = { λ _ e. e ≡ faults.Memory };

    fn from(_error: AllocFailed<T>) -> EntriesFault {
        EntriesFault::Memory
    }
}

// Why one element is no entry.
#[derive(Drop)]
pub(crate) enum EntryFault {
    Bad(Why),
    Memory,
}

impl From<AllocError> for EntryFault {
    ghost use Rattle.std.specs.Prelude.{◌≡◌};
    ghost use Rattle.kq_policy_entries.specs.declared.fault.EntryFault.TheVariants as faults;

    ghost from_gives = { λ _ e. e ≡ faults.Memory };

    fn from(_error: AllocError) -> EntryFault {
        EntryFault::Memory
    }
}
