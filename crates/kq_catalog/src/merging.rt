// Merges of extents.
ghost use Rattle.std.specs.Prelude.{◌≡◌};

use kq_catalog_journal::Ids;
use kq_store_extent::Extent;
use std::alloc::{AllocError, AllocFailed};

/// Extents of a table, by their ids, and the one extent that they become, whatever id it has.
#[derive(Drop)]
pub struct Merging {
    pub table: u32,
    pub old: Ids,
    pub extent: Extent,
}

/// Why a merge isn't staged.
#[derive(Clone, Copy, PartialEq, Eq)]
pub enum MergeFault {
    /// The first of the old extents, which has this id, is no longer in the table.
    Moved { id: u64 },
    /// Want of memory.
    Memory,
}

impl From<AllocError> for MergeFault {
    ghost use Rattle.kq_catalog.specs.declared.merging.MergeFault.TheVariants.{Memory};

    ghost from_gives = { λ e f. f ≡ Memory };

    fn from(_error: AllocError) -> MergeFault {
        MergeFault::Memory
    }
}

impl<T: Drop> From<AllocFailed<T>> for MergeFault {
    ghost use Rattle.kq_catalog.specs.declared.merging.MergeFault.TheVariants.{Memory};

    ghost from_gives = { λ e f. f ≡ Memory };

    fn from(_error: AllocFailed<T>) -> MergeFault {
        MergeFault::Memory
    }
}
