// Commits and events.
ghost use Rattle.std.specs.Prelude.{◌≡◌};

use crate::batch::{Batches, Failures};
use crate::ids::Ids;
use crate::policy::Entries;
use crate::view::SharedView;
use kq_value::{Schema, Text};

/// The request id of a command: who asked, and with which of its commands, counted from 1.
#[derive(Clone, Copy)]
pub struct By {
    pub actor: u32,
    pub number: u64,
}

impl By {
    ghost use Rattle.kq_catalog_journal.specs.Requests.{same_by};

    pub fn same(self, other: By) -> bool
        ensures { result ≡ same_by self other }
    {
        self.actor == other.actor && self.number == other.number
    }
}

/// What a client's command changes for good.
#[derive(Drop)]
pub enum Commit {
    CreateTable {
        name: Text,
        schema: Schema,
    },
    /// The update policy of a table, which goes by its number, in place of the one before.
    SetPolicy {
        table: u32,
        entries: Entries,
    },
    CreateView(SharedView),
    /// Further columns behind those of a table, which goes by its number.
    AlterMerge {
        table: u32,
        columns: Schema,
    },
    Ingest {
        batches: Batches,
        failures: Failures,
    },
}

/// What an event does. Views, tables and extents go by number.
#[derive(Drop)]
pub enum Operation {
    /// What a client's command changed.
    Commit(Commit),
    /// The part of a view has the records with cursors up to `to`.
    Fold { view: u32, to: u64 },
    /// The extents `old` of a table became the extent `new`, which is its last.
    Merge { table: u32, old: Ids, new: u64 },
}

/// An entry of the history: an operation with the request id of the command that made it.
#[derive(Drop)]
pub struct Event {
    pub by: By,
    pub operation: Operation,
}
