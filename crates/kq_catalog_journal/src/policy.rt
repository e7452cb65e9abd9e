// Update policies.
ghost use Rattle.std.specs.Prelude.{◌≡◌, IfOk};

use kq_plan::Plan;
use kq_value::{Memory, Text};
use std::alloc::Global;
use std::marker::Model;
use std::sync::Arc;

/// An entry of a table's update policy: the number of the table whose batches it runs for, and its query with the query's text. It is in force where
/// it is
/// enabled; a batch fails with it where it is transactional, and else goes on without what it came to; and what its query gives has the batch's tags
/// where
/// it propagates them.
#[derive(Drop)]
pub struct Entry {
    pub source: u32,
    pub enabled: bool,
    pub transactional: bool,
    pub propagate: bool,
    pub plan: Plan,
    pub text: Text,
}

/// A handle of the entries of one table's update policy, which its copies share. Contracts see their list.
#[derive(Drop)]
pub struct Entries {
    entries: Arc<Vec<Entry>, Global>,
}

impl Model for Entries {
    ghost use Rattle.std.specs.Prelude.{List};
    ghost use Rattle.std.specs.Arc.{arc_value};
    ghost use Rattle.std.specs.Coded.{coded_list};
    ghost use Rattle.kq_catalog_journal.specs.declared.policy.Entry.{Entry as Part};
    ghost use Rattle.kq_catalog_journal.specs.contracts.policy.Entry as entry;

    ghost Value = { List Part };

    ghost coded = { coded_list entry.the_row.coded };

    ghost view = { λ e. (arc_value e.entries).items };
}

impl Entries {
    pub fn new(alloc: Global, entries: Vec<Entry>) -> Result<Entries, Memory>
        ensures { IfOk result (λ e. e ≡ entries.items) }
    {
        Ok(Entries {
            entries: Arc::new(alloc, entries)?,
        })
    }

    pub fn as_slice(&self) -> &[Entry]
        ensures { result.now ≡ self.now }
    {
        self.entries.as_slice()
    }

    /// A second handle of the same entries.
    pub fn share(&self) -> Result<Entries, Memory>
        ensures { IfOk result (λ e. e ≡ self.now) }
    {
        let entries = Arc::try_clone(&self.entries)?;
        Ok(Entries { entries })
    }
}

/// An enabled entry, by its target and its place in the target's policy, from 0. Tables go by number.
#[derive(Clone, Copy, PartialEq, Eq)]
pub struct Due {
    pub target: u32,
    pub place: usize,
    pub source: u32,
    pub transactional: bool,
    pub propagate: bool,
}
