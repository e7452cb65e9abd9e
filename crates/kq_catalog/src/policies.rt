// The update policies by table.
ghost use Rattle.std.specs.Prelude.{◌≡◌, ◌<◌, ◌++◌, ◌∷◌, ◌^◌, [], IfOk, length};
ghost use Rattle.kq_catalog_journal.specs.Enabled.{enabled};
ghost use Rattle.kq_catalog_journal.specs.Force.{policy_at};
ghost use Rattle.kq_catalog_journal.specs.Policies.{policies_with, with_policy};
ghost use Rattle.kq_catalog.specs.Policies.{SetsStanding};

use crate::enabled::enabled;
use kq_catalog_journal::{Commit, Due, Entries, Entry};
use kq_store_shared_lists::SharedList;
use kq_value::Memory;
use std::alloc::Global;
use std::marker::Model;
use std::sync::Arc;

// The update policy of each table, in the order of their creation, and the enabled entries of all. Copies share both.
#[derive(Drop)]
pub(crate) struct Policies {
    held: SharedList<Entries>,
    dues: Arc<Vec<Due>, Global>,
}

impl Model for Policies {
    ghost use Rattle.std.specs.Prelude.{◌≡◌, List};
    ghost use Rattle.std.specs.Arc.{arc_value};
    ghost use Rattle.std.specs.Coded.{coded_list};
    ghost use Rattle.kq_catalog_journal.specs.contracts.policy.Entries as entries;
    ghost use Rattle.kq_catalog_journal.specs.declared.policy.Entry.{Entry as Seen};
    ghost use Rattle.kq_catalog_journal.specs.Enabled.{enabled};

    ghost Value = { List (List Seen) };

    ghost coded = { coded_list entries.the_row.coded };

    ghost view = { λ p. p.held };

    ghost invariant = { λ p. (arc_value p.dues).items ≡ enabled p.held };
}

impl Policies {
    pub(crate) fn new(alloc: Global) -> Result<Policies, Memory>
        ensures { IfOk result (λ policies. policies ≡ []) }
    {
        Ok(Policies {
            held: SharedList::new(alloc),
            dues: Arc::new(alloc, Vec::new(alloc))?,
        })
    }

    // The entries of a table's policy.
    pub(crate) fn entries(&self, table: u32) -> &[Entry]
        requires { table < length self.now }
        ensures { result.now ≡ policy_at self.now table }
    {
        self.held.get(table as usize).as_slice()
    }

    // The enabled entries of all policies.
    pub(crate) fn dues(&self) -> &[Due]
        ensures { result.now ≡ enabled self.now }
    {
        self.dues.as_slice()
    }

    // The policies after a commit.
    pub(crate) fn with_commit(&self, alloc: Global, commit: &Commit) -> Result<Policies, Memory>
        requires stands { SetsStanding (length self.now) commit.now }
        requires few { length self.now < 2 ^ 32 }
        ensures { IfOk result (λ policies. policies ≡ policies_with commit.now self.now) }
    {
        match commit {
            Commit::CreateTable { .. } => self.with_table(alloc),
            Commit::SetPolicy { table, entries } => self.with_policy(alloc, *table, entries),
            Commit::CreateView(_) | Commit::AlterMerge { .. } | Commit::Ingest { .. } => {
                self.share()
            }
        }
    }

    // The policies and one of no entries.
    fn with_table(&self, alloc: Global) -> Result<Policies, Memory>
        ensures { IfOk result (λ policies. policies ≡ self.now ++ [] ∷ []) }
    {
        let none = Entries::new(alloc, Vec::new(alloc))?;
        let mut held = self.held.share()?;
        held.push(Arc::new(alloc, none)?)?;
        let dues = Arc::try_clone(&self.dues)?;
        Ok(Policies { held, dues })
    }

    // The policies with that of a table set anew.
    fn with_policy(&self, alloc: Global, table: u32, entries: &Entries) -> Result<Policies, Memory>
        requires stands { table < length self.now }
        requires few { length self.now < 2 ^ 32 }
        ensures { IfOk result (λ policies. policies ≡ with_policy table entries.now self.now) }
    {
        let mut held = self.held.share()?;
        held.set(table as usize, Arc::new(alloc, entries.share()?)?)?;
        let dues = Arc::new(alloc, enabled(alloc, &held)?)?;
        Ok(Policies { held, dues })
    }

    pub(crate) fn share(&self) -> Result<Policies, Memory>
        ensures { IfOk result (λ policies. policies ≡ self.now) }
    {
        let held = self.held.share()?;
        let dues = Arc::try_clone(&self.dues)?;
        Ok(Policies { held, dues })
    }
}
