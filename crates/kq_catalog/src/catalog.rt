// The catalogue.
ghost use Rattle.std.specs.Prelude.{◌≡◌, ◌<◌, ◌+◌, [], IfErr, IfOk, length};
ghost use Rattle.kq_catalog_journal.specs.History.{log, cursor as cursor_of, view_cursor};
ghost use Rattle.kq_catalog_journal.specs.Lawful.{LawfulCommit};
ghost use Rattle.kq_catalog_journal.specs.Records.{extents_made};
ghost use Rattle.kq_catalog.specs.Intents.{BeginsEmpty, commit_of, event_by};
ghost use Rattle.kq_catalog.specs.Merges.{Moves, WasPicked, merge_event};
ghost use Rattle.kq_catalog.specs.Seen.{hist, Sound};
ghost use Rattle.kq_catalog.specs.Staged.{IsNext, IsStaged};
ghost use Rattle.kq_catalog.specs.Views.{Trails, WasFolded, fold_event};

use crate::folding::FoldFault;
use crate::intent::Intent;
use crate::merging::{MergeFault, Merging};
use crate::snapshot::Snapshot;
use crate::state::State;
use kq_catalog_journal::{By, Limits};
use kq_run_shards::Parted;
use kq_value::Memory;
use std::alloc::Global;
use std::marker::Model;
use std::sync::Arc;

/// The tables with their extents, and the journal of events that made them: the state that stands.
#[derive(Drop)]
pub struct Catalog {
    present: Snapshot,
}

impl Model for Catalog {
    ghost use Rattle.std.specs.Coded.{codes};
    ghost use Rattle.kq_value.specs.contracts.value.Value as cell;
    ghost use Rattle.kq_plan_expressions.specs.contracts.expr.Expr as expr;
    ghost use Rattle.kq_catalog.specs.Seen.{CatalogView};

    ghost Value = { CatalogView };

    ghost coded = { Prim.hlevel (codes, cell.the_row.coded, expr.the_row.coded) };

    ghost view = { λ c. c.present };
}

/// A state that may stand next.
#[derive(Drop)]
pub struct Staged {
    next: Snapshot,
}

impl Model for Staged {
    ghost use Rattle.std.specs.Coded.{codes};
    ghost use Rattle.kq_value.specs.contracts.value.Value as cell;
    ghost use Rattle.kq_plan_expressions.specs.contracts.expr.Expr as expr;
    ghost use Rattle.kq_catalog.specs.Seen.{StagedView};

    ghost Value = { StagedView };

    ghost coded = { Prim.hlevel (codes, cell.the_row.coded, expr.the_row.coded) };

    ghost view = { λ s. record { limits = s.next.limits; history = s.next.history } };
}

impl Catalog {
    /// A catalogue with no tables and no events. No call changes its limits.
    pub fn new(alloc: Global, limits: Limits) -> Result<Catalog, Memory>
        ensures limits { IfOk result (λ c. c.limits ≡ limits) }
        ensures history { IfOk result (λ c. hist c ≡ []) }
    {
        let state = Arc::new(alloc, State::new(alloc, limits)?)?;
        Ok(Catalog {
            present: Snapshot { state },
        })
    }

    /// The number of events.
    pub fn place(&self) -> u64
        ensures place { result ≡ length (hist self.now) }
        ensures sound { Sound self.now }
    {
        let present = &self.present;
        present.state.place()
    }

    /// The number of client commits.
    pub fn cursor(&self) -> u64
        ensures cursor { result ≡ cursor_of (hist self.now) }
        ensures sound { Sound self.now }
    {
        let present = &self.present;
        present.state.cursor()
    }

    /// The allocator that it keeps.
    pub fn allocator(&self) -> Global {
        self.present.allocator()
    }

    pub fn limits(&self) -> Limits
        ensures { result ≡ self.now.limits }
    {
        self.present.limits()
    }

    /// What stands now, lent.
    pub fn present(&self) -> &Snapshot
        ensures { result.now ≡ self.now }
    {
        &self.present
    }

    /// What stands now, whatever comes later: a second handle of the state.
    pub fn snapshot(&self) -> Result<Snapshot, Memory>
        ensures limits { IfOk result (λ s. s.limits ≡ self.now.limits) }
        ensures history { IfOk result (λ s. s.history ≡ hist self.now) }
    {
        self.present.share()
    }

    /// Makes the next state beside the one that stands, which doesn't change.
    pub fn stage(&self, by: By, intent: Intent) -> Result<Staged, Memory>
        requires lawful { LawfulCommit self.now.limits (log (hist self.now)) (commit_of intent) }
        requires begins { BeginsEmpty intent }
        ensures staged { IfOk result (IsStaged self.now (event_by by intent)) }
    {
        let present = &self.present;
        let next = present.state.with_event(by, intent)?;
        let state = Arc::new(present.allocator(), next)?;
        Ok(Staged {
            next: Snapshot { state },
        })
    }

    /// Makes the state in which extents of a table became one, unless the first of them is gone. The one gets the next id.
    pub fn stage_merge(&self, by: By, merging: Merging) -> Result<Staged, MergeFault>
        requires { WasPicked (hist self.now) merging }
        ensures staged { IfOk result (IsStaged self.now (merge_event by (1 + extents_made (hist self.now)) merging)) }
        ensures moved { IfErr result (Moves (hist self.now) merging) }
    {
        let present = &self.present;
        if let Some(id) = present.state.gone(&merging) {
            return Err(MergeFault::Moved { id });
        }
        let next = present.state.with_merge(by, merging)?;
        let state = Arc::new(present.allocator(), next)?;
        Ok(Staged {
            next: Snapshot { state },
        })
    }

    /// Makes the state in which a view is materialized up to a cursor, unless it is already.
    pub fn stage_fold(&self, by: By, view: u32, to: u64, part: Parted) -> Result<Staged, FoldFault>
        requires { WasFolded (hist self.now) view to part }
        ensures staged { IfOk result (IsStaged self.now (fold_event by view to)) }
        ensures ahead { IfOk result (λ s. view_cursor (hist self.now) view < to) }
        ensures behind { IfErr result (Trails (hist self.now) view to) }
    {
        let present = &self.present;
        let cursor = present.state.view_cursor(view);
        if to <= cursor {
            return Err(FoldFault::Behind { cursor });
        }
        let next = present.state.with_fold(by, view, to, part)?;
        let state = Arc::new(present.allocator(), next)?;
        Ok(Staged {
            next: Snapshot { state },
        })
    }

    /// Puts in what was staged on this catalogue as it stands. It takes no memory.
    pub fn commit_ready(&mut self, staged: Staged)
        requires { IsNext self.old staged }
        ensures limits { self.new.limits ≡ self.old.limits }
        ensures history { hist self.new ≡ staged.history }
    {
        let Staged { next } = staged;
        self.present = next;
    }
}
