// The states of a catalogue.
ghost use Rattle.std.specs.Prelude.{◌≡◌, ◌<◌, ◌+◌, ◌^◌, ◌++◌, ◌∷◌, [], All, IfOk, IfSome, IsNone, Some, length, map, option_map, slice_get};
ghost use Rattle.std.specs.List.Sorted.{IsPermutation};
ghost use Rattle.std.specs.Arc.{arc_value};
ghost use Rattle.kq_value.specs.Typed.{HasTypes};
ghost use Rattle.kq_store_shared_lists.specs.Standing.{StandsAt};
ghost use Rattle.kq_store_extent.specs.Seen.{held_records};
ghost use Rattle.kq_store_extent.specs.Wide.{wide_held};
ghost use Rattle.kq_catalog_journal.specs.declared.table.Table.{Table as Described};
ghost use Rattle.kq_catalog_journal.specs.History.{log, cursor as cursor_of, tables, Viewed, views, view_count, is_view, view_cursor};
ghost use Rattle.kq_catalog_journal.specs.Force.{policy_at};
ghost use Rattle.kq_catalog_journal.specs.Lawful.{LawfulCommit};
ghost use Rattle.kq_catalog_journal.specs.Policies.{dues, noted, policies};
ghost use Rattle.kq_catalog_journal.specs.Records.{records, rows_in, extents, extents_made, small_items, schema_of};
ghost use Rattle.kq_catalog_journal.specs.Tagged.{first_tagged};
ghost use Rattle.kq_catalog.specs.Edits.{AreEdits};
ghost use Rattle.kq_catalog.specs.Held.{AreItems, FindsTable};
ghost use Rattle.kq_catalog.specs.Intents.{BeginsEmpty, commit_of, event_by};
ghost use Rattle.kq_catalog.specs.Merges.{IsGone, IsInFront, WasPicked, comes_first, merge_event};
ghost use Rattle.kq_catalog.specs.Seen.{Sound};
ghost use Rattle.kq_catalog.specs.Views.{FindsView, HoldsPart, WasFolded, fold_event};

use crate::edits::{Edits, column_edits, part_edits, policy_edits, table_edits, view_edits};
use crate::intent::Intent;
use crate::merging::Merging;
use crate::policies::Policies;
use crate::rest::{rest_after, rest_shared, rest_with};
use crate::tables::Tables;
use crate::views::Views;
use kq_catalog_indexes::TagIndex;
use kq_catalog_journal::{By, Due, Entry, Event, Limits, Noted, Operation, Table, View};
use kq_run_shards::Parted;
use kq_store_extent::TableExtents;
use kq_store_shared_lists::SharedList;
use kq_value::{Memory, Text};
use std::alloc::Global;
use std::marker::Model;
use std::sync::Arc;

// What stands after some events. None of it changes.
#[derive(Drop)]
pub(crate) struct State {
    alloc: Global,
    limits: Limits,
    journal: SharedList<Event>,
    tables: Tables,
    policies: Policies,
    views: Views,
    failures: SharedList<Noted>,
    tags: TagIndex,
    cursor: u64,
    made: u64,
}

impl Model for State {
    ghost use Rattle.std.specs.Coded.{codes};
    ghost use Rattle.kq_value.specs.contracts.value.Value as cell;
    ghost use Rattle.kq_plan_expressions.specs.contracts.expr.Expr as expr;
    ghost use Rattle.kq_catalog.specs.Seen.{CatalogView, HoldsHistory, catalog_of};

    ghost Value = { CatalogView };

    ghost coded = { Prim.hlevel (codes, cell.the_row.coded, expr.the_row.coded) };

    ghost view = { λ s. catalog_of s.limits s.journal s.tables s.policies s.views s.failures };

    ghost invariant = { λ s. HoldsHistory (catalog_of s.limits s.journal s.tables s.policies s.views s.failures) s.cursor s.made s.tags };
}

impl State {
    #[tactic(auto, using(crate::proofs::Viewing::no_views))]
    pub(crate) fn new(alloc: Global, limits: Limits) -> Result<State, Memory>
        ensures limits { IfOk result (λ s. s.limits ≡ limits) }
        ensures history { IfOk result (λ s. s.history ≡ []) }
    {
        Ok(State {
            alloc,
            limits,
            journal: SharedList::new(alloc),
            tables: Tables::new(alloc)?,
            policies: Policies::new(alloc)?,
            views: Views::new(alloc)?,
            failures: SharedList::new(alloc),
            tags: TagIndex::new(alloc)?,
            cursor: 0,
            made: 0,
        })
    }

    pub(crate) fn place(&self) -> u64
        ensures place { result ≡ length self.now.history }
        ensures small { result < 2 ^ 63 }
        ensures sound { Sound self.now }
    {
        self.journal.len() as u64
    }

    pub(crate) fn cursor(&self) -> u64
        ensures cursor { result ≡ cursor_of self.now.history }
        ensures sound { Sound self.now }
    {
        self.cursor
    }

    pub(crate) fn allocator(&self) -> Global {
        self.alloc
    }

    pub(crate) fn limits(&self) -> Limits
        ensures { result ≡ self.now.limits }
    {
        self.limits
    }

    pub(crate) fn table_count(&self) -> u32
        ensures { result ≡ length (tables (log self.now.history)) }
    {
        self.tables.len() as u32
    }

    pub(crate) fn table(&self, name: &Text) -> Option<(u32, &Table)>
        ensures { FindsTable name.now (tables (log self.now.history)) result }
    {
        self.tables.find(name)
    }

    pub(crate) fn table_at(&self, number: u32) -> Option<&Table>
        ensures { option_map (λ t. t.now) result ≡ slice_get (tables (log self.now.history)) number }
    {
        if (number as usize) < self.tables.len() {
            Some(self.tables.get(number).table())
        } else {
            None
        }
    }

    pub(crate) fn tagged(&self, table: u32, tag: &Text) -> Option<u64>
        ensures { result ≡ first_tagged (log self.now.history) table tag.now }
    {
        self.tags.find(table, tag)
    }

    pub(crate) fn events_from(&self, at: usize) -> &[Arc<Event, Global>]
        requires { at < length self.now.history }
        ensures some { 0 < length result.now }
        ensures items { StandsAt self.now.history at (map arc_value result.now) }
    {
        self.journal.part_from(at)
    }

    pub(crate) fn extents(&self, table: u32) -> &TableExtents
        requires { table < length (tables (log self.now.history)) }
        ensures records { IsPermutation (held_records (wide_held (schema_of (log self.now.history) table) result.now)) (records (log self.now.history) table) }
        ensures items { AreItems (extents self.now.history table) result.now }
        ensures typed { (t : Described) → slice_get (tables (log self.now.history)) table ≡ Some t → All (HasTypes t.schema) (rows_in self.now.history table) }
        ensures small { length (records (log self.now.history) table) < 2 ^ 63 }
    {
        self.tables.get(table).extents()
    }

    pub(crate) fn view_count(&self) -> u32
        ensures { result ≡ view_count (log self.now.history) }
    {
        self.views.len() as u32
    }

    pub(crate) fn view(&self, name: &Text) -> Option<(u32, &View)>
        ensures { FindsView name.now (views (log self.now.history)) result }
    {
        match self.views.find(name) {
            Some(number) => Some((number, self.views.get(number).view())),
            None => None,
        }
    }

    pub(crate) fn is_view(&self, name: &Text) -> bool
        ensures { result ≡ is_view name.now (log self.now.history) }
    {
        self.views.find(name).is_some()
    }

    pub(crate) fn view_at(&self, number: u32) -> Option<&View>
        ensures { option_map (λ v. v.now) result ≡ option_map (λ (v : Viewed). v.view) (slice_get (views (log self.now.history)) number) }
    {
        if (number as usize) < self.views.len() {
            Some(self.views.get(number).view())
        } else {
            None
        }
    }

    pub(crate) fn view_made(&self, view: u32) -> u64
        requires { view < view_count (log self.now.history) }
        ensures { (v : Viewed) → slice_get (views (log self.now.history)) view ≡ Some v → result ≡ v.made }
    {
        self.views.get(view).made()
    }

    pub(crate) fn view_cursor(&self, view: u32) -> u64
        requires { view < view_count (log self.now.history) }
        ensures { result ≡ view_cursor self.now.history view }
    {
        self.views.get(view).cursor()
    }

    pub(crate) fn part(&self, view: u32) -> &Parted
        requires { view < view_count (log self.now.history) }
        ensures { (v : Viewed) → slice_get (views (log self.now.history)) view ≡ Some v → HoldsPart self.now.history view v.view result.now }
    {
        self.views.get(view).part()
    }

    pub(crate) fn entries(&self, table: u32) -> &[Entry]
        requires { table < length (tables (log self.now.history)) }
        ensures { result.now ≡ policy_at (policies (log self.now.history)) table }
    {
        self.policies.entries(table)
    }

    pub(crate) fn dues(&self) -> &[Due]
        ensures { result.now ≡ dues (log self.now.history) }
    {
        self.policies.dues()
    }

    pub(crate) fn failure_count(&self) -> usize
        ensures { result ≡ length (noted (log self.now.history)) }
    {
        self.failures.len()
    }

    pub(crate) fn failures_from(&self, at: usize) -> &[Arc<Noted, Global>]
        requires { at < length (noted (log self.now.history)) }
        ensures some { 0 < length result.now }
        ensures items { StandsAt (noted (log self.now.history)) at (map arc_value result.now) }
    {
        self.failures.part_from(at)
    }

    // The commit with its edits, under the next cursor and the next ids of extents.
    fn edits(&self, intent: Intent) -> Result<Edits, Memory>
        requires { LawfulCommit self.now.limits (log self.now.history) (commit_of intent) }
        ensures { IfOk result (AreEdits (cursor_of self.now.history + 1) (1 + extents_made self.now.history) intent) }
    {
        let cursor = self.cursor + 1;
        let _place = self.place();
        match intent {
            Intent::CreateTable { name, schema } => table_edits(self.alloc, cursor, name, schema),
            Intent::SetPolicy { table, entries } => Ok(policy_edits(self.alloc, table, entries)),
            Intent::CreateView { view, part } => view_edits(self.alloc, cursor, view, part),
            Intent::AlterMerge { table, columns } => {
                column_edits(self.alloc, cursor, table, columns)
            }
            Intent::Ingest { parts, failures } => {
                part_edits(self.alloc, cursor, self.made + 1, parts, failures)
            }
        }
    }

    // The state after one event more.
    pub(crate) fn with_event(&self, by: By, intent: Intent) -> Result<State, Memory>
        requires lawful { LawfulCommit self.now.limits (log self.now.history) (commit_of intent) }
        requires begins { BeginsEmpty intent }
        ensures limits { IfOk result (λ s. s.limits ≡ self.now.limits) }
        ensures history { IfOk result (λ s. s.history ≡ self.now.history ++ event_by by intent ∷ []) }
    {
        let _place = self.place();
        let Edits {
            commit,
            changes,
            view,
            made,
        } = self.edits(intent)?;
        let tables = self.tables.with_all(self.alloc, changes)?;
        let rest = rest_after(
            self.alloc,
            &self.policies,
            &self.views,
            &self.failures,
            &self.tags,
            &commit,
            view,
            self.cursor + 1,
        )?;
        let journal = self.journal_with(by, Operation::Commit(commit))?;
        Ok(State {
            alloc: self.alloc,
            limits: self.limits,
            journal,
            tables,
            policies: rest.policies,
            views: rest.views,
            failures: rest.failures,
            tags: rest.tags,
            cursor: self.cursor + 1,
            made: self.made + made,
        })
    }

    // The id of the first of a merge's old extents, where it isn't that of the table's first small extent.
    pub(crate) fn gone(&self, merging: &Merging) -> Option<u64>
        requires { WasPicked self.now.history merging.now }
        ensures gone { IfSome result (IsGone self.now.history merging.now) }
        ensures stands { IsNone result → IsInFront (small_items self.now.history merging.now.table) merging.now.old }
    {
        let _place = self.place();
        let id = merging.old.as_slice()[0];
        if self.comes_first(merging.table, id) {
            None
        } else {
            Some(id)
        }
    }

    // Whether the first small extent of a table has this id.
    fn comes_first(&self, table: u32, id: u64) -> bool
        requires { table < length (tables (log self.now.history)) }
        ensures { result ≡ comes_first id (small_items self.now.history table) }
    {
        let small = self.extents(table).small();
        !small.is_empty() && small.get(0).id() == id
    }

    // The state after a merge whose old extents still come first among the small ones. The new extent has the next id.
    pub(crate) fn with_merge(&self, by: By, merging: Merging) -> Result<State, Memory>
        requires picked { WasPicked self.now.history merging }
        requires front { IsInFront (small_items self.now.history merging.table) merging.old }
        ensures limits { IfOk result (λ s. s.limits ≡ self.now.limits) }
        ensures history { IfOk result (λ s. s.history ≡ self.now.history ++ merge_event by (1 + extents_made self.now.history) merging ∷ []) }
    {
        let _place = self.place();
        let Merging { table, old, extent } = merging;
        let new = self.made + 1;
        let extent = Arc::new(self.alloc, extent.with_id(new))?;
        let tables = self
            .tables
            .with_merged(self.alloc, table, old.len(), extent)?;
        let rest = rest_shared(&self.policies, &self.views, &self.failures, &self.tags)?;
        let journal = self.journal_with(by, Operation::Merge { table, old, new })?;
        Ok(State {
            alloc: self.alloc,
            limits: self.limits,
            journal,
            tables,
            policies: rest.policies,
            views: rest.views,
            failures: rest.failures,
            tags: rest.tags,
            cursor: self.cursor,
            made: new,
        })
    }

    // The state after a fold that brings a view forward.
    pub(crate) fn with_fold(
        &self,
        by: By,
        view: u32,
        to: u64,
        part: Parted,
    ) -> Result<State, Memory>
        requires folded { WasFolded self.now.history view to part }
        requires ahead { view_cursor self.now.history view < to }
        ensures limits { IfOk result (λ s. s.limits ≡ self.now.limits) }
        ensures history { IfOk result (λ s. s.history ≡ self.now.history ++ fold_event by view to ∷ []) }
    {
        let views = self.views.with_fold(self.alloc, view, to, part)?;
        let rest = rest_with(&self.policies, views, &self.failures, &self.tags)?;
        let tables = self.tables.share()?;
        let journal = self.journal_with(by, Operation::Fold { view, to })?;
        Ok(State {
            alloc: self.alloc,
            limits: self.limits,
            journal,
            tables,
            policies: rest.policies,
            views: rest.views,
            failures: rest.failures,
            tags: rest.tags,
            cursor: self.cursor,
            made: self.made,
        })
    }

    // The journal with one event more.
    fn journal_with(&self, by: By, operation: Operation) -> Result<SharedList<Event>, Memory>
        ensures { IfOk result (λ events. events ≡ self.now.history ++ record { by = by; operation = operation } ∷ []) }
    {
        let mut journal = self.journal.share()?;
        journal.push(Arc::new(self.alloc, Event { by, operation })?)?;
        Ok(journal)
    }
}
