// What stood in a catalogue.
ghost use Rattle.std.specs.Prelude.{◌≡◌, ◌<◌, ◌^◌, All, IfOk, Some, length, map, option_map, slice_get};
ghost use Rattle.std.specs.List.Sorted.{IsPermutation};
ghost use Rattle.std.specs.Arc.{arc_value};
ghost use Rattle.kq_value.specs.Typed.{HasTypes};
ghost use Rattle.kq_store_shared_lists.specs.Standing.{StandsAt};
ghost use Rattle.kq_store_extent.specs.Seen.{held_records};
ghost use Rattle.kq_store_extent.specs.Wide.{wide_held};
ghost use Rattle.kq_catalog_journal.specs.declared.table.Table.{Table as Described};
ghost use Rattle.kq_catalog_journal.specs.History.{log, cursor as cursor_of, tables, Viewed, views, view_count, is_view, view_cursor};
ghost use Rattle.kq_catalog_journal.specs.Force.{policy_at};
ghost use Rattle.kq_catalog_journal.specs.Policies.{dues, noted, policies};
ghost use Rattle.kq_catalog_journal.specs.Records.{records, rows_in, extents, schema_of};
ghost use Rattle.kq_catalog_journal.specs.Tagged.{first_tagged};
ghost use Rattle.kq_catalog.specs.Held.{AreItems, FindsTable};
ghost use Rattle.kq_catalog.specs.Seen.{Sound};
ghost use Rattle.kq_catalog.specs.Views.{FindsView, HoldsPart};

use crate::state::State;
use kq_catalog_journal::{Due, Entry, Event, Limits, Noted, Table, View};
use kq_run_shards::Parted;
use kq_store_extent::TableExtents;
use kq_value::{Memory, Text};
use std::alloc::Global;
use std::marker::Model;
use std::sync::Arc;

/// What stood in a catalogue at one place of its journal: a handle of the state, which nothing changes.
#[derive(Drop)]
pub struct Snapshot {
    pub(crate) state: Arc<State, Global>,
}

impl Model for Snapshot {
    ghost use Rattle.std.specs.Arc.{arc_value};
    ghost use Rattle.std.specs.Coded.{codes};
    ghost use Rattle.kq_value.specs.contracts.value.Value as cell;
    ghost use Rattle.kq_plan_expressions.specs.contracts.expr.Expr as expr;
    ghost use Rattle.kq_catalog.specs.Seen.{CatalogView};

    ghost Value = { CatalogView };

    ghost coded = { Prim.hlevel (codes, cell.the_row.coded, expr.the_row.coded) };

    ghost view = { λ s. arc_value s.state };
}

impl Snapshot {
    /// The number of events.
    pub fn place(&self) -> u64
        ensures { result ≡ length self.now.history }
    {
        self.state.place()
    }

    /// The number of client commits.
    pub fn cursor(&self) -> u64
        ensures cursor { result ≡ cursor_of self.now.history }
        ensures sound { Sound self.now }
    {
        self.state.cursor()
    }

    /// The allocator that it keeps.
    pub fn allocator(&self) -> Global {
        self.state.allocator()
    }

    pub fn limits(&self) -> Limits
        ensures { result ≡ self.now.limits }
    {
        self.state.limits()
    }

    /// The number of tables.
    pub fn table_count(&self) -> u32
        ensures { result ≡ length (tables (log self.now.history)) }
    {
        self.state.table_count()
    }

    /// The table of a name, with its number, found without a walk over the tables.
    pub fn table(&self, name: &Text) -> Option<(u32, &Table)>
        ensures { FindsTable name.now (tables (log self.now.history)) result }
    {
        self.state.table(name)
    }

    /// The table of a number.
    pub fn table_at(&self, number: u32) -> Option<&Table>
        ensures { option_map (λ t. t.now) result ≡ slice_get (tables (log self.now.history)) number }
    {
        self.state.table_at(number)
    }

    /// The cursor of the first commit that gave a table, by its number, an extent with the tag. No extent or event is looked at.
    pub fn tagged(&self, table: u32, tag: &Text) -> Option<u64>
        ensures { result ≡ first_tagged (log self.now.history) table tag.now }
    {
        self.state.tagged(table, tag)
    }

    /// The entries of a table's update policy, by the table's number, in array order.
    pub fn entries(&self, table: u32) -> &[Entry]
        requires { table < length (tables (log self.now.history)) }
        ensures { result.now ≡ policy_at (policies (log self.now.history)) table }
    {
        self.state.entries(table)
    }

    /// The enabled entries of all policies: targets in the order of their creation, and entries in array order.
    pub fn dues(&self) -> &[Due]
        ensures { result.now ≡ dues (log self.now.history) }
    {
        self.state.dues()
    }

    /// The number of failures that ingestions noted.
    pub fn failure_count(&self) -> usize
        ensures { result ≡ length (noted (log self.now.history)) }
    {
        self.state.failure_count()
    }

    /// Some failures in a row, from a place on: a walk takes them, and goes on behind them.
    pub fn failures_from(&self, at: usize) -> &[Arc<Noted, Global>]
        requires { at < length (noted (log self.now.history)) }
        ensures some { 0 < length result.now }
        ensures items { StandsAt (noted (log self.now.history)) at (map arc_value result.now) }
    {
        self.state.failures_from(at)
    }

    /// The number of views.
    pub fn view_count(&self) -> u32
        ensures { result ≡ view_count (log self.now.history) }
    {
        self.state.view_count()
    }

    /// The view of a name, with its number, found without a walk over the views.
    pub fn view(&self, name: &Text) -> Option<(u32, &View)>
        ensures { FindsView name.now (views (log self.now.history)) result }
    {
        self.state.view(name)
    }

    /// Whether a view has the name.
    pub fn is_view(&self, name: &Text) -> bool
        ensures { result ≡ is_view name.now (log self.now.history) }
    {
        self.state.is_view(name)
    }

    /// The view of a number.
    pub fn view_at(&self, number: u32) -> Option<&View>
        ensures { option_map (λ v. v.now) result ≡ option_map (λ (v : Viewed). v.view) (slice_get (views (log self.now.history)) number) }
    {
        self.state.view_at(number)
    }

    /// The cursor of the commit that made a view, by its number.
    pub fn view_made(&self, view: u32) -> u64
        requires { view < view_count (log self.now.history) }
        ensures { (v : Viewed) → slice_get (views (log self.now.history)) view ≡ Some v → result ≡ v.made }
    {
        self.state.view_made(view)
    }

    /// The cursor up to which a view, by its number, is materialized.
    pub fn view_cursor(&self, view: u32) -> u64
        requires { view < view_count (log self.now.history) }
        ensures { result ≡ view_cursor self.now.history view }
    {
        self.state.view_cursor(view)
    }

    /// The part of a view by its number: it stands for the records that the view covers up to the view's cursor.
    pub fn part(&self, view: u32) -> &Parted
        requires { view < view_count (log self.now.history) }
        ensures { (v : Viewed) → slice_get (views (log self.now.history)) view ≡ Some v → HoldsPart self.now.history view v.view result.now }
    {
        self.state.part(view)
    }

    /// Some events in a row, from a place on: a walk takes them, and goes on behind them.
    pub fn events_from(&self, at: usize) -> &[Arc<Event, Global>]
        requires { at < length self.now.history }
        ensures some { 0 < length result.now }
        ensures items { StandsAt self.now.history at (map arc_value result.now) }
    {
        self.state.events_from(at)
    }

    /// The extents of a table by its number: each record of the table stands once in them, widened to the table's columns, and
    /// nothing else does.
    pub fn extents(&self, table: u32) -> &TableExtents
        requires { table < length (tables (log self.now.history)) }
        ensures records { IsPermutation (held_records (wide_held (schema_of (log self.now.history) table) result.now)) (records (log self.now.history) table) }
        ensures items { AreItems (extents self.now.history table) result.now }
        ensures typed { (t : Described) → slice_get (tables (log self.now.history)) table ≡ Some t → All (HasTypes t.schema) (rows_in self.now.history table) }
        ensures small { length (records (log self.now.history) table) < 2 ^ 63 }
    {
        self.state.extents(table)
    }

    /// A second handle of the same state.
    pub fn share(&self) -> Result<Snapshot, Memory>
        ensures { IfOk result (λ s. s ≡ self.now) }
    {
        let state = Arc::try_clone(&self.state)?;
        Ok(Snapshot { state })
    }
}
