// Groups of rows by their keys.
ghost use Rattle.std.specs.Prelude.{◌≡◌, ◌<◌, ◌≤◌, ◌++◌, List, [], IfNone, IfOk, IfSome, IsTrue, OnOk, ◌↔◌, ◌^◌, length, map, replicate};
ghost use Rattle.std.specs.List.{All};
ghost use Rattle.kq_value.specs.Computed.{Answers, AnswersAs, Is, and_then};
ghost use Rattle.kq_store_rows.specs.Chunks.{HasWidth, row_at};
ghost use Rattle.kq_run_aggregates.specs.Alone.{each_alone};
ghost use Rattle.kq_run_aggregates.specs.Tables.{Numbered};
ghost use Rattle.kq_run_groups.specs.Arguments.{rows_given};
ghost use Rattle.kq_run_groups.specs.Columns.{HaveLength, rows_of};
ghost use Rattle.kq_store_column_view.specs.Vectors.{cells_of};
ghost use Rattle.kq_run_groups.specs.Grouped.{AreKeys, FitArgs, IsGrouped};
ghost use Rattle.kq_value.specs.Same.{times};
ghost use Rattle.kq_run_groups.specs.Groups.{AddsRows, EndsWide, HasAllGroups, Starts, cells_from, rows_from, shape_of};
ghost use Rattle.kq_run_groups.specs.Found.{FoundBetween};
ghost use Rattle.kq_run_groups.specs.Keys.{IsTable, key_hash};
ghost use Rattle.kq_run_groups.specs.Merges.{Lacks, Merges, picked};

use crate::aggregated::Aggregated;
use crate::argument::Argument;
use crate::cells::hash;
use crate::gathered::{all_fresh, gather_all};
use crate::hint::Hint;
use crate::key_table::KeyTable;
use crate::merged::{absorb_all, all_places};
use kq_run_aggregates::States;
use kq_store_column_view::Vector;
use kq_store_rows::Rows;
use kq_value::{EvalFault, Memory, Row, Value};
use std::alloc::Global;
use std::marker::Model;

/// Groups of rows by their keys, and what each aggregate keeps of them. Contracts see the groups' keys, and the states by the groups' numbers.
#[derive(Drop)]
pub struct Groups {
    keys: KeyTable,
    hint: Hint,
    states: Vec<States>,
}

impl Model for Groups {
    ghost use Rattle.std.specs.Coded.{codes};
    ghost use Rattle.kq_value.specs.contracts.value.Value as value;
    ghost use Rattle.kq_run_groups.specs.Groups.{Grouping};
    ghost use Rattle.kq_run_groups.specs.Keys.{IsTable};

    ghost Value = { Grouping };

    ghost coded = { Prim.hlevel (codes, value.the_row.coded) };

    ghost view = { λ g. record { width = g.keys.width; keys = g.keys.keys; states = g.states.items } };

    ghost invariant = { λ g. IsTable g.keys };
}

impl Groups {
    /// Groups of no rows. Keys have so many cells; where they have none, there is the one empty key.
    pub fn new(alloc: Global, width: usize, aggregates: &[Aggregated]) -> Result<Groups, Memory>
        ensures { IfOk result (Starts width aggregates.now) }
    {
        let keys = first_keys(alloc, width)?;
        let states = all_fresh(alloc, aggregates, keys.keys.len())?;
        Ok(Groups {
            keys,
            hint: Hint::new(alloc),
            states,
        })
    }

    /// No groups, not even that of the one empty key.
    pub fn none(alloc: Global, width: usize, aggregates: &[Aggregated]) -> Result<Groups, Memory>
        ensures { IfOk result (Lacks width aggregates.now) }
    {
        let keys = KeyTable::new(alloc, width)?;
        let states = all_fresh(alloc, aggregates, 0)?;
        Ok(Groups {
            keys,
            hint: Hint::new(alloc),
            states,
        })
    }

    /// The number of groups. Their keys are different ones.
    pub fn len(&self) -> usize
        ensures count { result ≡ length self.now.keys }
        ensures small { result < 2 ^ 32 }
        ensures apart { (k : List Value) → times k self.now.keys ≤ 1 }
        ensures wide { All (HasWidth self.now.width) self.now.keys }
    {
        self.keys.keys.len()
    }

    /// Whether there are none.
    pub fn is_empty(&self) -> bool
        ensures { IsTrue result ↔ (self.now.keys ≡ []) }
    {
        self.keys.keys.is_empty()
    }

    /// The number of the group with a key. It takes no memory.
    pub fn get(&self, key: &[Value]) -> Option<usize>
        ensures found { IfSome result (λ n. (n < length self.now.keys) × (row_at self.now.keys n ≡ key.now)) }
        ensures absent { IfNone result (times key.now self.now.keys ≡ 0) }
    {
        self.keys.find(hash(key), key)
    }

    /// The hash of the key of a group.
    pub fn hash_at(&self, group: usize) -> u64
        requires { group < length self.now.keys }
        ensures { result ≡ key_hash (row_at self.now.keys group) }
    {
        self.keys.hashes[group]
    }

    /// Takes in rows with these keys and, for each aggregate, arguments. After a refusal the groups are to be dropped.
    pub fn add(&mut self, alloc: Global, keys: &Rows, args: &[Argument<'_>]) -> Result<(), Memory>
        requires whole { HasAllGroups self.old }
        requires wide { All (HasWidth self.old.width) keys.now }
        requires each { length args.now ≡ length self.old.states }
        requires along { All (λ rows. length rows ≡ length keys.now) (rows_given (length keys.now) args.now) }
        ensures { OnOk result (AddsRows keys.now (rows_given (length keys.now) args.now) self.old self.new) }
    {
        let numbers = self.keys.numbers(alloc, keys)?;
        let count = self.keys.keys.len();
        gather_all(
            alloc,
            self.states.as_mut_slice(),
            count,
            numbers.as_slice(),
            args,
        )
    }

    /// The same of keys of one cell each, those of a column.
    pub fn add_column(
        &mut self,
        alloc: Global,
        keys: &Vector<'_>,
        args: &[Argument<'_>],
    ) -> Result<(), Memory>
        requires whole { HasAllGroups self.old }
        requires wide { self.old.width ≡ 1 }
        requires each { length args.now ≡ length self.old.states }
        requires along { All (λ rows. length rows ≡ length (cells_of keys.now)) (rows_given (length (cells_of keys.now)) args.now) }
        ensures { OnOk result (AddsRows (each_alone (cells_of keys.now)) (rows_given (length (cells_of keys.now)) args.now) self.old self.new) }
    {
        let numbers = self.keys.numbers_of_column(alloc, keys, &mut self.hint)?;
        let count = self.keys.keys.len();
        gather_all(
            alloc,
            self.states.as_mut_slice(),
            count,
            numbers.as_slice(),
            args,
        )
    }

    /// The same of so many rows, all of the one key of no cells.
    pub fn add_without_keys(
        &mut self,
        alloc: Global,
        count: usize,
        args: &[Argument<'_>],
    ) -> Result<(), Memory>
        requires whole { HasAllGroups self.old }
        requires wide { self.old.width ≡ 0 }
        requires each { length args.now ≡ length self.old.states }
        requires along { All (λ rows. length rows ≡ count) (rows_given count args.now) }
        ensures { OnOk result (AddsRows (replicate count []) (rows_given count args.now) self.old self.new) }
    {
        let numbers = self.keys.numbers_without_cells(alloc, count)?;
        let groups = self.keys.keys.len();
        gather_all(
            alloc,
            self.states.as_mut_slice(),
            groups,
            numbers.as_slice(),
            args,
        )
    }

    /// The same of so many rows with keys of several cells, those that stand in these columns.
    pub fn add_columns(
        &mut self,
        alloc: Global,
        columns: &[Vector<'_>],
        count: usize,
        args: &[Argument<'_>],
    ) -> Result<(), Memory>
        requires whole { HasAllGroups self.old }
        requires wide { self.old.width ≡ length columns.now }
        requires beside { HaveLength count (map cells_of columns.now) }
        requires each { length args.now ≡ length self.old.states }
        requires along { All (λ rows. length rows ≡ count) (rows_given count args.now) }
        ensures { OnOk result (AddsRows (rows_of count (map cells_of columns.now)) (rows_given count args.now) self.old self.new) }
    {
        let numbers = self
            .keys
            .numbers_of_columns(alloc, columns, count, &mut self.hint)?;
        let groups = self.keys.keys.len();
        gather_all(
            alloc,
            self.states.as_mut_slice(),
            groups,
            numbers.as_slice(),
            args,
        )
    }

    /// Takes in the groups of another, key by key: their rows come after those that are there. After a refusal the groups are to be dropped.
    pub fn merge(&mut self, alloc: Global, other: &Groups) -> Result<(), Memory>
        requires whole { HasAllGroups self.old }
        requires other_whole { HasAllGroups other.now }
        requires width { other.now.width ≡ self.old.width }
        requires shapes { map shape_of other.now.states ≡ map shape_of self.old.states }
        ensures { OnOk result (Merges other.now self.old self.new) }
    {
        let places = all_places(alloc, other.len())?;
        self.merge_at(alloc, other, places.as_slice())
    }

    /// The same of those groups of the other that have these numbers, each once.
    pub fn merge_at(&mut self, alloc: Global, other: &Groups, places: &[u32]) -> Result<(), Memory>
        requires whole { HasAllGroups self.old }
        requires other_whole { HasAllGroups other.now }
        requires width { other.now.width ≡ self.old.width }
        requires shapes { map shape_of other.now.states ≡ map shape_of self.old.states }
        requires within { All (λ n. n < length other.now.keys) places.now }
        requires once { (k : List Value) → times k (map (row_at other.now.keys) places.now) ≤ 1 }
        ensures { OnOk result (Merges (picked places.now other.now) self.old self.new) }
    {
        let numbers = self.keys.numbers_at(alloc, &other.keys, places)?;
        let count = self.keys.keys.len();
        absorb_all(
            alloc,
            self.states.as_mut_slice(),
            count,
            numbers.as_slice(),
            other.states.as_slice(),
            places,
        )
    }

    /// Where the groups of another are among these, by their keys: those whose numbers go from one up to another. It changes nothing, so that several
    /// threads may
    /// each look for some.
    pub fn find_between(
        &self,
        alloc: Global,
        other: &Groups,
        from: usize,
        to: usize,
    ) -> Result<Vec<Option<u32>>, Memory>
        requires order { from ≤ to }
        requires within { to ≤ length other.now.keys }
        ensures { IfOk result (λ v. FoundBetween self.now.keys other.now.keys from to v.items) }
    {
        self.keys.find_between(alloc, &other.keys, from, to)
    }

    /// As `merge`, where it is known which of the other's groups are among these.
    pub fn merge_found(
        &mut self,
        alloc: Global,
        other: &Groups,
        found: &[Option<u32>],
    ) -> Result<(), Memory>
        requires whole { HasAllGroups self.old }
        requires other_whole { HasAllGroups other.now }
        requires width { other.now.width ≡ self.old.width }
        requires shapes { map shape_of other.now.states ≡ map shape_of self.old.states }
        requires found { FoundBetween self.old.keys other.now.keys 0 (length other.now.keys) found.now }
        ensures { OnOk result (Merges other.now self.old self.new) }
    {
        let places = all_places(alloc, other.len())?;
        let numbers = self.keys.numbers_found(alloc, &other.keys, found)?;
        let count = self.keys.keys.len();
        absorb_all(
            alloc,
            self.states.as_mut_slice(),
            count,
            numbers.as_slice(),
            other.states.as_slice(),
            places.as_slice(),
        )
    }

    /// A row for each group: its key, and then the cells of the aggregates in order.
    pub fn rows(&self, alloc: Global) -> Result<Rows, EvalFault>
        requires whole { HasAllGroups self.now }
        requires wide { All EndsWide self.now.states }
        ensures { Answers (rows_from self.now.states self.now.keys 0) result }
    {
        let mut rows = Rows::new(alloc);
        let mut cells = Vec::new(alloc);
        for group in 0..self.keys.keys.len() {
            self.put_row(alloc, group, &mut cells)?;
            rows.push_from(&mut cells)?;
        }
        Ok(rows)
    }

    // The row of a group, after what is there.
    fn put_row(&self, alloc: Global, group: usize, out: &mut Vec<Value>) -> Result<(), EvalFault>
        requires whole { HasAllGroups self.now }
        requires within { group < length self.now.keys }
        ensures { AnswersAs (λ done. out.new.items) (and_then (cells_from self.now.states group) (λ cells. Is (out.old.items ++ row_at self.now.keys group ++ cells))) result }
    {
        put_copies(out, self.keys.keys.row(group))?;
        put_cells(alloc, self.states.as_slice(), group, out)
    }
}

// The keys of no rows.
fn first_keys(alloc: Global, width: usize) -> Result<KeyTable, Memory>
    ensures table { IfOk result (λ t. IsTable t) }
    ensures width { IfOk result (λ t. t.width ≡ width) }
    ensures keys { IfOk result (λ t. AreKeys width [] t.keys) }
{
    let mut keys = KeyTable::new(alloc, width)?;
    if width == 0 {
        let empty = Row::new(alloc);
        keys.number(alloc, empty.as_slice())?;
    }
    Ok(keys)
}

// Copies of these cells, after those that are there.
fn put_copies(out: &mut Vec<Value>, cells: &[Value]) -> Result<(), Memory>
    ensures { OnOk result (out.new.items ≡ out.old.items ++ cells.now) }
{
    out.extend_from_slice(cells)
}

// The cells of a group, after those that are there.
fn put_cells(
    alloc: Global,
    states: &[States],
    group: usize,
    out: &mut Vec<Value>,
) -> Result<(), EvalFault>
    requires { All (λ (s : Numbered). group < length s.kept) states.now }
    ensures { AnswersAs (λ done. out.new.items) (and_then (cells_from states.now group) (λ cells. Is (out.old.items ++ cells))) result }
{
    for one in states {
        one.finish(alloc, group, out)?;
    }
    Ok(())
}

/// The rows of a summarize over rows with these keys, of so many cells, and for each aggregate these arguments.
pub fn group_rows(
    alloc: Global,
    width: usize,
    keys: &Rows,
    args: &[Argument<'_>],
    aggregates: &[Aggregated],
) -> Result<Rows, EvalFault>
    requires wide { All (HasWidth width) keys.now }
    requires along { All (λ rows. length rows ≡ length keys.now) (rows_given (length keys.now) args.now) }
    requires fit { FitArgs aggregates.now (rows_given (length keys.now) args.now) }
    ensures { IsGrouped width aggregates.now keys.now (rows_given (length keys.now) args.now) result }
{
    let mut groups = Groups::new(alloc, width, aggregates)?;
    groups.add(alloc, keys, args)?;
    groups.rows(alloc)
}
