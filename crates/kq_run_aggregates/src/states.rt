// The states of an aggregate.
ghost use Rattle.std.specs.Prelude.{◌≡◌, ◌↔◌, ◌<◌, List, [], IsTrue, OnOk, OnErr, length, map, replicate};
ghost use Rattle.std.specs.List.{All};
ghost use Rattle.kq_store_column_view.specs.Vectors.{cells_of};
ghost use Rattle.kq_run_aggregates.specs.Steps.{ChangesAt, PutsFinished, Grows, Joins, MayRefuse, MayRefuseBoth, Steps, TakesIn, TakesInUpTo, TakesSome, kept_at};
ghost use Rattle.kq_run_aggregates.specs.Tables.{SameShape};
ghost use Rattle.kq_run_aggregates.specs.Alone.{each_alone};
ghost use Rattle.kq_run_aggregates.specs.Across.{rows_across};

use crate::kind::Kind;
use crate::table::Table;
use kq_store_column_view::Vector;
use kq_value::{EvalFault, Memory, Ty, Value};
use std::alloc::Global;
use std::marker::Model;

/// The states of one aggregate for all groups, by the groups' numbers from 0. Contracts see what is kept of each group.
///
/// A row of arguments is the values of the aggregate's arguments over a row: none for count, one for sum, min, max and make_set, the key and then the
/// columns for arg_max and arg_min, and the columns for take_any.
#[derive(Drop)]
pub struct States {
    table: Table,
    types: Vec<Ty>,
}

impl Model for States {
    ghost use Rattle.std.specs.Coded.{codes};
    ghost use Rattle.kq_run_aggregates.specs.Tables.{Numbered, kind_of, kept_of};
    ghost use Rattle.kq_value.specs.contracts.value.Value as value;

    ghost Value = { Numbered };

    ghost coded = { Prim.hlevel (codes, value.the_row.coded) };

    ghost view = { λ s. record { kind = kind_of s.table; types = s.types.items; kept = kept_of s.table } };
}

impl States {
    /// The states of no groups. The types are those of the aggregate's columns.
    pub fn new(alloc: Global, kind: Kind, types: Vec<Ty>) -> States
        ensures { result ≡ record { kind = kind; types = types.items; kept = [] } }
    {
        States {
            table: Table::new(alloc, kind),
            types,
        }
    }

    /// The number of groups.
    pub fn len(&self) -> usize
        ensures { result ≡ length self.now.kept }
    {
        self.table.len()
    }

    pub fn is_empty(&self) -> bool
        ensures { IsTrue result ↔ (length self.now.kept ≡ 0) }
    {
        self.len() == 0
    }

    /// One group more, of no rows. Its number is that of the groups before.
    pub fn grow(&mut self, alloc: Global) -> Result<(), Memory>
        ensures shape { SameShape self.old self.new }
        ensures ok { OnOk result (Grows self.old.kind self.old.kept self.new.kept) }
        ensures err { OnErr result (self.new ≡ self.old) }
    {
        self.table.grow(alloc)
    }

    /// One row more of a group.
    pub fn step(&mut self, alloc: Global, group: usize, args: &[Value]) -> Result<(), Memory>
        requires { group < length self.old.kept }
        ensures shape { SameShape self.old self.new }
        ensures ok { OnOk result (ChangesAt group (Steps self.old.kind args.now) self.old.kept self.new.kept) }
        ensures err { OnErr result ((self.new ≡ self.old) × MayRefuse (kept_at self.old.kept group)) }
    {
        self.table.step(alloc, group, args)
    }

    /// Rows more of no cells, each of the group whose number stands beside it. After a refusal those before the row that was refused are taken in.
    pub fn step_bare(&mut self, alloc: Global, groups: &[u32]) -> Result<(), Memory>
        requires { All (λ g. g < length self.old.kept) groups.now }
        ensures shape { SameShape self.old self.new }
        ensures ok { OnOk result (TakesIn self.old.kind groups.now (replicate (length groups.now) []) self.old.kept self.new.kept) }
        ensures err { OnErr result (TakesInUpTo self.old.kind groups.now (replicate (length groups.now) []) self.old.kept self.new.kept) }
    {
        self.table.step_bare(alloc, groups)
    }

    /// Rows more of one cell each, those of a column, each of the group whose number stands beside it. After a refusal those before the row that was
    /// refused are taken in.
    pub fn step_column(
        &mut self,
        alloc: Global,
        groups: &[u32],
        column: &Vector<'_>,
    ) -> Result<(), Memory>
        requires along { length groups.now ≡ length (cells_of column.now) }
        requires known { All (λ g. g < length self.old.kept) groups.now }
        ensures shape { SameShape self.old self.new }
        ensures ok { OnOk result (TakesIn self.old.kind groups.now (each_alone (cells_of column.now)) self.old.kept self.new.kept) }
        ensures err { OnErr result (TakesSome self.old.kind groups.now (each_alone (cells_of column.now)) self.old.kept self.new.kept) }
    {
        self.table.step_column(alloc, groups, column)
    }

    /// Rows more whose cells stand in these columns, each of the group whose number stands beside it. After a refusal those before the row that was
    /// refused are taken in.
    pub fn step_columns(
        &mut self,
        alloc: Global,
        groups: &[u32],
        columns: &[Vector<'_>],
    ) -> Result<(), Memory>
        requires { All (λ g. g < length self.old.kept) groups.now }
        ensures shape { SameShape self.old self.new }
        ensures ok { OnOk result (TakesIn self.old.kind groups.now (rows_across (length groups.now) (map cells_of columns.now)) self.old.kept self.new.kept) }
        ensures err { OnErr result (TakesSome self.old.kind groups.now (rows_across (length groups.now) (map cells_of columns.now)) self.old.kept self.new.kept) }
    {
        self.table.step_columns(alloc, groups, columns)
    }

    /// The rows of another's group too, after those of a group.
    pub fn merge(
        &mut self,
        alloc: Global,
        group: usize,
        other: &States,
        from: usize,
    ) -> Result<(), Memory>
        requires same { other.now.kind ≡ self.old.kind }
        requires within { group < length self.old.kept }
        requires from { from < length other.now.kept }
        ensures shape { SameShape self.old self.new }
        ensures ok { OnOk result (ChangesAt group (Joins self.old.kind (kept_at other.now.kept from)) self.old.kept self.new.kept) }
        ensures err { OnErr result ((self.new ≡ self.old) × MayRefuseBoth (kept_at self.old.kept group) (kept_at other.now.kept from)) }
    {
        self.table.merge(alloc, group, &other.table, from)
    }

    /// Puts the cells of a group after those that are there. After a fault some may be there.
    pub fn finish(&self, alloc: Global, group: usize, out: &mut Vec<Value>) -> Result<(), EvalFault>
        requires { group < length self.now.kept }
        ensures { PutsFinished self.now.types (kept_at self.now.kept group) out.old.items out.new.items result }
    {
        self.table.finish(alloc, group, self.types.as_slice(), out)
    }
}
