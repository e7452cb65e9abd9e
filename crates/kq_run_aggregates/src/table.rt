// The states of all groups of one aggregate.
ghost use Rattle.std.specs.Prelude.{◌≡◌, ◌<◌, [], ◌∷◌, ◌++◌, OnOk, OnErr, length, map, replicate};
ghost use Rattle.std.specs.List.{All};
ghost use Rattle.kq_store_column_view.specs.Vectors.{cell_of, cells_of};
ghost use Rattle.kq_run_aggregates.specs.Across.{across, rows_across};
ghost use Rattle.kq_run_aggregates.specs.Alone.{alone, cell_as, each_alone};
ghost use Rattle.kq_run_aggregates.specs.Ranks.{first_of};
ghost use Rattle.kq_run_aggregates.specs.Steps.{ChangesAt, PutsFinished, Joins, MayRefuse, MayRefuseBoth, Steps, TakesIn, TakesInUpTo, TakesSome, kept_at, none_kept};
ghost use Rattle.kq_run_aggregates.specs.Tables.{kind_of, kept_of};

use crate::across::{row_across, step_placed};
use crate::columns::{count_each, offer_each, sum_each};
use crate::count::Count;
use crate::finish::{put_row, put_sum, put_value};
use crate::kind::{Choice, Kind, Side, first_or};
use crate::reading::{Reading, numbers_in};
use crate::set::Set;
use crate::sum::Sum;
use crate::taken::{merge_row, merge_value, step_row, step_value};
use kq_store_column_view::Vector;
use kq_value::{EvalFault, Memory, Row, Ty, Value};
use std::alloc::Global;
use std::slice::from_ref;

// A state for each group, by the group's number.
#[derive(Drop)]
pub(crate) enum Table {
    Counts(Vec<Count>),
    Sums(Vec<Sum>),
    Extremes(Side, Vec<Option<Value>>),
    Chosen(Choice, Vec<Option<Row>>),
    Sets(u64, Vec<Set>),
}

fn push_to<T: Drop>(states: &mut Vec<T>, state: T) -> Result<(), Memory>
    ensures ok { OnOk result (states.new.items ≡ states.old.items ++ state ∷ []) }
    ensures err { OnErr result (states.new.items ≡ states.old.items) }
{
    states.push(state)?;
    Ok(())
}

impl Table {
    // The states of no groups.
    pub(crate) fn new(alloc: Global, kind: Kind) -> Table
        ensures kind { kind_of result ≡ kind }
        ensures kept { kept_of result ≡ [] }
    {
        match kind {
            Kind::Count => Table::Counts(Vec::new(alloc)),
            Kind::Sum => Table::Sums(Vec::new(alloc)),
            Kind::Min => Table::Extremes(Side::Least, Vec::new(alloc)),
            Kind::Max => Table::Extremes(Side::Greatest, Vec::new(alloc)),
            Kind::ArgMax => Table::Chosen(Choice::By(Side::Greatest), Vec::new(alloc)),
            Kind::ArgMin => Table::Chosen(Choice::By(Side::Least), Vec::new(alloc)),
            Kind::TakeAny => Table::Chosen(Choice::Any, Vec::new(alloc)),
            Kind::MakeSet(most) => Table::Sets(most, Vec::new(alloc)),
        }
    }

    // The number of groups.
    pub(crate) fn len(&self) -> usize
        ensures { result ≡ length (kept_of self.now) }
    {
        match self {
            Table::Counts(counts) => counts.len(),
            Table::Sums(sums) => sums.len(),
            Table::Extremes(_, values) => values.len(),
            Table::Chosen(_, rows) => rows.len(),
            Table::Sets(_, sets) => sets.len(),
        }
    }

    // One group more, of no rows.
    pub(crate) fn grow(&mut self, alloc: Global) -> Result<(), Memory>
        ensures kind { kind_of self.new ≡ kind_of self.old }
        ensures ok { OnOk result (kept_of self.new ≡ kept_of self.old ++ none_kept (kind_of self.old) ∷ []) }
        ensures err { OnErr result (kept_of self.new ≡ kept_of self.old) }
    {
        match self {
            Table::Counts(counts) => push_to(counts, Count::new()),
            Table::Sums(sums) => push_to(sums, Sum::new()),
            Table::Extremes(_, values) => push_to(values, None),
            Table::Chosen(_, rows) => push_to(rows, None),
            Table::Sets(_, sets) => push_to(sets, Set::new(alloc)),
        }
    }

    // One row more of a group.
    pub(crate) fn step(&mut self, alloc: Global, group: usize, args: &[Value]) -> Result<(), Memory>
        requires { group < length (kept_of self.old) }
        ensures kind { kind_of self.new ≡ kind_of self.old }
        ensures ok { OnOk result (ChangesAt group (Steps (kind_of self.old) args.now) (kept_of self.old) (kept_of self.new)) }
        ensures err { OnErr result ((kept_of self.new ≡ kept_of self.old) × MayRefuse (kept_at (kept_of self.old) group)) }
    {
        let null = Value::Null(Ty::Long);
        self.step_from(alloc, group, args, first_or(args, &null))
    }

    fn step_from(
        &mut self,
        alloc: Global,
        group: usize,
        args: &[Value],
        first: &Value,
    ) -> Result<(), Memory>
        requires within { group < length (kept_of self.old) }
        requires first { first.now ≡ first_of args.now }
        ensures kind { kind_of self.new ≡ kind_of self.old }
        ensures ok { OnOk result (ChangesAt group (Steps (kind_of self.old) args.now) (kept_of self.old) (kept_of self.new)) }
        ensures err { OnErr result ((kept_of self.new ≡ kept_of self.old) × MayRefuse (kept_at (kept_of self.old) group)) }
    {
        match self {
            Table::Counts(counts) => counts[group].step(),
            Table::Sums(sums) => sums[group].step(first),
            Table::Extremes(side, values) => step_value(&mut values[group], *side, first),
            Table::Chosen(choice, rows) => step_row(alloc, &mut rows[group], *choice, args),
            Table::Sets(most, sets) => sets[group].step(*most, first),
        }
    }

    // Rows of no cells, each of the group whose number stands beside it.
    pub(crate) fn step_bare(&mut self, alloc: Global, groups: &[u32]) -> Result<(), Memory>
        requires { All (λ g. g < length (kept_of self.old)) groups.now }
        ensures kind { kind_of self.new ≡ kind_of self.old }
        ensures ok { OnOk result (TakesIn (kind_of self.old) groups.now (replicate (length groups.now) []) (kept_of self.old) (kept_of self.new)) }
        ensures err { OnErr result (TakesInUpTo (kind_of self.old) groups.now (replicate (length groups.now) []) (kept_of self.old) (kept_of self.new)) }
    {
        match self {
            Table::Counts(counts) => count_each(counts, groups),
            _ => self.step_bare_rows(alloc, groups),
        }
    }

    fn step_bare_rows(&mut self, alloc: Global, groups: &[u32]) -> Result<(), Memory>
        requires { All (λ g. g < length (kept_of self.old)) groups.now }
        ensures kind { kind_of self.new ≡ kind_of self.old }
        ensures ok { OnOk result (TakesIn (kind_of self.old) groups.now (replicate (length groups.now) []) (kept_of self.old) (kept_of self.new)) }
        ensures err { OnErr result (TakesInUpTo (kind_of self.old) groups.now (replicate (length groups.now) []) (kept_of self.old) (kept_of self.new)) }
    {
        for (i, group) in groups.iter().enumerate() {
            self.step(alloc, *group as usize, &[])?;
        }
        Ok(())
    }

    // Rows of the cells of a column.
    pub(crate) fn step_column(
        &mut self,
        alloc: Global,
        groups: &[u32],
        column: &Vector<'_>,
    ) -> Result<(), Memory>
        requires along { length groups.now ≡ length (cells_of column.now) }
        requires known { All (λ g. g < length (kept_of self.old)) groups.now }
        ensures kind { kind_of self.new ≡ kind_of self.old }
        ensures ok { OnOk result (TakesIn (kind_of self.old) groups.now (each_alone (cells_of column.now)) (kept_of self.old) (kept_of self.new)) }
        ensures err { OnErr result (TakesSome (kind_of self.old) groups.now (each_alone (cells_of column.now)) (kept_of self.old) (kept_of self.new)) }
    {
        match numbers_in(column) {
            Some((reading, numbers)) => self.step_numbers(alloc, groups, reading, numbers),
            None => self.step_cells(alloc, groups, column),
        }
    }

    // The states of one form are looked at once for all rows.
    fn step_numbers(
        &mut self,
        alloc: Global,
        groups: &[u32],
        reading: Reading,
        numbers: &[i64],
    ) -> Result<(), Memory>
        requires along { length groups.now ≡ length numbers.now }
        requires known { All (λ g. g < length (kept_of self.old)) groups.now }
        ensures kind { kind_of self.new ≡ kind_of self.old }
        ensures ok { OnOk result (TakesIn (kind_of self.old) groups.now (each_alone (map (cell_as reading) numbers.now)) (kept_of self.old) (kept_of self.new)) }
        ensures err { OnErr result (TakesInUpTo (kind_of self.old) groups.now (each_alone (map (cell_as reading) numbers.now)) (kept_of self.old) (kept_of self.new)) }
    {
        match self {
            Table::Sums(sums) => sum_each(sums, groups, reading, numbers),
            Table::Extremes(side, values) => {
                offer_each(values, *side, groups, reading, numbers);
                Ok(())
            }
            _ => self.step_each_number(alloc, groups, reading, numbers),
        }
    }

    fn step_each_number(
        &mut self,
        alloc: Global,
        groups: &[u32],
        reading: Reading,
        numbers: &[i64],
    ) -> Result<(), Memory>
        requires along { length groups.now ≡ length numbers.now }
        requires known { All (λ g. g < length (kept_of self.old)) groups.now }
        ensures kind { kind_of self.new ≡ kind_of self.old }
        ensures ok { OnOk result (TakesIn (kind_of self.old) groups.now (each_alone (map (cell_as reading) numbers.now)) (kept_of self.old) (kept_of self.new)) }
        ensures err { OnErr result (TakesInUpTo (kind_of self.old) groups.now (each_alone (map (cell_as reading) numbers.now)) (kept_of self.old) (kept_of self.new)) }
    {
        for (i, group) in groups.iter().enumerate() {
            self.step_number(alloc, *group as usize, reading, numbers[i])?;
        }
        Ok(())
    }

    fn step_number(
        &mut self,
        alloc: Global,
        group: usize,
        reading: Reading,
        number: i64,
    ) -> Result<(), Memory>
        requires { group < length (kept_of self.old) }
        ensures kind { kind_of self.new ≡ kind_of self.old }
        ensures ok { OnOk result (ChangesAt group (Steps (kind_of self.old) (alone (cell_as reading number))) (kept_of self.old) (kept_of self.new)) }
        ensures err { OnErr result ((kept_of self.new ≡ kept_of self.old) × MayRefuse (kept_at (kept_of self.old) group)) }
    {
        let cell = reading.cell(number);
        self.step(alloc, group, from_ref(&cell))
    }

    fn step_cells(
        &mut self,
        alloc: Global,
        groups: &[u32],
        column: &Vector<'_>,
    ) -> Result<(), Memory>
        requires along { length groups.now ≡ length (cells_of column.now) }
        requires known { All (λ g. g < length (kept_of self.old)) groups.now }
        ensures kind { kind_of self.new ≡ kind_of self.old }
        ensures ok { OnOk result (TakesIn (kind_of self.old) groups.now (each_alone (cells_of column.now)) (kept_of self.old) (kept_of self.new)) }
        ensures err { OnErr result (TakesSome (kind_of self.old) groups.now (each_alone (cells_of column.now)) (kept_of self.old) (kept_of self.new)) }
    {
        for (i, group) in groups.iter().enumerate() {
            self.step_cell(alloc, *group as usize, column, i)?;
        }
        Ok(())
    }

    fn step_cell(
        &mut self,
        alloc: Global,
        group: usize,
        column: &Vector<'_>,
        i: usize,
    ) -> Result<(), Memory>
        requires { group < length (kept_of self.old) }
        ensures kind { kind_of self.new ≡ kind_of self.old }
        ensures ok { OnOk result (ChangesAt group (Steps (kind_of self.old) (alone (cell_of (cells_of column.now) i))) (kept_of self.old) (kept_of self.new)) }
        ensures err { OnErr result (kept_of self.new ≡ kept_of self.old) }
    {
        let cell = column.cell(i)?;
        self.step(alloc, group, from_ref(&cell))
    }

    // Rows whose cells stand in these columns.
    pub(crate) fn step_columns(
        &mut self,
        alloc: Global,
        groups: &[u32],
        columns: &[Vector<'_>],
    ) -> Result<(), Memory>
        requires { All (λ g. g < length (kept_of self.old)) groups.now }
        ensures kind { kind_of self.new ≡ kind_of self.old }
        ensures ok { OnOk result (TakesIn (kind_of self.old) groups.now (rows_across (length groups.now) (map cells_of columns.now)) (kept_of self.old) (kept_of self.new)) }
        ensures err { OnErr result (TakesSome (kind_of self.old) groups.now (rows_across (length groups.now) (map cells_of columns.now)) (kept_of self.old) (kept_of self.new)) }
    {
        for (i, group) in groups.iter().enumerate() {
            self.step_across(alloc, *group as usize, columns, i)?;
        }
        Ok(())
    }

    // The row at a place of these columns. Where one of the rows is kept, this one is copied only if it is to be.
    fn step_across(
        &mut self,
        alloc: Global,
        group: usize,
        columns: &[Vector<'_>],
        i: usize,
    ) -> Result<(), Memory>
        requires { group < length (kept_of self.old) }
        ensures kind { kind_of self.new ≡ kind_of self.old }
        ensures ok { OnOk result (ChangesAt group (Steps (kind_of self.old) (across (map cells_of columns.now) i)) (kept_of self.old) (kept_of self.new)) }
        ensures err { OnErr result (kept_of self.new ≡ kept_of self.old) }
    {
        match self {
            Table::Chosen(choice, rows) => {
                step_placed(alloc, &mut rows[group], *choice, columns, i)
            }
            _ => self.step_copied(alloc, group, columns, i),
        }
    }

    fn step_copied(
        &mut self,
        alloc: Global,
        group: usize,
        columns: &[Vector<'_>],
        i: usize,
    ) -> Result<(), Memory>
        requires { group < length (kept_of self.old) }
        ensures kind { kind_of self.new ≡ kind_of self.old }
        ensures ok { OnOk result (ChangesAt group (Steps (kind_of self.old) (across (map cells_of columns.now) i)) (kept_of self.old) (kept_of self.new)) }
        ensures err { OnErr result (kept_of self.new ≡ kept_of self.old) }
    {
        let row = row_across(alloc, columns, i)?;
        self.step(alloc, group, row.as_slice())
    }

    // The rows of another's group too, after those of a group.
    pub(crate) fn merge(
        &mut self,
        alloc: Global,
        group: usize,
        other: &Table,
        from: usize,
    ) -> Result<(), Memory>
        requires same { kind_of other.now ≡ kind_of self.old }
        requires within { group < length (kept_of self.old) }
        requires from { from < length (kept_of other.now) }
        ensures kind { kind_of self.new ≡ kind_of self.old }
        ensures ok { OnOk result (ChangesAt group (Joins (kind_of self.old) (kept_at (kept_of other.now) from)) (kept_of self.old) (kept_of self.new)) }
        ensures err { OnErr result ((kept_of self.new ≡ kept_of self.old) × MayRefuseBoth (kept_at (kept_of self.old) group) (kept_at (kept_of other.now) from)) }
    {
        match (self, other) {
            (Table::Counts(counts), Table::Counts(others)) => counts[group].merge(&others[from]),
            (Table::Sums(sums), Table::Sums(others)) => sums[group].merge(&others[from]),
            (Table::Extremes(side, values), Table::Extremes(_, others)) => {
                merge_value(&mut values[group], *side, &others[from])
            }
            (Table::Chosen(choice, rows), Table::Chosen(_, others)) => {
                merge_row(alloc, &mut rows[group], *choice, &others[from])
            }
            (Table::Sets(most, sets), Table::Sets(_, others)) => {
                sets[group].merge(*most, &others[from])
            }
            _ => unreachable!(),
        }
    }

    // The cells of a group, after those that are there.
    pub(crate) fn finish(
        &self,
        alloc: Global,
        group: usize,
        types: &[Ty],
        out: &mut Vec<Value>,
    ) -> Result<(), EvalFault>
        requires { group < length (kept_of self.now) }
        ensures { PutsFinished types.now (kept_at (kept_of self.now) group) out.old.items out.new.items result }
    {
        match self {
            Table::Counts(counts) => Ok(push_to(out, counts[group].finish())?),
            Table::Sums(sums) => put_sum(&sums[group], types, out),
            Table::Extremes(_, values) => Ok(put_value(alloc, &values[group], types, out)?),
            Table::Chosen(_, rows) => Ok(put_row(alloc, &rows[group], types, out)?),
            Table::Sets(_, sets) => Ok(push_to(out, sets[group].finish(alloc)?)?),
        }
    }
}
