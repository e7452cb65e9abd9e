// The states of the aggregates as rows come.
ghost use Rattle.std.specs.Prelude.{◌≡◌, ◌<◌, ◌≤◌, IfOk, OnOk, length, map};
ghost use Rattle.std.specs.List.{All};
ghost use Rattle.kq_run_aggregates.specs.Steps.{TakesIn};
ghost use Rattle.kq_run_aggregates.specs.Tables.{Numbered, SameShape};
ghost use Rattle.kq_run_groups.specs.Arguments.{rows_given, rows_in};
ghost use Rattle.kq_run_groups.specs.Groups.{Gathers, GatherAll, HasNoRows, Lengthens, shape_of};

use crate::aggregated::Aggregated;
use crate::argument::Argument;
use kq_run_aggregates::States;
use kq_value::Memory;
use std::alloc::Global;

// Puts groups of no rows last, up to so many.
pub(crate) fn lengthen(alloc: Global, states: &mut States, count: usize) -> Result<(), Memory>
    requires { length states.old.kept ≤ count }
    ensures { OnOk result (Lengthens count states.old states.new) }
{
    while states.len() < count {
        states.grow(alloc)?;
    }
    Ok(())
}

// The same, and then takes in the rows of arguments, each of the group whose number stands beside it.
fn gather(
    alloc: Global,
    states: &mut States,
    count: usize,
    numbers: &[u32],
    argument: &Argument<'_>,
) -> Result<(), Memory>
    requires fewer { length states.old.kept ≤ count }
    requires along { length numbers.now ≡ length (rows_in (length numbers.now) argument.now) }
    requires known { All (λ n. n < count) numbers.now }
    ensures { OnOk result (Gathers numbers.now (rows_in (length numbers.now) argument.now) count states.old states.new) }
{
    lengthen(alloc, states, count)?;
    take_in(alloc, states, numbers, argument)?;
    Ok(())
}

fn take_in(
    alloc: Global,
    states: &mut States,
    numbers: &[u32],
    argument: &Argument<'_>,
) -> Result<(), Memory>
    requires along { length numbers.now ≡ length (rows_in (length numbers.now) argument.now) }
    requires known { All (λ n. n < length states.old.kept) numbers.now }
    ensures shape { SameShape states.old states.new }
    ensures ok { OnOk result (TakesIn states.old.kind numbers.now (rows_in (length numbers.now) argument.now) states.old.kept states.new.kept) }
{
    match argument {
        Argument::Nothing => states.step_bare(alloc, numbers),
        Argument::Column(column) => states.step_column(alloc, numbers, column),
        Argument::Columns(columns) => states.step_columns(alloc, numbers, columns.as_slice()),
    }
}

// The same for all aggregates.
pub(crate) fn gather_all(
    alloc: Global,
    states: &mut [States],
    count: usize,
    numbers: &[u32],
    args: &[Argument<'_>],
) -> Result<(), Memory>
    requires each { length args.now ≡ length states.old }
    requires fewer { All (λ (s : Numbered). length s.kept ≤ count) states.old }
    requires along { All (λ rows. length numbers.now ≡ length rows) (rows_given (length numbers.now) args.now) }
    requires known { All (λ n. n < count) numbers.now }
    ensures { OnOk result (GatherAll numbers.now (rows_given (length numbers.now) args.now) count states.old states.new) }
{
    for (i, argument) in args.iter().enumerate() {
        gather(alloc, &mut states[i], count, numbers, argument)?;
    }
    Ok(())
}

// For each aggregate the states of so many groups of no rows.
pub(crate) fn all_fresh(
    alloc: Global,
    aggregates: &[Aggregated],
    count: usize,
) -> Result<Vec<States>, Memory>
    ensures shapes { IfOk result (λ v. map shape_of v.items ≡ aggregates.now) }
    ensures fresh { IfOk result (λ v. All (HasNoRows count) v.items) }
{
    let mut all = Vec::with_capacity(alloc, aggregates.len())?;
    for aggregate in aggregates {
        all.push(fresh_states(alloc, aggregate, count)?)?;
    }
    Ok(all)
}

fn fresh_states(alloc: Global, aggregate: &Aggregated, count: usize) -> Result<States, Memory>
    ensures shape { IfOk result (λ s. shape_of s ≡ aggregate.now) }
    ensures fresh { IfOk result (HasNoRows count) }
{
    let types = Vec::from_clones(alloc, aggregate.types.as_slice())?;
    let mut states = States::new(alloc, aggregate.kind, types);
    lengthen(alloc, &mut states, count)?;
    Ok(states)
}
