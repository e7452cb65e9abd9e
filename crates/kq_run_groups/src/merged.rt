// The states of the aggregates as other groups come.
ghost use Rattle.std.specs.Prelude.{◌≡◌, ◌<◌, ◌≤◌, ◌^◌, IfOk, OnOk, length, map};
ghost use Rattle.std.specs.List.{All, range_with_len};
ghost use Rattle.kq_run_aggregates.specs.Steps.{kept_at};
ghost use Rattle.kq_run_aggregates.specs.Tables.{Numbered, SameShape};
ghost use Rattle.kq_run_groups.specs.Groups.{shape_of};
ghost use Rattle.kq_run_groups.specs.Merges.{AbsorbAll, Absorbs, TakesOver};

use crate::gathered::lengthen;
use kq_run_aggregates::States;
use kq_value::Memory;
use std::alloc::Global;

// The numbers of so many groups.
pub(crate) fn all_places(alloc: Global, count: usize) -> Result<Vec<u32>, Memory>
    requires { count < 2 ^ 32 }
    ensures { IfOk result (λ v. v.items ≡ range_with_len 0 count) }
{
    let mut places = Vec::with_capacity(alloc, count)?;
    for place in 0..count {
        places.push(place as u32)?;
    }
    Ok(places)
}

// The groups at these places come to those whose numbers stand beside them.
fn join(
    alloc: Global,
    states: &mut States,
    numbers: &[u32],
    other: &States,
    places: &[u32],
) -> Result<(), Memory>
    requires same { other.now.kind ≡ states.old.kind }
    requires along { length places.now ≡ length numbers.now }
    requires known { All (λ n. n < length states.old.kept) numbers.now }
    requires within { All (λ n. n < length other.now.kept) places.now }
    ensures shape { SameShape states.old states.new }
    ensures ok { OnOk result (TakesOver states.old.kind numbers.now (map (kept_at other.now.kept) places.now) states.old.kept states.new.kept) }
{
    for i in 0..numbers.len() {
        states.merge(alloc, numbers[i] as usize, other, places[i] as usize)?;
    }
    Ok(())
}

// Puts groups of no rows last, up to so many, and then does the same.
fn absorb(
    alloc: Global,
    states: &mut States,
    count: usize,
    numbers: &[u32],
    other: &States,
    places: &[u32],
) -> Result<(), Memory>
    requires same { other.now.kind ≡ states.old.kind }
    requires fewer { length states.old.kept ≤ count }
    requires along { length places.now ≡ length numbers.now }
    requires known { All (λ n. n < count) numbers.now }
    requires within { All (λ n. n < length other.now.kept) places.now }
    ensures { OnOk result (Absorbs numbers.now (map (kept_at other.now.kept) places.now) count states.old states.new) }
{
    lengthen(alloc, states, count)?;
    join(alloc, states, numbers, other, places)
}

// The same for all aggregates.
pub(crate) fn absorb_all(
    alloc: Global,
    states: &mut [States],
    count: usize,
    numbers: &[u32],
    others: &[States],
    places: &[u32],
) -> Result<(), Memory>
    requires same { map shape_of others.now ≡ map shape_of states.old }
    requires fewer { All (λ (s : Numbered). length s.kept ≤ count) states.old }
    requires along { length places.now ≡ length numbers.now }
    requires known { All (λ n. n < count) numbers.now }
    requires within { All (λ (s : Numbered). All (λ n. n < length s.kept) places.now) others.now }
    ensures { OnOk result (AbsorbAll numbers.now places.now others.now count states.old states.new) }
{
    for (i, other) in others.iter().enumerate() {
        absorb(alloc, &mut states[i], count, numbers, other, places)?;
    }
    Ok(())
}
