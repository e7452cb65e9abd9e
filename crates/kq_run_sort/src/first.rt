// The first ones in an order.
ghost use Rattle.std.specs.Prelude.{◌≡◌, ◌<◌, Bool, IfOk, length};
ghost use Rattle.std.specs.Cmp.{IsStrictWeakOrder};
ghost use Rattle.std.specs.Fn.{ComparesAs};
ghost use Rattle.std.specs.List.{All, AllPairs};
ghost use Rattle.kq_run_sort.specs.Entries.{FitsBits, placed_before};
ghost use Rattle.kq_run_sort.specs.Firsts.{AreLeast, FirstInOrder};

use crate::placed::{Placed, compare_placed};
use crate::radix::in_order;
use kq_value::Memory;
use std::alloc::Global;
use std::cmp::Ordering;

// The first ones as they are sorted. Where few are asked for, the others aren't.
pub(crate) fn sort_first<T: Copy + Drop, F: FnMut(&T, &T) -> Ordering + Copy>(
    alloc: Global,
    items: Vec<T>,
    count: u64,
    compare: F,
) -> Result<Vec<T>, Memory>
    requires { F.IsAlwaysCallable compare }
    ensures { IfOk result (λ few. (lt : T → T → Bool) → IsStrictWeakOrder lt → ComparesAs F.FnMut lt compare → FirstInOrder lt count items.items few.items) }
{
    let mut few = shortened(alloc, items, count, compare)?;
    few.sort_unstable_by(compare);
    Ok(few)
}

pub(crate) fn shortened<T: Copy + Drop, F: FnMut(&T, &T) -> Ordering + Copy>(
    alloc: Global,
    items: Vec<T>,
    count: u64,
    compare: F,
) -> Result<Vec<T>, Memory>
    requires { F.IsAlwaysCallable compare }
    ensures { IfOk result (λ few. (lt : T → T → Bool) → IsStrictWeakOrder lt → ComparesAs F.FnMut lt compare → AreLeast lt count items.items few.items) }
{
    if count < items.len() as u64 {
        least(alloc, items, count as usize, compare)
    } else {
        Ok(items)
    }
}

// So many of the least, in any order.
fn least<T: Copy + Drop, F: FnMut(&T, &T) -> Ordering + Copy>(
    alloc: Global,
    items: Vec<T>,
    count: usize,
    compare: F,
) -> Result<Vec<T>, Memory>
    requires short { count < length items.items }
    requires callable { F.IsAlwaysCallable compare }
    ensures { IfOk result (λ few. (lt : T → T → Bool) → IsStrictWeakOrder lt → ComparesAs F.FnMut lt compare → AreLeast lt count items.items few.items) }
{
    let mut items = items;
    let (front, _, _) = items.as_mut_slice().select_nth_unstable_by(count, compare);
    copied(alloc, front)
}

fn copied<T: Copy + Drop>(alloc: Global, items: &[T]) -> Result<Vec<T>, Memory>
    ensures { IfOk result (λ copies. copies.items ≡ items.now) }
{
    let mut copies = Vec::with_capacity(alloc, items.len())?;
    for item in items {
        copies.push(*item)?;
    }
    Ok(copies)
}

// The first entries in order. All of them are sorted by their digits, a few by comparing.
pub(crate) fn first_entries(
    alloc: Global,
    entries: Vec<Placed>,
    count: u64,
) -> Result<Vec<Placed>, Memory>
    requires bits { All FitsBits entries.items }
    requires places { AllPairs (λ e f. e.place < f.place) entries.items }
    ensures { IfOk result (λ few. FirstInOrder placed_before count entries.items few.items) }
{
    if count < entries.len() as u64 {
        sort_first(alloc, entries, count, compare_placed)
    } else {
        in_order(alloc, entries)
    }
}
