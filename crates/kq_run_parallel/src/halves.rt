// Rows that threads take beside each other.
ghost use Rattle.std.specs.Prelude.{◌<◌, ◌≤◌, IfOk};
ghost use Rattle.std.specs.Thread.{IsSync};
ghost use Rattle.kq_run_gather.specs.Summaries.{ComesOf, IsAsked};

use crate::asked::Asked;
use crate::sample::threads_for_groups;
use crate::taking::Taking;
use kq_run_gather::{Arrived, Held, Summarize};
use kq_value::Memory;
use rayon::{current_num_threads, join};
use std::alloc::Global;
use std::thread::Threads;

/// What rows come to: as many threads as there are processors take parts of them, of at least so many rows. Fewer than twice as many are taken by
/// this thread alone, and two threads take rows of which most have a key of their own.
pub fn gather_in_parts<R: Threads + Sync>(
    rt: &R,
    alloc: Global,
    summarize: &Summarize,
    rows: &Held,
    piece: u64,
) -> Result<Arrived, Memory>
    requires asked { IsAsked summarize.now }
    requires piece { 0 < piece }
    ensures { IfOk result (ComesOf summarize.now rows.now) }
{
    let asked = Asked {
        summarize: *summarize,
        rows,
    };
    let most = threads_for(rt, rows.len(), piece);
    let most = threads_for_groups(alloc, summarize, rows, most)?;
    halves(rt, alloc, &asked, 0, rows.len(), most)
}

// The most threads for so many rows, of which each is to take a piece or more.
pub(crate) fn threads_for<R: Threads>(rt: &R, rows: u64, piece: u64) -> u64
    requires { 0 < piece }
    ensures { result ≤ rows }
{
    (rows / piece).min(current_num_threads(rt) as u64)
}

// What the rows from one number up to another come to, which at most so many threads take.
pub(crate) fn halves<R: Threads + Sync, T: Taking<R> + Sync>(
    rt: &R,
    alloc: Global,
    taking: &T,
    from: u64,
    to: u64,
    most: u64,
) -> Result<T::Got, Memory>
    requires ready { T.ready taking.now }
    requires order { from ≤ to }
    ensures { IfOk result (T.comes taking.now from to) }
{
    if most < 2 {
        return taking.take(alloc, from, to);
    }
    let fewer = most / 2;
    let more = most - fewer;
    let middle = cut_at(from, to, fewer, most);
    let (one, other) = join(
        rt,
        || -> Result<T::Got, Memory>
            requires { IsSync R.row × IsSync T.row × T.ready taking.now × (from ≤ middle) }
            ensures { IfOk result (T.comes taking.entry.now from middle) }
        { halves(rt, alloc, taking, from, middle, fewer) },
        || -> Result<T::Got, Memory>
            requires { IsSync R.row × IsSync T.row × T.ready taking.now × (middle ≤ to) }
            ensures { IfOk result (T.comes taking.entry.now middle to) }
        { halves(rt, alloc, taking, middle, to, more) },
    );
    taking.both(rt, alloc, one?, other?, most)
}

// Where rows are cut, so that of so many shares this many come before.
fn cut_at(from: u64, to: u64, share: u64, of: u64) -> u64
    requires { from ≤ to }
    ensures { (from ≤ result) × (result ≤ to) }
{
    let before = ((to - from) / of.max(1)).saturating_mul(share);
    from.saturating_add(before).min(to)
}
