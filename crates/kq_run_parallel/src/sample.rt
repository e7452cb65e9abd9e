// How many threads groups are worth, by the first of their rows.
ghost use Rattle.std.specs.Prelude.{◌≤◌, IfOk};
ghost use Rattle.kq_run_gather.specs.Summaries.{IsAsked};

use kq_run_gather::{Arrived, Held, Summarize, gather_between};
use kq_value::Memory;
use std::alloc::Global;

// Of so many first rows.
const SAMPLE: u64 = 16_384;

// More groups of them are many: most rows have a key of their own.
const MANY: usize = 12_288;

// Fewer rows aren't worth a sample.
const LEAST_ROWS: u64 = 262_144;

// Each thread has a table of the keys of its rows. Where most keys stand in each, more threads than these lose more by filling and joining their
// tables than they
// save.
const FOR_MANY: u64 = 2;

// The most threads, of so many, for the groups of these rows.
pub(crate) fn threads_for_groups(
    alloc: Global,
    summarize: &Summarize,
    rows: &Held,
    most: u64,
) -> Result<u64, Memory>
    requires { IsAsked summarize.now }
    ensures { IfOk result (λ n. n ≤ most) }
{
    if most <= FOR_MANY || rows.len() < LEAST_ROWS {
        return Ok(most);
    }
    let sample = gather_between(alloc, summarize, rows, 0, SAMPLE)?;
    if has_many(&sample) {
        Ok(FOR_MANY)
    } else {
        Ok(most)
    }
}

fn has_many(sample: &Arrived) -> bool {
    match sample {
        Arrived::Groups(groups) => groups.len() > MANY,
        Arrived::Overflow | Arrived::Failed(_) => false,
    }
}
