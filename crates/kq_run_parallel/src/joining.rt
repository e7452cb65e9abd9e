// What rows come to that come one after another, where several threads put their groups together.
ghost use Rattle.std.specs.Prelude.{◌≡◌, IfOk, length, map};
ghost use Rattle.kq_run_groups.specs.Found.{FoundBetween};
ghost use Rattle.kq_run_groups.specs.Groups.{HasAllGroups, shape_of};
ghost use Rattle.kq_run_groups.specs.Merges.{Merges};
ghost use Rattle.kq_run_gather.specs.Joined.{AreAlike, JoinTo};
ghost use Rattle.kq_run_gather.specs.declared.arriving.Arrived.TheVariants as arrived;

use crate::halves::halves;
use crate::lookup::Lookup;
use kq_run_gather::{Arrived, joined};
use kq_run_groups::Groups;
use kq_value::Memory;
use std::alloc::Global;
use std::thread::Threads;

// As many groups as are worth a thread.
const SHARE: u64 = 4096;

// As `joined`, by at most so many threads.
pub(crate) fn joined_by<R: Threads + Sync>(
    rt: &R,
    alloc: Global,
    first: Arrived,
    rest: Arrived,
    most: u64,
) -> Result<Arrived, Memory>
    requires alike { AreAlike first rest }
    ensures { IfOk result (JoinTo first rest) }
{
    match first {
        Arrived::Groups(groups) => behind_groups(rt, alloc, groups, rest, most),
        Arrived::Overflow => joined(alloc, Arrived::Overflow, rest),
        Arrived::Failed(n) => joined(alloc, Arrived::Failed(n), rest),
    }
}

fn behind_groups<R: Threads + Sync>(
    rt: &R,
    alloc: Global,
    groups: Groups,
    rest: Arrived,
    most: u64,
) -> Result<Arrived, Memory>
    requires { AreAlike (arrived.Groups groups) rest }
    ensures { IfOk result (JoinTo (arrived.Groups groups) rest) }
{
    match rest {
        Arrived::Groups(others) => {
            let all = merged(rt, alloc, groups, &others, most)?;
            Ok(Arrived::Groups(all))
        }
        Arrived::Overflow => Ok(Arrived::Overflow),
        Arrived::Failed(n) => Ok(Arrived::Failed(n)),
    }
}

// The groups of both, key by key.
fn merged<R: Threads + Sync>(
    rt: &R,
    alloc: Global,
    groups: Groups,
    others: &Groups,
    most: u64,
) -> Result<Groups, Memory>
    requires whole { HasAllGroups groups }
    requires other_whole { HasAllGroups others.now }
    requires width { others.now.width ≡ groups.width }
    requires shapes { map shape_of others.now.states ≡ map shape_of groups.states }
    ensures { IfOk result (λ all. Merges others.now groups all) }
{
    let found = looked_for(rt, alloc, &groups, others, most)?;
    let mut all = groups;
    all.merge_found(alloc, others, found.as_slice())?;
    Ok(all)
}

// Where the others' groups are among these: each thread looks for some of them, and none is changed.
fn looked_for<R: Threads + Sync>(
    rt: &R,
    alloc: Global,
    groups: &Groups,
    others: &Groups,
    most: u64,
) -> Result<Vec<Option<u32>>, Memory>
    ensures { IfOk result (λ v. FoundBetween groups.now.keys others.now.keys 0 (length others.now.keys) v.items) }
{
    let count = others.len() as u64;
    let lookup = Lookup { groups, others };
    halves(rt, alloc, &lookup, 0, count, most.min(count / SHARE))
}
