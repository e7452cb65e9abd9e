// What rows come to whose parts were gathered by themselves.
ghost use Rattle.std.specs.Prelude.{IfOk};
ghost use Rattle.kq_run_gather.specs.Joined.{Alike, AreAlike, JoinTo};
ghost use Rattle.kq_run_gather.specs.declared.arriving.Arrived.TheVariants as arrived;

use crate::arriving::Arrived;
use kq_run_groups::Groups;
use kq_value::Memory;
use std::alloc::Global;

/// What rows come to that come one after another: the failure of the first operator that failed in either, or an overflow of either, or the groups of
/// both, key
/// by key.
pub fn joined(alloc: Global, first: Arrived, rest: Arrived) -> Result<Arrived, Memory>
    requires { AreAlike first rest }
    ensures { IfOk result (JoinTo first rest) }
{
    match first {
        Arrived::Groups(groups) => behind_groups(alloc, groups, rest),
        Arrived::Overflow => Ok(behind_overflow(rest)),
        Arrived::Failed(n) => Ok(behind_failure(n, rest)),
    }
}

fn behind_groups(alloc: Global, groups: Groups, rest: Arrived) -> Result<Arrived, Memory>
    requires { AreAlike (arrived.Groups groups) rest }
    ensures { IfOk result (JoinTo (arrived.Groups groups) rest) }
{
    match rest {
        Arrived::Groups(others) => merged(alloc, groups, &others),
        Arrived::Overflow => Ok(Arrived::Overflow),
        Arrived::Failed(n) => Ok(Arrived::Failed(n)),
    }
}

// The groups of both, key by key.
fn merged(alloc: Global, groups: Groups, others: &Groups) -> Result<Arrived, Memory>
    requires { Alike groups others.now }
    ensures { IfOk result (JoinTo (arrived.Groups groups) (arrived.Groups others.now)) }
{
    let mut all = groups;
    all.merge(alloc, others)?;
    Ok(Arrived::Groups(all))
}

fn behind_overflow(rest: Arrived) -> Arrived
    ensures { JoinTo arrived.Overflow rest result }
{
    match rest {
        Arrived::Groups(_) | Arrived::Overflow => Arrived::Overflow,
        Arrived::Failed(n) => Arrived::Failed(n),
    }
}

fn behind_failure(n: usize, rest: Arrived) -> Arrived
    ensures { JoinTo (arrived.Failed n) rest result }
{
    match rest {
        Arrived::Groups(_) | Arrived::Overflow => Arrived::Failed(n),
        Arrived::Failed(m) => Arrived::Failed(n.min(m)),
    }
}
