// Groups that are looked for among others.
use crate::taking::Taking;
use kq_run_groups::Groups;
use kq_value::Memory;
use std::alloc::Global;

// Where the others' groups are among these, by their keys.
#[derive(Clone, Copy)]
pub(crate) struct Lookup<'a> {
    pub groups: &'a Groups,
    pub others: &'a Groups,
}

impl<R> Taking<R> for Lookup<'_> {
    ghost use Rattle.std.specs.Prelude.{◌≤◌, length};
    ghost use Rattle.kq_run_groups.specs.Found.{FoundBetween};

    type Got = Vec<Option<u32>>;

    ghost ready = { λ l. Unit {0} };

    ghost comes = { λ l from to found. from ≤ to → to ≤ length l.others.now.keys → FoundBetween l.groups.now.keys l.others.now.keys from to found.items };

    fn take(&self, alloc: Global, from: u64, to: u64) -> Result<Vec<Option<u32>>, Memory> {
        let (from, to) = (from as usize, to as usize);
        if from <= to && to <= self.others.len() {
            self.groups.find_between(alloc, self.others, from, to)
        } else {
            Ok(Vec::new(alloc))
        }
    }

    fn both(
        &self,
        _rt: &R,
        _alloc: Global,
        first: Vec<Option<u32>>,
        rest: Vec<Option<u32>>,
        _most: u64,
    ) -> Result<Vec<Option<u32>>, Memory> {
        let (mut all, mut behind) = (first, rest);
        all.append(&mut behind)?;
        Ok(all)
    }
}
