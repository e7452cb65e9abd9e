// The failures of ingestions.
ghost use Rattle.std.specs.Prelude.{◌≡◌, ◌++◌, IfOk, OnOk, map};
ghost use Rattle.kq_catalog_journal.specs.Policies.{noted_at, noted_by};

use kq_catalog_journal::{Commit, Failure, Noted};
use kq_store_shared_lists::SharedList;
use kq_value::Memory;
use std::alloc::Global;
use std::sync::Arc;

// The failures, and behind them those that a commit at a cursor notes.
pub(crate) fn with_failures(
    alloc: Global,
    failures: &SharedList<Noted>,
    commit: &Commit,
    cursor: u64,
) -> Result<SharedList<Noted>, Memory>
    ensures { IfOk result (λ all. all ≡ failures.now ++ noted_by cursor commit.now) }
{
    let mut all = failures.share()?;
    if let Commit::Ingest { failures, .. } = commit {
        note_all(alloc, &mut all, failures.as_slice(), cursor)?;
    }
    Ok(all)
}

fn note_all(
    alloc: Global,
    all: &mut SharedList<Noted>,
    failures: &[Failure],
    cursor: u64,
) -> Result<(), Memory>
    ensures { OnOk result (all.new ≡ all.old ++ map (noted_at cursor) failures.now) }
{
    for failure in failures {
        let noted = Noted {
            cursor,
            failure: *failure,
        };
        all.push(Arc::new(alloc, noted)?)?;
    }
    Ok(())
}
