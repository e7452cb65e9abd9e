// Whether something disturbs what came of a batch.
ghost use Rattle.std.specs.Prelude.{◌≡◌, ◌≤◌, drop, length, map};
ghost use Rattle.std.specs.Arc.{arc_value};
ghost use Rattle.kq_policy_run.specs.Quiet.{changes as changes_by, disturbs as disturbs_by, gives_one as gives_one_by, is_one_of as is_one_of_by, is_quiet};

use kq_catalog::Snapshot;
use kq_catalog_journal::{Batch, Commit, Event, Operation};
use std::alloc::Global;
use std::sync::Arc;

/// Whether what came of a batch by queries that looked into these tables, over the first events, so many, comes of it still: since then no table was
/// made
/// or widened, no policy was set, and none of these tables was given rows. It walks over the events since.
pub fn is_quiet_since(snapshot: &Snapshot, place: u64, looked: &[u32]) -> bool
    requires { place ≤ length snapshot.now.history }
    ensures { result ≡ is_quiet looked.now (drop place snapshot.now.history) }
{
    let end = snapshot.place();
    let mut at = place;
    while at < end {
        let events = snapshot.events_from(at as usize);
        if !are_quiet(looked, events) {
            return false;
        }
        at += events.len() as u64;
    }
    true
}

fn are_quiet(looked: &[u32], events: &[Arc<Event, Global>]) -> bool
    ensures { result ≡ is_quiet looked.now (map arc_value events.now) }
{
    for event in events {
        if disturbs(looked, &event.operation) {
            return false;
        }
    }
    true
}

fn disturbs(looked: &[u32], operation: &Operation) -> bool
    ensures { result ≡ disturbs_by looked.now operation.now }
{
    match operation {
        Operation::Commit(commit) => changes(looked, commit),
        Operation::Fold { .. } | Operation::Merge { .. } => false,
    }
}

fn changes(looked: &[u32], commit: &Commit) -> bool
    ensures { result ≡ changes_by looked.now commit.now }
{
    match commit {
        Commit::CreateTable { .. } | Commit::SetPolicy { .. } | Commit::AlterMerge { .. } => true,
        Commit::CreateView(_) => false,
        Commit::Ingest {
            batches,
            failures: _,
        } => gives_one(looked, batches.as_slice()),
    }
}

fn gives_one(tables: &[u32], batches: &[Batch]) -> bool
    ensures { result ≡ gives_one_by tables.now batches.now }
{
    for batch in batches {
        if is_one_of(batch.table, tables) {
            return true;
        }
    }
    false
}

fn is_one_of(table: u32, tables: &[u32]) -> bool
    ensures { result ≡ is_one_of_by table tables.now }
{
    for other in tables {
        if *other == table {
            return true;
        }
    }
    false
}
