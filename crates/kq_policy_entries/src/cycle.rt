// The search for a cycle.
ghost use Rattle.std.specs.Prelude.{◌≡◌, ◌↔◌, IfOk, IsTrue};
ghost use Rattle.kq_catalog_journal.specs.Cycles.{IsOnCycle};
ghost use Rattle.kq_catalog_journal.specs.Force.{policy_at};
ghost use Rattle.kq_catalog_journal.specs.History.{log};
ghost use Rattle.kq_catalog_journal.specs.Policies.{policies, with_policy};

use crate::sources::add_sources;
use kq_catalog::Snapshot;
use kq_catalog_journal::Entry;
use kq_value::Memory;

/// Whether a batch of a table, which goes by its number, would come back to it once its policy has these entries and no others. Entries count whether
/// they
/// are enabled or not, by their sources alone. Each table is gone through once, backwards from the target to the tables whose batches come to it.
pub fn closes_cycle(snapshot: &Snapshot, target: u32, entries: &[Entry]) -> Result<bool, Memory>
    ensures { IfOk result (λ found. IsTrue found ↔ IsOnCycle (with_policy target entries.now (policies (log snapshot.now.history))) target) }
{
    let alloc = snapshot.allocator();
    let count = snapshot.table_count() as usize;
    let mut marked = vec![in alloc; false; count]?;
    let mut open = Vec::new(alloc);
    open.push(target)?;
    for _ in 0..count + 1 {
        let Some(table) = open.pop() else {
            return Ok(false);
        };
        let policy = policy_of(snapshot, target, entries, table);
        if add_sources(policy, target, &mut marked, &mut open)? {
            return Ok(true);
        }
    }
    Ok(false)
}

// The policy of a table once that of the target has these entries.
fn policy_of<'a>(
    snapshot: &'a Snapshot,
    target: u32,
    entries: &'a [Entry],
    table: u32,
) -> &'a [Entry]
    ensures { result.now ≡ policy_at (with_policy target entries.now (policies (log snapshot.now.history))) table }
{
    if table >= snapshot.table_count() {
        &[]
    } else if table == target {
        entries
    } else {
        snapshot.entries(table)
    }
}
