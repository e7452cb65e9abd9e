// The tables that queries look into.
ghost use Rattle.std.specs.Prelude.{◌≡◌, ◌++◌, IfOk, OnOk};
ghost use Rattle.std.specs.List.{slice_get};
ghost use Rattle.std.specs.Option.{option_map};
ghost use Rattle.kq_catalog_journal.specs.Force.{policy_at};
ghost use Rattle.kq_catalog_journal.specs.History.{log};
ghost use Rattle.kq_catalog_journal.specs.Policies.{policies};
ghost use Rattle.kq_plan.specs.Plans.{doing_of};
ghost use Rattle.kq_policy_run.specs.Quiet.{looked as looked_by_all, looked_by as looked_by_step, looked_in};

use kq_catalog::Snapshot;
use kq_catalog_journal::{Due, Entry};
use kq_plan::{LeafKind, Work};
use kq_value::Memory;

/// The tables, by number, that the queries of entries look into beside the batch that they are run for. One stands as often as it is looked into.
pub fn looked(snapshot: &Snapshot, asked: &[Due]) -> Result<Vec<u32>, Memory>
    ensures { IfOk result (λ tables. tables.items ≡ looked_by_all (log snapshot.now.history) asked.now) }
{
    let mut tables = Vec::new(snapshot.allocator());
    for due in asked {
        if let Some(entry) = entry_of(snapshot, *due) {
            add_looked(snapshot, entry, &mut tables)?;
        }
    }
    Ok(tables)
}

fn entry_of(snapshot: &Snapshot, due: Due) -> Option<&Entry>
    ensures { option_map (λ e. e.now) result ≡ slice_get (policy_at (policies (log snapshot.now.history)) due.target) due.place }
{
    if due.target < snapshot.table_count() {
        snapshot.entries(due.target).get(due.place)
    } else {
        None
    }
}

// Adds those of the query of an entry, behind others.
fn add_looked(snapshot: &Snapshot, entry: &Entry, tables: &mut Vec<u32>) -> Result<(), Memory>
    ensures { OnOk result (tables.new.items ≡ tables.old.items ++ looked_in (log snapshot.now.history) entry.now) }
{
    for step in entry.plan.steps.as_slice() {
        if let Some(table) = looked_by(snapshot, entry.source, &step.work) {
            tables.push(table)?;
        }
    }
    Ok(())
}

// The table that a step looks into.
fn looked_by(snapshot: &Snapshot, source: u32, work: &Work) -> Option<u32>
    ensures { result ≡ looked_by_step (log snapshot.now.history) source (doing_of work.now) }
{
    let Work::Leaf(LeafKind::Table, name) = work else {
        return None;
    };
    match snapshot.table(name) {
        Some((number, _)) if number != source => Some(number),
        _ => None,
    }
}
