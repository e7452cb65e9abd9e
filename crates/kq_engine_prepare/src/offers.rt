// What of an offer stays due.
ghost use Rattle.std.specs.Prelude.{◌≡◌, ◌≤◌, drop, length};
ghost use Rattle.kq_engine_prepare.specs.Found.{is_alone as is_alone_by, is_as_read as is_as_read_by, is_source as is_source_by, is_widened_at, stands_alone as stands_alone_by};
ghost use Rattle.kq_catalog_journal.specs.History.{log, tables};
ghost use Rattle.std.specs.List.{slice_get};

use crate::found::Barring;
use kq_catalog::Snapshot;
use kq_catalog_journal::Due;
use kq_policy_run::is_quiet_since;

/// Whether what was found for rows at a place is what would be found now.
pub fn is_as_read(snapshot: &Snapshot, place: u64, unless: &Option<Barring>) -> bool
    requires { place ≤ length snapshot.now.history }
    ensures { result ≡ is_as_read_by (drop place snapshot.now.history) (log snapshot.now.history) unless.now }
{
    match unless {
        Some(barring) => {
            stands_alone(snapshot, barring)
                || is_quiet_since(snapshot, place, barring.looked.as_slice())
        }
        None => true,
    }
}

// The rows come alone, then as now, into a table that was not widened since.
fn stands_alone(snapshot: &Snapshot, barring: &Barring) -> bool
    ensures { result ≡ stands_alone_by (log snapshot.now.history) barring.now }
{
    barring.alone && is_alone(snapshot, barring.table) && is_unwidened(snapshot, barring)
}

fn is_unwidened(snapshot: &Snapshot, barring: &Barring) -> bool
    ensures { result ≡ is_widened_at (slice_get (tables (log snapshot.now.history)) barring.now.table) barring.now.widened }
{
    match snapshot.table_at(barring.table) {
        Some(table) => table.widened == barring.widened,
        None => false,
    }
}

// Whether no entry in force runs for batches of the table.
pub(crate) fn is_alone(snapshot: &Snapshot, table: u32) -> bool
    ensures { result ≡ is_alone_by (log snapshot.now.history) table }
{
    !is_source(snapshot.dues(), table)
}

fn is_source(dues: &[Due], table: u32) -> bool
    ensures { result ≡ is_source_by table dues.now }
{
    for due in dues {
        if due.source == table {
            return true;
        }
    }
    false
}
