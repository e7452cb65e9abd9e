// The entries of a text.
ghost use Rattle.std.specs.Prelude.{◌≡◌, ◌<◌, ◌^◌, IfErr, IfOk, None, length};
ghost use Rattle.kq_policy_entries.specs.Entries.{AreEntries, IsPolicyOf, RefusesEntries, RefusesAmong, fault_read};
ghost use Rattle.kq_catalog_journal.specs.History.{log};
ghost use Rattle.kq_policy_entries.specs.PolicyTexts.{fault_of};

use crate::entry::bind_entry;
use crate::fault::{EntriesFault, EntryFault};
use crate::json::read_policy;
use crate::json_fault::JsonFault;
use crate::written::Written;
use kq_catalog::Snapshot;
use kq_catalog_journal::Entry;
use kq_plan::Names;
use kq_store_rows::Why;
use kq_value::Field;

/// The entries of an update policy's text, for a table of these columns, over the tables of a snapshot and over names, or the first reason why the
/// text gives none.
/// The snapshot's limits say how many there may be.
pub fn read_entries<N: Names>(
    snapshot: &Snapshot,
    names: &N,
    policy: &str,
    target: &[Field],
) -> Result<Vec<Entry>, EntriesFault>
    ensures entries { IfOk result (λ es. IsPolicyOf (N.known names.now) (log snapshot.now.history) target.now snapshot.now.limits.policies policy.now es.items) }
    ensures fault { IfErr result (RefusesEntries (N.known names.now) (log snapshot.now.history) target.now snapshot.now.limits.policies policy.now) }
{
    match read_policy(snapshot.allocator(), policy, snapshot.limits().policies) {
        Ok(elements) => bind_entries(snapshot, names, elements.as_slice(), target),
        Err(fault) => Err(refused(fault)),
    }
}

fn refused(fault: JsonFault) -> EntriesFault
    ensures { result ≡ fault_read fault }
{
    match fault {
        JsonFault::NoArray => EntriesFault::Bad {
            entry: 0,
            why: Why::Form,
        },
        JsonFault::Full { limit } => EntriesFault::Full { limit },
        JsonFault::Memory => EntriesFault::Memory,
    }
}

fn bind_entries<N: Names>(
    snapshot: &Snapshot,
    names: &N,
    elements: &[Option<Written>],
    target: &[Field],
) -> Result<Vec<Entry>, EntriesFault>
    requires { length elements.now < 2 ^ 32 }
    ensures entries { IfOk result (λ es. AreEntries (N.known names.now) (log snapshot.now.history) target.now elements.now es.items) }
    ensures fault { IfErr result (RefusesAmong (N.known names.now) (log snapshot.now.history) target.now elements.now) }
{
    let mut entries = Vec::with_capacity(snapshot.allocator(), elements.len())?;
    for i in 0..elements.len() {
        match bind_entry(snapshot, names, &elements[i], target) {
            Ok(entry) => entries.push(entry)?,
            Err(EntryFault::Bad(why)) => {
                return Err(EntriesFault::Bad {
                    entry: i as u32,
                    why,
                });
            }
            Err(EntryFault::Memory) => return Err(EntriesFault::Memory),
        }
    }
    Ok(entries)
}
