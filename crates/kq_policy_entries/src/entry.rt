// One entry.
ghost use Rattle.std.specs.Prelude.{◌≡◌};
ghost use Rattle.kq_policy_entries.specs.Entries.{BindsEntry, BindsQuery, fault_by};
ghost use Rattle.kq_catalog_journal.specs.History.{log};

use crate::fault::EntryFault;
use crate::policy::bind_policy;
use crate::query_fault::PolicyFault;
use crate::written::Written;
use kq_catalog::Snapshot;
use kq_catalog_journal::Entry;
use kq_plan::Names;
use kq_store_rows::Why;
use kq_value::Field;
use std::alloc::Global;

// The entry that an element of the array is, into a table of these columns.
pub(crate) fn bind_entry<N: Names>(
    snapshot: &Snapshot,
    names: &N,
    element: &Option<Written>,
    target: &[Field],
) -> Result<Entry, EntryFault>
    ensures { BindsEntry (N.known names.now) (log snapshot.now.history) target.now element.now result }
{
    let Some(written) = element else {
        return Err(EntryFault::Bad(Why::Form));
    };
    let Some((source, _)) = snapshot.table(&written.source) else {
        return Err(EntryFault::Bad(Why::Source));
    };
    bind_query(snapshot.allocator(), names, written, source, target)
}

// Over a source that stands.
fn bind_query<N: Names>(
    alloc: Global,
    names: &N,
    written: &Written,
    source: u32,
    target: &[Field],
) -> Result<Entry, EntryFault>
    ensures { BindsQuery (N.known names.now) target.now written.now source result }
{
    match bind_policy(
        alloc,
        written.query.as_str(),
        &written.source,
        target,
        names,
    ) {
        Ok(plan) => Ok(Entry {
            source,
            enabled: written.enabled,
            transactional: written.transactional,
            propagate: written.propagate,
            plan,
            text: written.query.clone_in()?,
        }),
        Err(fault) => Err(fault_of(fault)),
    }
}

fn fault_of(fault: PolicyFault) -> EntryFault
    ensures { result ≡ fault_by fault }
{
    match fault {
        PolicyFault::Query => EntryFault::Bad(Why::Query),
        PolicyFault::Body => EntryFault::Bad(Why::Body),
        PolicyFault::Schema => EntryFault::Bad(Why::Schema),
        PolicyFault::Memory => EntryFault::Memory,
    }
}
