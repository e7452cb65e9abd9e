// The enabled entries of policies.
ghost use Rattle.std.specs.Prelude.{◌≡◌, ◌<◌, ◌++◌, ◌^◌, IfOk, OnOk, length};
ghost use Rattle.kq_catalog_journal.specs.Enabled.{enabled, enabled_in};

use kq_catalog_journal::{Due, Entries, Entry};
use kq_store_shared_lists::SharedList;
use kq_value::Memory;
use std::alloc::Global;

// The enabled entries of all policies: targets in the order of their creation, and entries in array order.
pub(crate) fn enabled(alloc: Global, policies: &SharedList<Entries>) -> Result<Vec<Due>, Memory>
    requires { length policies.now < 2 ^ 32 }
    ensures { IfOk result (λ dues. dues.items ≡ enabled policies.now) }
{
    let count = policies.len() as u32;
    let mut dues = Vec::new(alloc);
    for target in 0..count {
        add_policy(policies.get(target as usize).as_slice(), target, &mut dues)?;
    }
    Ok(dues)
}

// Adds the enabled entries of one policy behind others.
fn add_policy(entries: &[Entry], target: u32, dues: &mut Vec<Due>) -> Result<(), Memory>
    ensures { OnOk result (dues.new.items ≡ dues.old.items ++ enabled_in target 0 entries.now) }
{
    for place in 0..entries.len() {
        let entry = &entries[place];
        if entry.enabled {
            dues.push(Due {
                target,
                place,
                source: entry.source,
                transactional: entry.transactional,
                propagate: entry.propagate,
            })?;
        }
    }
    Ok(())
}
