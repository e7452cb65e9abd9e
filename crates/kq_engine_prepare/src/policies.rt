// What an update policy that is to be set is due, over a snapshot.
ghost use Rattle.std.specs.Prelude.{◌≡◌, IfErr, Some};
ghost use Rattle.kq_read_commands.specs.declared.command.Change.TheVariants as changes;
ghost use Rattle.kq_engine_prepare.specs.Due.{IsDueByLog, IsEntriesDue, IsTextDue, policy_refusal};
ghost use Rattle.kq_engine_prepare.specs.Found.{Finds, Stands};
ghost use Rattle.kq_catalog_journal.specs.History.{log, table_numbered, tables};
ghost use Rattle.kq_reply.specs.declared.refusal.Refusal.TheVariants as refusals;

use crate::changes::has_room;
use crate::found::{Found, Offer};
use kq_catalog::{Intent, Snapshot};
use kq_catalog_journal::{Entries, Entry, Table};
use kq_engine_query::QueryScope;
use kq_policy_entries::{EntriesFault, closes_cycle, read_entries};
use kq_read_commands::Identifier;
use kq_reply::Refusal;
use kq_value::Text;

// The policy of a table that a text gives. Its queries are bound here.
pub(crate) fn set_policy(
    snapshot: &Snapshot,
    target: &Identifier,
    policy: &Text,
) -> Result<Found, Refusal>
    ensures due { Finds (IsDueByLog snapshot.now.limits (log snapshot.now.history) (changes.SetPolicy target.now policy.now)) result }
    ensures memory { IfErr result (λ r. r ≡ refusals.Memory → Stands (table_numbered target.now.text (tables (log snapshot.now.history)))) }
{
    let Some((number, table)) = snapshot.table(&target.text) else {
        return Err(Refusal::Unknown {
            at: target.at as u64,
        });
    };
    read(snapshot, number, table, policy)
}

// For a table that stands.
fn read(snapshot: &Snapshot, number: u32, table: &Table, policy: &Text) -> Result<Found, Refusal>
    ensures { Finds (IsTextDue snapshot.now.limits (log snapshot.now.history) (record { number = number; table = table.now }) policy.now) result }
{
    let names = QueryScope::new(snapshot)?;
    match read_entries(snapshot, &names, policy.as_str(), table.schema.as_slice()) {
        Ok(entries) => set(snapshot, number, table, entries),
        Err(fault) => Err(refusal_of(fault)),
    }
}

fn refusal_of(fault: EntriesFault) -> Refusal
    ensures { result ≡ policy_refusal fault }
{
    match fault {
        EntriesFault::Full { limit } => Refusal::Full { limit },
        EntriesFault::Bad { entry, why } => Refusal::BadPolicy { entry, why },
        EntriesFault::Memory => Refusal::Memory,
    }
}

// The entries are good, each by itself.
fn set(
    snapshot: &Snapshot,
    number: u32,
    table: &Table,
    entries: Vec<Entry>,
) -> Result<Found, Refusal>
    ensures { Finds (IsEntriesDue snapshot.now.limits (log snapshot.now.history) (record { number = number; table = table.now }) entries.items) result }
{
    if closes_cycle(snapshot, number, entries.as_slice())? {
        return Err(Refusal::Cycle {
            table: table.name.clone_in()?,
        });
    }
    if !has_room(snapshot) {
        return Err(Refusal::Full {
            limit: snapshot.limits().commits,
        });
    }
    Ok(Found::Commits(Offer {
        intent: Intent::SetPolicy {
            table: number,
            entries: Entries::new(snapshot.allocator(), entries)?,
        },
        unless: None,
    }))
}
