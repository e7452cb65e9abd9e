// What a merge of a table finds.
ghost use Rattle.std.specs.Prelude.{◌≡◌, ◌<◌, ◌≤◌, IfErr, IfOk, MatchBool, Some, length, map};
ghost use Rattle.std.specs.Arc.{arc_value};
ghost use Rattle.std.specs.List.{slice_get};
ghost use Rattle.kq_engine_prepare.specs.Found.{FindsMerge, IsMergeable};
ghost use Rattle.kq_engine_prepare.specs.Merges.{AnswersMerge, PicksIn};
ghost use Rattle.kq_store_extent.specs.Seen.{ExtentView};
ghost use Rattle.kq_catalog_journal.specs.History.{log, tables, table_numbered};
ghost use Rattle.kq_catalog_journal.specs.Records.{picked};
ghost use Rattle.kq_engine_query.specs.Answers.{RefusesBy};
ghost use Rattle.kq_reply.specs.declared.refusal.Refusal.TheVariants as refusals;

use crate::found::Found;
use kq_catalog::{Merging, Snapshot};
use kq_catalog_journal::{Ids, Table};
use kq_read_commands::Identifier;
use kq_reply::{Refusal, Reply};
use kq_store_extent::Extent;
use kq_store_merge::{merged, pick};
use kq_value::Memory;
use std::alloc::Global;
use std::sync::Arc;

// All extents that are picked in a table, with the one that they become, or that there is nothing to merge.
pub(crate) fn find_merge(snapshot: &Snapshot, table: &Identifier) -> Result<Found, Refusal>
    ensures found { IfOk result (FindsMerge snapshot.now.history table.now) }
    ensures refused { IfErr result (RefusesBy (AnswersMerge snapshot.now.history table.now)) }
    ensures memory { IfErr result (λ r. r ≡ refusals.Memory → IsMergeable snapshot.now.history (table_numbered table.now.text (tables (log snapshot.now.history)))) }
{
    let Some((number, found)) = snapshot.table(&table.text) else {
        return Err(Refusal::Unknown {
            at: table.at as u64,
        });
    };
    if !may_merge(snapshot, number) {
        return Ok(Found::Says(Reply::Nothing));
    }
    match merging_in(snapshot, number, found)? {
        Some(merging) => Ok(Found::Merges(merging)),
        None => Ok(Found::Says(Reply::Nothing)),
    }
}

/// Whether two or more extents of a table that stands, which goes by its number, may be merged.
pub fn may_merge(snapshot: &Snapshot, number: u32) -> bool
    requires { number < length (tables (log snapshot.now.history)) }
    ensures { MatchBool result (2 ≤ length (picked snapshot.now.history number)) (length (picked snapshot.now.history number) < 2) }
{
    snapshot.extents(number).small().len() >= 2
}

/// All extents that are picked in a table that stands, which goes by its number, with the one that they become; nothing where fewer than two are.
pub fn merging_at(snapshot: &Snapshot, number: u32) -> Result<Option<Merging>, Memory>
    requires { number < length (tables (log snapshot.now.history)) }
    ensures { IfOk result (PicksIn snapshot.now.history number) }
{
    match snapshot.table_at(number) {
        Some(table) => merging_in(snapshot, number, table),
        None => unreachable!(),
    }
}

fn merging_in(snapshot: &Snapshot, number: u32, table: &Table) -> Result<Option<Merging>, Memory>
    requires { slice_get (tables (log snapshot.now.history)) number ≡ Some table.now }
    ensures { IfOk result (PicksIn snapshot.now.history number) }
{
    let alloc = snapshot.allocator();
    match pick(alloc, snapshot.extents(number))? {
        Some(picked) => Ok(Some(Merging {
            table: number,
            old: ids_of(alloc, picked.as_slice())?,
            extent: merged(alloc, &picked, &table.schema, 0)?,
        })),
        None => Ok(None),
    }
}

fn ids_of(alloc: Global, extents: &[Arc<Extent, Global>]) -> Result<Ids, Memory>
    ensures { IfOk result (λ ids. ids ≡ map (λ (e : ExtentView). e.id) (map arc_value extents.now)) }
{
    let mut ids = Ids::new(alloc);
    for extent in extents {
        ids.push(extent.id())?;
    }
    Ok(ids)
}
