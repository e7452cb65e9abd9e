// What a fold of a view finds.
ghost use Rattle.std.specs.Prelude.{◌≡◌, ◌<◌, IfErr, IfOk, Some};
ghost use Rattle.std.specs.List.Sorted.{IsPermutation};
ghost use Rattle.kq_engine_prepare.specs.Found.{FindsFold, LagsBehind};
ghost use Rattle.kq_engine_prepare.specs.Folds.{AnswersFold, FoldsView, IsFoldingIn, view_number};
ghost use Rattle.kq_catalog_journal.specs.History.{cursor, log, view_cursor, view_count};
ghost use Rattle.kq_catalog_journal.specs.Views.{covered};
ghost use Rattle.kq_engine_query.specs.Answers.{RefusesBy};
ghost use Rattle.kq_engine_query.specs.Views.{view_numbered};
ghost use Rattle.kq_reply.specs.declared.refusal.Refusal.TheVariants as refusals;

use crate::found::{Folding, Found};
use kq_catalog::Snapshot;
use kq_catalog_journal::View;
use kq_engine_query::read_between;
use kq_policy_run::Held;
use kq_read_commands::Identifier;
use kq_reply::{Refusal, Reply};
use kq_value::Memory;
use kq_view_fold::{GroupFault, fold};

// The part of a view up to the snapshot's cursor, or that it is up to there.
pub(crate) fn find_fold(snapshot: &Snapshot, view: &Identifier) -> Result<Found, Refusal>
    ensures found { IfOk result (FindsFold snapshot.now.history view.now) }
    ensures refused { IfErr result (RefusesBy (AnswersFold snapshot.now.history view.now)) }
    ensures memory { IfErr result (λ r. r ≡ refusals.Memory → LagsBehind snapshot.now.history (view_number snapshot.now.history view.now)) }
{
    let Some((number, found)) = snapshot.view(&view.text) else {
        return Err(Refusal::Unknown { at: view.at as u64 });
    };
    let cursor = snapshot.cursor();
    if snapshot.view_cursor(number) == cursor {
        return Ok(Found::Says(Reply::Folded { cursor }));
    }
    Ok(Found::Folds(fold_view(snapshot, number, found)?))
}

/// The part of a view that stands, which goes by its number, up to the snapshot's cursor. It is refused where the body overflows, or for want
/// of memory.
pub fn folding_at(snapshot: &Snapshot, number: u32) -> Result<Folding, Refusal>
    requires { number < view_count (log snapshot.now.history) }
    ensures folding { IfOk result (IsFoldingIn snapshot.now.history number) }
    ensures refused { IfErr result (RefusesBy (FoldsView snapshot.now.history number)) }
{
    match snapshot.view_at(number) {
        Some(view) => fold_view(snapshot, number, view),
        None => unreachable!(),
    }
}

fn fold_view(snapshot: &Snapshot, number: u32, view: &View) -> Result<Folding, Refusal>
    requires { view_numbered snapshot.now.history number ≡ Some view.now }
    ensures folding { IfOk result (IsFoldingIn snapshot.now.history number) }
    ensures refused { IfErr result (RefusesBy (FoldsView snapshot.now.history number)) }
{
    let rows = rows_since(snapshot, number, view)?;
    fold_rows(snapshot, number, view, &rows)
}

// The same of these rows, which the view covers and its part doesn't hold.
fn fold_rows(snapshot: &Snapshot, number: u32, view: &View, rows: &Held) -> Result<Folding, Refusal>
    requires view { view_numbered snapshot.now.history number ≡ Some view.now }
    requires rows { IsPermutation (covered (log snapshot.now.history) view.now (view_cursor snapshot.now.history number) (cursor snapshot.now.history)) rows.now }
    ensures folding { IfOk result (IsFoldingIn snapshot.now.history number) }
    ensures refused { IfErr result (RefusesBy (FoldsView snapshot.now.history number)) }
{
    let alloc = snapshot.allocator();
    let to = snapshot.cursor();
    match fold(alloc, &view.body, snapshot.part(number), rows) {
        Ok(part) => Ok(Folding {
            view: number,
            to,
            part,
        }),
        Err(GroupFault::Overflow { stage }) => Err(Refusal::Overflow { stage }),
        Err(GroupFault::Memory) => Err(Refusal::Memory),
    }
}

// The rows that the view covers and its part doesn't hold, read from no extent but those with later records.
fn rows_since(snapshot: &Snapshot, number: u32, view: &View) -> Result<Held, Memory>
    requires { view_numbered snapshot.now.history number ≡ Some view.now }
    ensures { IfOk result (λ rows. IsPermutation (covered (log snapshot.now.history) view.now (view_cursor snapshot.now.history number) (cursor snapshot.now.history)) rows) }
{
    let alloc = snapshot.allocator();
    let to = snapshot.cursor();
    let above = snapshot.view_cursor(number);
    let extents = snapshot.extents(view.source);
    read_between(alloc, extents, &view.body, above, to)
}
