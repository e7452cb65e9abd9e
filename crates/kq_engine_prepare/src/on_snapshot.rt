// What a snapshot tells of a command.
ghost use Rattle.std.specs.Prelude.{◌≡◌, ◌<◌, IfOk, IfErr, None, OnOk, length};
ghost use Rattle.std.specs.Option.{option_map};
ghost use Rattle.std.specs.List.{slice_get};
ghost use Rattle.kq_read_commands.specs.declared.columns.Column.{Column as Described};
ghost use Rattle.kq_read_commands.specs.declared.command.Command.TheVariants as commands;
ghost use Rattle.kq_engine_prepare.specs.Due.{repeated_place as place_of_repeat, text_refusal, view_refusal};
ghost use Rattle.kq_engine_prepare.specs.Fits.{AnswersCommand};
ghost use Rattle.kq_engine_prepare.specs.Found.{IsFound, IsGoodText, IsReady, RefusesText, TakesMemory, TakesToFind, is_prepared_outside as is_prepared_outside_by};
ghost use Rattle.kq_catalog_journal.specs.History.{History};
ghost use Rattle.kq_reply.specs.declared.refusal.Refusal.TheVariants as refusals;
ghost use Rattle.kq_reply.specs.declared.reply.Reply.TheVariants as replies;
ghost use Rattle.kq_value.specs.Typed.{IsMoment};

use crate::changes::find_change;
use crate::folds::find_fold;
use crate::found::Found;
use crate::merges::find_merge;
use crate::query::answer;
use crate::shows::show;
use kq_catalog::Snapshot;
use kq_engine_query::Gatherer;
use kq_read_commands::{Change, Column, Columns, Command, NewView};
use kq_reply::Refusal;
use kq_value::Memory;
use kq_view_body::unsupported_in_query;

/// What the snapshot tells of the command at the moment. A refusal is what the snapshot's history gives, or want of memory where the
/// command takes some here. Queries and shows are answered here, the rows of an ingestion are read here and laid out in columns, the
/// extents of a merge are picked here and made into one, and a fold's rows are gathered here and put to the view's part. The gatherer
/// gathers the groups of a query.
pub fn look<G: Gatherer>(
    snapshot: &Snapshot,
    command: &Command,
    gatherer: &G,
    now: i64,
) -> Result<Found, Refusal>
    requires ready { G.ready gatherer.now }
    requires moment { IsMoment now }
    ensures ready { IfOk result (IsReady snapshot.now.limits snapshot.now.history now command.now) }
    ensures refused { IfErr result (λ r. AnswersCommand snapshot.now.limits snapshot.now.history now command.now (replies.Refused r)) }
    ensures memory { IfErr result (λ r. r ≡ refusals.Memory → TakesMemory snapshot.now.history command.now) }
{
    check_text(command)?;
    if is_prepared_outside(command) {
        find(snapshot, command, gatherer, now)
    } else {
        Ok(Found::Pending)
    }
}

// Gives the refusal of the text alone.
fn check_text(command: &Command) -> Result<(), Refusal>
    ensures good { OnOk result (IsGoodText command.now) }
    ensures refused { IfErr result (RefusesText command.now) }
    ensures memory { IfErr result (λ r. r ≡ refusals.Memory → (h : History) → TakesMemory h command.now) }
{
    match command {
        Command::Change(change) => check_change(change),
        Command::Query(_) | Command::Show(_) | Command::Fold(_) | Command::Merge(_) => Ok(()),
    }
}

fn check_change(change: &Change) -> Result<(), Refusal>
    ensures good { OnOk result (text_refusal change.now ≡ None) }
    ensures refused { IfErr result (RefusesText (commands.Change change.now)) }
    ensures memory { IfErr result (λ r. r ≡ refusals.Memory → (h : History) → TakesMemory h (commands.Change change.now)) }
{
    let repeated = match change {
        Change::CreateTable { name: _, columns } | Change::AlterMerge { name: _, columns } => {
            repeated_place(columns)?
        }
        Change::Ingest(ingestion) => ingestion.properties.repeated,
        Change::CreateView(view) => return check_view(view),
        Change::SetPolicy { .. } => return Ok(()),
    };
    match repeated {
        Some(at) => Err(Refusal::Mistyped { at: at as u64 }),
        None => Ok(()),
    }
}

fn check_view(view: &NewView) -> Result<(), Refusal>
    ensures good { OnOk result (view_refusal view.now ≡ None) }
    ensures refused { IfErr result (λ r. view_refusal view.now ≡ Some r) }
{
    let body = &view.body;
    if let Some(at) = unsupported_in_query(body.text.as_str(), &body.tree) {
        return Err(Refusal::Unsupported { at: at as u64 });
    }
    match view.repeated {
        Some(at) => Err(Refusal::Mistyped { at: at as u64 }),
        None => Ok(()),
    }
}

fn is_prepared_outside(command: &Command) -> bool
    ensures { result ≡ is_prepared_outside_by command.now }
{
    !matches!(
        command,
        Command::Change(
            Change::CreateTable { .. }
                | Change::AlterMerge { .. }
                | Change::CreateView(_)
                | Change::SetPolicy { .. }
        )
    )
}

/// What a command of a good text is due at a moment.
pub fn find<G: Gatherer>(
    snapshot: &Snapshot,
    command: &Command,
    gatherer: &G,
    now: i64,
) -> Result<Found, Refusal>
    requires ready { G.ready gatherer.now }
    requires moment { IsMoment now }
    requires good { IsGoodText command.now }
    ensures found { IfOk result (IsFound snapshot.now.limits snapshot.now.history now command.now) }
    ensures refused { IfErr result (λ r. AnswersCommand snapshot.now.limits snapshot.now.history now command.now (replies.Refused r)) }
    ensures memory { IfErr result (λ r. r ≡ refusals.Memory → TakesToFind snapshot.now.history command.now) }
{
    match command {
        Command::Query(query) => Ok(Found::Says(answer(snapshot, query, gatherer, now)?)),
        Command::Show(asked) => Ok(Found::Says(show(snapshot, asked)?)),
        Command::Change(change) => find_change(snapshot, change),
        Command::Merge(table) => find_merge(snapshot, table),
        Command::Fold(view) => find_fold(snapshot, view),
    }
}

// The place of the first column whose name stands before it.
fn repeated_place(columns: &Columns) -> Result<Option<usize>, Memory>
    ensures place { IfOk result (λ place. place ≡ place_of_repeat columns.now) }
    ensures memory { IfErr result (λ _. 256 < length columns.now) }
{
    match columns.repeated()? {
        Some(i) => Ok(place_at(columns.as_slice(), i)),
        None => Ok(None),
    }
}

fn place_at(columns: &[Column], i: usize) -> Option<usize>
    ensures { result ≡ option_map (λ (c : Described). c.name.at) (slice_get columns.now i) }
{
    let column = columns.get(i)?;
    Some(column.name.at)
}
