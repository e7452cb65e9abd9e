// The first look for a command, under the lock.
ghost use Rattle.std.specs.Prelude.{◌≡◌, IfErr, IfOk, true};
ghost use Rattle.kq_catalog.specs.Seen.{hist};
ghost use Rattle.kq_read_commands.specs.declared.command.Command.TheVariants as commands;
ghost use Rattle.kq_engine_prepare.specs.Fits.{AnswersCommand};
ghost use Rattle.kq_engine_prepare.specs.Folds.{view_number};
ghost use Rattle.kq_engine_prepare.specs.Found.{IsLooked, IsMergeable, LagsBehind, TakesMemory, TakesToShow};
ghost use Rattle.kq_catalog_journal.specs.History.{log, tables, table_numbered};
ghost use Rattle.kq_reply.specs.declared.refusal.Refusal.TheVariants as refusals;
ghost use Rattle.kq_reply.specs.declared.reply.Reply.TheVariants as replies;
ghost use Rattle.kq_value.specs.Typed.{IsMoment};

use crate::found::Found;
use crate::merges::may_merge;
use crate::on_snapshot::look;
use kq_catalog::{Catalog, Snapshot};
use kq_engine_query::Alone;
use kq_read_commands::{Change, Command, Identifier, Show};
use kq_reply::Refusal;
use std::alloc::AllocError;

/// What is told at once, or a snapshot on which the command is prepared outside the lock.
#[derive(Drop)]
pub enum Looked {
    Told(Found),
    Taken(Snapshot),
}

/// A snapshot where preparing the command takes memory. Where it takes none it is prepared here, which reads no row.
pub fn first_look(catalog: &Catalog, command: &Command, now: i64) -> Result<Looked, Refusal>
    requires { IsMoment now }
    ensures looked { IfOk result (IsLooked catalog.now.limits (hist catalog.now) now command.now) }
    ensures refused { IfErr result (λ r. AnswersCommand catalog.now.limits (hist catalog.now) now command.now (replies.Refused r)) }
    ensures memory { IfErr result (λ r. r ≡ refusals.Memory → TakesMemory (hist catalog.now) command.now) }
{
    let present = catalog.present();
    if takes_memory(present, command) {
        return match catalog.snapshot() {
            Ok(snapshot) => Ok(Looked::Taken(snapshot)),
            Err(AllocError) => Err(Refusal::Memory),
        };
    }
    match look(present, command, &Alone, now) {
        Ok(found) => Ok(Looked::Told(found)),
        Err(refusal) => Err(refusal),
    }
}

// Whether preparing the command takes memory. To tell it takes none.
fn takes_memory(snapshot: &Snapshot, command: &Command) -> bool
    ensures { result ≡ true → TakesMemory snapshot.now.history command.now }
{
    match command {
        Command::Query(_) => true,
        Command::Show(asked) => takes_to_show(snapshot, asked),
        Command::Change(change) => takes_to_change(snapshot, change),
        Command::Merge(table) => is_mergeable(snapshot, table),
        Command::Fold(view) => lags_behind(snapshot, view),
    }
}

fn takes_to_show(snapshot: &Snapshot, asked: &Show) -> bool
    ensures { result ≡ true → TakesToShow snapshot.now.history asked.now }
{
    match asked {
        Show::View(view) => matches!(snapshot.view(&view.text), Some(_)),
        Show::Extents(table) => matches!(snapshot.table(&table.text), Some(_)),
        Show::Failures | Show::Journal => true,
    }
}

fn takes_to_change(snapshot: &Snapshot, change: &Change) -> bool
    ensures { result ≡ true → TakesMemory snapshot.now.history (commands.Change change.now) }
{
    match change {
        Change::CreateTable { name: _, columns } | Change::AlterMerge { name: _, columns } => {
            columns.len() > 256
        }
        Change::Ingest(ingestion) => matches!(snapshot.table(&ingestion.table.text), Some(_)),
        Change::CreateView(_) | Change::SetPolicy { .. } => false,
    }
}

fn is_mergeable(snapshot: &Snapshot, table: &Identifier) -> bool
    ensures { result ≡ true → IsMergeable snapshot.now.history (table_numbered table.now.text (tables (log snapshot.now.history))) }
{
    match snapshot.table(&table.text) {
        Some((number, _table)) => may_merge(snapshot, number),
        None => false,
    }
}

fn lags_behind(snapshot: &Snapshot, view: &Identifier) -> bool
    ensures { result ≡ true → LagsBehind snapshot.now.history (view_number snapshot.now.history view.now) }
{
    match snapshot.view(&view.text) {
        Some((number, _view)) => snapshot.view_cursor(number) != snapshot.cursor(),
        None => false,
    }
}
