// Answering a block.
ghost use Rattle.std.specs.Prelude.{◌≡◌, ◌≢◌, ℕ, false, length};
ghost use mathlib.Core.List.{IsPrefix};
ghost use Rattle.kq_script_blocks.specs.Script.{Block, command};
ghost use Rattle.kq_script_blocks.specs.Item.{IsItemOf};
ghost use Rattle.kq_value.specs.Typed.{IsMoment};
ghost use Rattle.kq_engine.specs.Shared.{Applies};
ghost use Rattle.kq_reply.specs.declared.reply.Reply.TheVariants as replies;
ghost use Rattle.kq_session.specs.Blocks.{AnswersBlock, AnswersExport, refusal_of, serves_to};

use crate::service::Service;
use kq_catalog_journal::By;
use kq_engine::{Outcome, Pass, Shared, Work};
use kq_export_interface::{Exporter, answered};
use kq_read_commands::{Asked, CommandFault, Export, read_command};
use kq_reply::{Refusal, Reply};
use kq_script_blocks::Item;
use kq_value::Bytes;
use kq_world::Gate;
use std::sync::Wait;
use std::thread::Threads;

// The outcome of a block: what the engine answers to its command, or the refusal of its text.
pub(crate) fn answer<R: Threads + Wait + Sync, G: Gate, E: Exporter>(
    service: &Service<R, G>,
    pass: &mut Pass,
    exporter: &mut E,
    by: By,
    item: Item,
    now: i64,
) -> Outcome
    requires of { pass.old.of ≡ service.now.shared.now.turn }
    requires block { item ≢ Item.Finished }
    requires moment { IsMoment now }
    requires serves { (E.told exporter.old).serves ≡ serves_to by.actor }
    requires behind { IsPrefix (E.told exporter.old).seen pass.old.seen }
    ensures { (limit : ℕ) (block : Block) → IsItemOf limit item block → AnswersBlock service.now.shared.now.limits pass.old pass.new (E.told exporter.old) (E.told exporter.new) by block now result }
{
    let shared = service.shared;
    match item {
        Item::Command(text) => answer_text(service, pass, exporter, by, &text, now),
        Item::TooLong { bytes } => refused(shared, pass, Refusal::TooLong { bytes }),
        Item::Lost => refused(shared, pass, Refusal::Memory),
        Item::Finished => unreachable!(),
    }
}

fn answer_text<R: Threads + Wait + Sync, G: Gate, E: Exporter>(
    service: &Service<R, G>,
    pass: &mut Pass,
    exporter: &mut E,
    by: By,
    text: &Bytes,
    now: i64,
) -> Outcome
    requires of { pass.old.of ≡ service.now.shared.now.turn }
    requires moment { IsMoment now }
    requires serves { (E.told exporter.old).serves ≡ serves_to by.actor }
    requires behind { IsPrefix (E.told exporter.old).seen pass.old.seen }
    ensures { AnswersBlock service.now.shared.now.limits pass.old pass.new (E.told exporter.old) (E.told exporter.new) by (command text.now) now result }
{
    let shared = service.shared;
    match read_command(service.alloc, text.as_slice()) {
        Ok(Asked::Engine(command)) => applied(service, pass, Work { by, command, now }),
        Ok(Asked::Exporter(asked)) => export(service, pass, exporter, &asked),
        Err(fault) => refused(shared, pass, refusal(fault)),
    }
}

// What the engine answers to a command.
fn applied<R: Threads + Wait + Sync, G: Gate>(
    service: &Service<R, G>,
    pass: &mut Pass,
    work: Work,
) -> Outcome
    requires { pass.old.of ≡ service.now.shared.now.turn }
    ensures { Applies service.now.shared.now.limits pass.old pass.new work result }
{
    service.shared.apply(service.rt, pass, &work, service.gate)
}

// What the exporter answers over the catalogue as it stands. The answer has the place of the snapshot and makes no commit.
fn export<R: Wait, G: Gate, E: Exporter>(
    service: &Service<R, G>,
    pass: &mut Pass,
    exporter: &mut E,
    asked: &Export,
) -> Outcome
    requires of { pass.old.of ≡ service.now.shared.now.turn }
    requires behind { IsPrefix (E.told exporter.old).seen pass.old.seen }
    ensures { AnswersExport pass.old pass.new (E.told exporter.old) (E.told exporter.new) asked.now result }
{
    let shared = service.shared;
    match shared.snapshot(service.rt, pass) {
        Ok(snapshot) => Outcome {
            place: shared.seen(pass),
            own: false,
            reply: answered(exporter.export(&snapshot, asked)),
        },
        Err(_) => refused(shared, pass, Refusal::Memory),
    }
}

fn refusal(fault: CommandFault) -> Refusal
    ensures { result ≡ refusal_of fault }
{
    match fault {
        CommandFault::NotText { at } => Refusal::NotText { at: at as u64 },
        CommandFault::Syntax { at } => Refusal::Syntax { at: at as u64 },
        CommandFault::Deep { at } => Refusal::Deep { at: at as u64 },
        CommandFault::Unsupported { at } => Refusal::Unsupported { at: at as u64 },
        CommandFault::Memory => Refusal::Memory,
    }
}

// A refusal that doesn't ask the engine has the place that the session has seen.
fn refused(shared: &Shared, pass: &Pass, refusal: Refusal) -> Outcome
    requires { pass.now.of ≡ shared.now.turn }
    ensures { result ≡ record { place = length pass.now.seen; own = false; reply = replies.Refused refusal } }
{
    Outcome {
        place: shared.seen(pass),
        own: false,
        reply: Reply::Refused(refusal),
    }
}
