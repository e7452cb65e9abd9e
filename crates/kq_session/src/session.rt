// The session's loop.
ghost use Rattle.std.specs.Prelude.{◌≡◌, ◌≢◌, ◌<◌, ℕ, [], Some, vec_len, vec_capacity};
ghost use mathlib.Core.List.{IsPrefix};
ghost use Rattle.kq_world.specs.Outside.{HasCause, contents};
ghost use Rattle.kq_export_interface.specs.Due.{nothing_held};
ghost use Rattle.kq_session.specs.Blocks.{GoesOn, serves_to};
ghost use Rattle.kq_script_blocks.specs.Reading.{IsReading, IsUnclosed as MayGoOn};
ghost use Rattle.kq_session.specs.Complete.{CompletesSession};
ghost use Rattle.kq_session.specs.Objects.{objects};
ghost use Rattle.kq_session.specs.Session.{Explained, IsShortFor, PassGoesOn, command_bytes, input_bytes};
ghost use Rattle.kq_session.specs.declared.end.End.{End as Ending};
ghost use Rattle.kq_session.specs.Exchanges.{SessionComesTo, Replies, Rises, TakesExchange, state_of};

use crate::answer::answer;
use crate::end::End;
use crate::receipt::{Receipt, Receipts};
use crate::requests::Requests;
use crate::served::Served;
use crate::service::Service;
use kq_catalog_journal::By;
use kq_engine::{Pass, Shared};
use kq_export_interface::Exporter;
use kq_reply_print::write_reply;
use kq_script_blocks::{Item, ScriptFault, ScriptReader};
use kq_world::{Clock, Failed, Gate, Parts, Point, Sink, Source};
use std::alloc::Global;
use std::sync::Wait;
use std::thread::Threads;

// The most bytes of a command.
const COMMAND_BYTES: u64 = 16_777_216;

// The most bytes that a session takes.
const INPUT_BYTES: u64 = 4_294_967_296;

// A session that is under way.
#[derive(Drop)]
pub(crate) struct Session<S: Drop, K: Drop, C: Drop, E: Drop> {
    pub pass: Pass,
    pub parts: Parts<S, K, C>,
    pub exporter: E,
    pub receipts: Vec<Receipt>,
    pub requests: Requests,
}

/// Serves a session to its end. Others may be served at the same time, each with a pass of its own. Session 0 alone has
/// an exporter that serves, which no one has asked yet. It waits.
pub fn serve<R: Threads + Wait + Sync, S: Source, K: Sink, C: Clock, G: Gate, E: Exporter>(
    rt: &R,
    alloc: Global,
    shared: &Shared,
    pass: Pass,
    actor: u32,
    parts: Parts<S, K, C>,
    exporter: E,
    gate: &G,
) -> Served<S, K, C, E>
    requires of { pass.of ≡ shared.now.turn }
    requires serves { (E.told exporter).serves ≡ serves_to actor }
    requires holds { (E.told exporter).holding ≡ nothing_held }
    requires unasked { (E.told exporter).seen ≡ [] }
    ensures pass { PassGoesOn actor pass result.pass result.session.receipts }
    ensures explained { Explained shared.now.limits result.pass.seen actor result.exporter.holding (contents S.told K.accepted C.readings parts) result.session }
    ensures exporter { GoesOn result.pass.seen (E.told exporter) result.exporter }
    ensures complete { CompletesSession shared.now.limits result.pass.seen actor result.exporter.holding (objects S.told S.faults K.accepted K.faults C.readings parts) result.session }
    ensures source { Rises (S.faults parts.source) result.session.objects.source_faults (result.session.status ≡ 3) }
    ensures sink { Rises (K.faults parts.sink) result.session.objects.sink_faults (result.session.status ≡ 4) }
{
    let service = Service {
        rt,
        alloc,
        shared,
        gate,
    };
    let receipts = Vec::new(alloc);
    let mut session = Session {
        pass,
        parts,
        exporter,
        receipts,
        requests: Requests::new(),
    };
    let end = serve_session(&service, actor, &mut session);
    let status = end.status(session.receipts.as_slice());
    let Session {
        pass,
        parts,
        exporter,
        receipts,
        requests,
    } = session;
    Served {
        pass,
        parts,
        exporter,
        receipts: Receipts::from_vec(receipts),
        requests,
        end,
        status,
    }
}

fn serve_session<R: Threads + Wait + Sync, S: Source, K: Sink, C: Clock, G: Gate, E: Exporter>(
    service: &Service<R, G>,
    actor: u32,
    session: &mut Session<S, K, C, E>,
) -> End
    requires of { session.old.pass.of ≡ service.now.shared.now.turn }
    requires fresh { session.old.receipts.items ≡ [] }
    requires serves { (E.told session.old.exporter).serves ≡ serves_to actor }
    requires holds { (E.told session.old.exporter).holding ≡ nothing_held }
    requires unasked { (E.told session.old.exporter).seen ≡ [] }
    ensures comes { let at = state_of S.told K.accepted C.readings E.told in SessionComesTo service.now.shared.now.limits actor (at session.old) (at session.new) result }
    ensures short { IsShortFor result session.new.requests session.new.receipts.items }
    ensures source { Rises (S.faults session.old.parts.source) (S.faults session.new.parts.source) (result ≡ End.SourceFault) }
    ensures sink { Rises (K.faults session.old.parts.sink) (K.faults session.new.parts.sink) (result ≡ End.SinkFault) }
{
    match session
        .requests
        .reader(service.alloc, COMMAND_BYTES, INPUT_BYTES)
    {
        Ok(mut reader) => serve_script(service, actor, &mut reader, session),
        Err(_) => End::Short,
    }
}

fn serve_script<R: Threads + Wait + Sync, S: Source, K: Sink, C: Clock, G: Gate, E: Exporter>(
    service: &Service<R, G>,
    actor: u32,
    reader: &mut ScriptReader,
    session: &mut Session<S, K, C, E>,
) -> End
    requires of { session.old.pass.of ≡ service.now.shared.now.turn }
    requires reading { let source = S.told session.old.parts.source in IsReading command_bytes input_bytes reader.old source source [] [] }
    requires fresh { session.old.receipts.items ≡ [] }
    requires serves { (E.told session.old.exporter).serves ≡ serves_to actor }
    requires holds { (E.told session.old.exporter).holding ≡ nothing_held }
    requires unasked { (E.told session.old.exporter).seen ≡ [] }
    ensures comes { let at = state_of S.told K.accepted C.readings E.told in SessionComesTo service.now.shared.now.limits actor (at session.old) (at session.new) result }
    ensures short { IsShortFor result session.new.requests session.new.receipts.items }
    ensures source { Rises (S.faults session.old.parts.source) (S.faults session.new.parts.source) (result ≡ End.SourceFault) }
    ensures sink { Rises (K.faults session.old.parts.sink) (K.faults session.new.parts.sink) (result ≡ End.SinkFault) }
{
    for number in 1..u64::MAX {
        let by = By { actor, number };
        if let Some(end) = exchange(service, by, reader, session) {
            return end;
        }
    }
    // No list has so many receipts.
    unreachable!()
}

// One block, or the end.
fn exchange<R: Threads + Wait + Sync, S: Source, K: Sink, C: Clock, G: Gate, E: Exporter>(
    service: &Service<R, G>,
    by: By,
    reader: &mut ScriptReader,
    session: &mut Session<S, K, C, E>,
) -> Option<End>
    requires of { session.old.pass.of ≡ service.now.shared.now.turn }
    requires goes_on { MayGoOn reader.old }
    requires serves { (E.told session.old.exporter).serves ≡ serves_to by.actor }
    requires behind { IsPrefix (E.told session.old.exporter).seen session.old.pass.seen }
    ensures exchange { TakesExchange S.told K.accepted C.readings E.told service.now.shared.now.limits by reader.old reader.new session.old session.new result }
    ensures short { (end : Ending) → result ≡ Some end → IsShortFor end session.new.requests session.new.receipts.items }
    ensures source { Rises (S.faults session.old.parts.source) (S.faults session.new.parts.source) (result ≡ Some End.SourceFault) }
    ensures sink { Rises (K.faults session.old.parts.sink) (K.faults session.new.parts.sink) (result ≡ Some End.SinkFault) }
{
    if session.requests.room(&mut session.receipts).is_err() {
        return Some(End::Short);
    }
    let item = match reader.next_command(&mut session.parts.source) {
        Ok(item) => item,
        Err(ScriptFault::ReadFault) => return Some(End::SourceFault),
        Err(ScriptFault::InputLimit) => return Some(End::InputLimit),
    };
    match item {
        Item::Finished => Some(End::Finished),
        block => match reply(service, by, block, session) {
            Ok(()) => {
                let By { actor, number } = by;
                service.gate.at(Point::Answered { actor, number });
                None
            }
            Err(Failed) => Some(End::SinkFault),
        },
    }
}

// Answers a block, keeps the receipt, for which there is room, and writes the reply.
fn reply<R: Threads + Wait + Sync, S: Source, K: Sink, C: Clock, G: Gate, E: Exporter>(
    service: &Service<R, G>,
    by: By,
    item: Item,
    session: &mut Session<S, K, C, E>,
) -> Result<(), Failed>
    requires of { session.old.pass.of ≡ service.now.shared.now.turn }
    requires block { item ≢ Item.Finished }
    requires room { vec_len session.old.receipts < vec_capacity session.old.receipts }
    requires serves { (E.told session.old.exporter).serves ≡ serves_to by.actor }
    requires behind { IsPrefix (E.told session.old.exporter).seen session.old.pass.seen }
    ensures source { session.new.parts.source ≡ session.old.parts.source }
    ensures replied { let at = state_of S.told K.accepted C.readings E.told in Replies service.now.shared.now.limits by item (at session.old) (at session.new) result }
    ensures sink { HasCause (K.faults session.old.parts.sink) (K.faults session.new.parts.sink) result }
{
    let By { actor, number } = by;
    service.gate.at(Point::Starting { actor, number });
    let moment = session.parts.clock.now();
    let outcome = answer(
        service,
        &mut session.pass,
        &mut session.exporter,
        by,
        item,
        moment,
    );
    session.receipts.push_reserved(Receipt {
        number,
        place: outcome.place,
        own: outcome.own,
        moment,
        kind: outcome.reply.kind(),
    });
    write_reply(&outcome.reply, &mut session.parts.sink)
}
