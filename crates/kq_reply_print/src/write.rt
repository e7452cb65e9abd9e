// The printed form.
ghost use Rattle.std.specs.Prelude.{◌++◌, codes};
ghost use Rattle.kq_world.specs.Outside.{PutsAll, HasCause};
ghost use Rattle.kq_value_formats.specs.Cells.{escaped_byte, escaped};
ghost use Rattle.kq_reply.specs.declared.refusal.Refusal.TheVariants.{PolicyFailed};
ghost use Rattle.kq_reply.specs.declared.reply.Reply.TheVariants.{Exported};
ghost use Rattle.kq_reply_print.specs.Text.{counted, why_text, cause_text, refusal_text, words_of, lines_of, text_of};

use crate::short::ShortText;
use itoa::Buffer;
use kq_reply::{Refusal, Reply, escape_sign};
use kq_store_rows::{Cause, Why};
use kq_value::Text;
use kq_world::{Failed, Sink, put_all};

// How many bytes of a name go out at once. With its escapes such a part is short.
const PART: usize = 2048;

/// Writes the whole printed form, or a beginning of it and then a fault. A short one is handed out whole, so that it can
/// leave in one write. Takes no memory.
pub fn write_reply<K: Sink>(reply: &Reply, sink: &mut K) -> Result<(), Failed>
    ensures puts { PutsAll (K.accepted sink.old) (K.accepted sink.new) result (text_of reply.now) }
    ensures cause { HasCause (K.faults sink.old) (K.faults sink.new) result }
{
    let mut text = ShortText::new();
    match put_reply(&mut text, reply) {
        Ok(()) => put_all(sink, text.bytes()),
        Err(Failed) => put_reply(sink, reply),
    }
}

fn put_reply<K: Sink>(sink: &mut K, reply: &Reply) -> Result<(), Failed>
    ensures puts { PutsAll (K.accepted sink.old) (K.accepted sink.new) result (text_of reply.now) }
    ensures cause { HasCause (K.faults sink.old) (K.faults sink.new) result }
{
    put_lines(sink, reply)?;
    put_all(sink, b"\n")
}

fn put_lines<K: Sink>(sink: &mut K, reply: &Reply) -> Result<(), Failed>
    ensures puts { PutsAll (K.accepted sink.old) (K.accepted sink.new) result (lines_of reply.now) }
    ensures cause { HasCause (K.faults sink.old) (K.faults sink.new) result }
{
    if let Reply::Rows { text } = reply {
        return put_all(sink, text.as_slice());
    }
    put_words(sink, reply)?;
    put_all(sink, b"\n")
}

fn put_words<K: Sink>(sink: &mut K, reply: &Reply) -> Result<(), Failed>
    ensures puts { PutsAll (K.accepted sink.old) (K.accepted sink.new) result (words_of reply.now) }
    ensures cause { HasCause (K.faults sink.old) (K.faults sink.new) result }
{
    match reply {
        Reply::Done { cursor } => put_counted(sink, b"done ", *cursor),
        Reply::Kept { cursor } => put_counted(sink, b"kept ", *cursor),
        Reply::Ingested { cursor, rows } => put_ingested(sink, *cursor, *rows),
        Reply::Skipped { cursor } => put_counted(sink, b"skipped ", *cursor),
        Reply::Folded { cursor } => put_counted(sink, b"folded ", *cursor),
        Reply::Merged { extents } => put_counted(sink, b"merged ", *extents),
        Reply::Nothing => put_all(sink, b"nothing"),
        Reply::Rows { .. } => Ok(()),
        Reply::Exporting => put_all(sink, b"exporting"),
        Reply::Exported { from, to, rows } => put_exported(sink, *from, *to, *rows),
        Reply::Refused(refusal) => put_refused(sink, refusal),
    }
}

fn put_ingested<K: Sink>(sink: &mut K, cursor: u64, rows: u64) -> Result<(), Failed>
    ensures puts { PutsAll (K.accepted sink.old) (K.accepted sink.new) result (counted (codes "ingested ") cursor ++ counted (codes " rows ") rows) }
    ensures cause { HasCause (K.faults sink.old) (K.faults sink.new) result }
{
    put_counted(sink, b"ingested ", cursor)?;
    put_counted(sink, b" rows ", rows)
}

fn put_exported<K: Sink>(sink: &mut K, from: u64, to: u64, rows: u64) -> Result<(), Failed>
    ensures puts { PutsAll (K.accepted sink.old) (K.accepted sink.new) result (words_of (Exported from to rows)) }
    ensures cause { HasCause (K.faults sink.old) (K.faults sink.new) result }
{
    put_counted(sink, b"exported ", from)?;
    put_counted(sink, b" ", to)?;
    put_counted(sink, b" rows ", rows)
}

fn put_refused<K: Sink>(sink: &mut K, refusal: &Refusal) -> Result<(), Failed>
    ensures puts { PutsAll (K.accepted sink.old) (K.accepted sink.new) result (codes "refused " ++ refusal_text refusal.now) }
    ensures cause { HasCause (K.faults sink.old) (K.faults sink.new) result }
{
    put_all(sink, b"refused ")?;
    put_refusal(sink, refusal)
}

fn put_refusal<K: Sink>(sink: &mut K, refusal: &Refusal) -> Result<(), Failed>
    ensures puts { PutsAll (K.accepted sink.old) (K.accepted sink.new) result (refusal_text refusal.now) }
    ensures cause { HasCause (K.faults sink.old) (K.faults sink.new) result }
{
    match refusal {
        Refusal::Memory => put_all(sink, b"Memory"),
        Refusal::Syntax { at } => put_counted(sink, b"Syntax at ", *at),
        Refusal::Deep { at } => put_counted(sink, b"Deep at ", *at),
        Refusal::TooLong { bytes } => put_counted(sink, b"TooLong bytes ", *bytes),
        Refusal::Overflow { stage } => put_counted(sink, b"Overflow stage ", *stage as u64),
        Refusal::Full { limit } => put_counted(sink, b"Full limit ", *limit),
        Refusal::WideRow { row } => put_counted(sink, b"WideRow row ", *row),
        Refusal::BadTags { at } => put_counted(sink, b"BadTags at ", *at),
        Refusal::Unsupported { at } => put_counted(sink, b"Unsupported at ", *at),
        Refusal::Unknown { at } => put_counted(sink, b"Unknown at ", *at),
        Refusal::Mistyped { at } => put_counted(sink, b"Type at ", *at),
        Refusal::Exists { at } => put_counted(sink, b"Exists at ", *at),
        Refusal::Cycle { table } => put_named(sink, b"Cycle ", table),
        Refusal::BadView { at } => put_counted(sink, b"BadView at ", *at),
        Refusal::BadPolicy { entry, why } => put_policy(sink, *entry, *why),
        Refusal::PolicyFailed { target, cause } => put_failed(sink, target, *cause),
        Refusal::NotText { at } => put_counted(sink, b"NotText at ", *at),
        Refusal::NoExporter => put_all(sink, b"NoExporter"),
        Refusal::ArtefactFault => put_all(sink, b"ArtefactFault"),
        Refusal::BadExport { at } => put_counted(sink, b"BadExport at ", *at),
    }
}

fn put_policy<K: Sink>(sink: &mut K, entry: u32, why: Why) -> Result<(), Failed>
    ensures puts { PutsAll (K.accepted sink.old) (K.accepted sink.new) result (counted (codes "BadPolicy entry ") entry ++ codes " " ++ why_text why) }
    ensures cause { HasCause (K.faults sink.old) (K.faults sink.new) result }
{
    put_counted(sink, b"BadPolicy entry ", entry as u64)?;
    put_all(sink, b" ")?;
    put_why(sink, why)
}

fn put_why<K: Sink>(sink: &mut K, why: Why) -> Result<(), Failed>
    ensures puts { PutsAll (K.accepted sink.old) (K.accepted sink.new) result (why_text why) }
    ensures cause { HasCause (K.faults sink.old) (K.faults sink.new) result }
{
    match why {
        Why::Form => put_all(sink, b"Form"),
        Why::Source => put_all(sink, b"Source"),
        Why::Query => put_all(sink, b"Query"),
        Why::Body => put_all(sink, b"Body"),
        Why::Schema => put_all(sink, b"Schema"),
    }
}

fn put_failed<K: Sink>(sink: &mut K, target: &Text, cause: Cause) -> Result<(), Failed>
    ensures puts { PutsAll (K.accepted sink.old) (K.accepted sink.new) result (refusal_text (PolicyFailed target.now cause)) }
    ensures cause { HasCause (K.faults sink.old) (K.faults sink.new) result }
{
    put_named(sink, b"PolicyFailed target ", target)?;
    put_all(sink, b" cause ")?;
    put_cause(sink, cause)
}

fn put_cause<K: Sink>(sink: &mut K, cause: Cause) -> Result<(), Failed>
    ensures puts { PutsAll (K.accepted sink.old) (K.accepted sink.new) result (cause_text cause) }
    ensures cause { HasCause (K.faults sink.old) (K.faults sink.new) result }
{
    match cause {
        Cause::Overflow { stage } => put_counted(sink, b"Overflow stage ", stage as u64),
        Cause::Full { limit } => put_counted(sink, b"Full limit ", limit),
    }
}

// The words, and then the number in decimal.
fn put_counted<K: Sink>(sink: &mut K, words: &[u8], n: u64) -> Result<(), Failed>
    ensures puts { PutsAll (K.accepted sink.old) (K.accepted sink.new) result (counted words.now n) }
    ensures cause { HasCause (K.faults sink.old) (K.faults sink.new) result }
{
    put_all(sink, words)?;
    let mut digits = Buffer::new();
    put_all(sink, digits.format(n).as_bytes())
}

// The words, and then the name with its escapes.
fn put_named<K: Sink>(sink: &mut K, words: &[u8], name: &Text) -> Result<(), Failed>
    ensures puts { PutsAll (K.accepted sink.old) (K.accepted sink.new) result (words.now ++ escaped name.now) }
    ensures cause { HasCause (K.faults sink.old) (K.faults sink.new) result }
{
    put_all(sink, words)?;
    put_escaped(sink, name.as_str().as_bytes())
}

// The name goes in parts, of which each leaves in one write.
fn put_escaped<K: Sink>(sink: &mut K, name: &[u8]) -> Result<(), Failed>
    ensures puts { PutsAll (K.accepted sink.old) (K.accepted sink.new) result (escaped name.now) }
    ensures cause { HasCause (K.faults sink.old) (K.faults sink.new) result }
{
    let mut rest = name;
    while !rest.is_empty() {
        let (part, behind) = rest.split_at(rest.len().min(PART));
        put_part(sink, part)?;
        rest = behind;
    }
    Ok(())
}

// A part of a name. A short one is handed out whole.
fn put_part<K: Sink>(sink: &mut K, part: &[u8]) -> Result<(), Failed>
    ensures puts { PutsAll (K.accepted sink.old) (K.accepted sink.new) result (escaped part.now) }
    ensures cause { HasCause (K.faults sink.old) (K.faults sink.new) result }
{
    let mut text = ShortText::new();
    match put_signs(&mut text, part) {
        Ok(()) => put_all(sink, text.bytes()),
        Err(Failed) => put_signs(sink, part),
    }
}

fn put_signs<K: Sink>(sink: &mut K, name: &[u8]) -> Result<(), Failed>
    ensures puts { PutsAll (K.accepted sink.old) (K.accepted sink.new) result (escaped name.now) }
    ensures cause { HasCause (K.faults sink.old) (K.faults sink.new) result }
{
    for byte in name {
        put_escape(sink, *byte)?;
    }
    Ok(())
}

fn put_escape<K: Sink>(sink: &mut K, byte: u8) -> Result<(), Failed>
    ensures puts { PutsAll (K.accepted sink.old) (K.accepted sink.new) result (escaped_byte byte) }
    ensures cause { HasCause (K.faults sink.old) (K.faults sink.new) result }
{
    match escape_sign(byte) {
        Some(sign) => put_all(sink, &[b'\\', sign]),
        None => put_all(sink, &[byte]),
    }
}
