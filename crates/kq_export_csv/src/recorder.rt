// Records of CSV, written one after another.
ghost use Rattle.std.specs.Prelude.{◌≡◌, ◌++◌, OnOk};
ghost use Rattle.csv.specs.Records.{fields_of};
ghost use Rattle.csv.specs.Writing.{default_writer, row_text, writer_under};
ghost use Rattle.kq_export_csv.specs.Artefacts.{header_line, record_line, row_line};
ghost use Rattle.kq_export_csv.specs.Recording.{IsBetweenRecords};

use crate::fields::{fill, fill_names};
use csv::{ByteRecord, Writer, WriterBuilder};
use kq_value::{Bytes, Field, Memory, Value};
use std::alloc::{AllocError, Global};

// A writer that holds more bytes than this is replaced.
const MOST_HELD: usize = 65_536;

// What the records of an artefact are made with. One writer serves them all, because each clears a buffer of 8 KB.
#[derive(Drop)]
pub(crate) struct Recorder {
    alloc: Global,
    writer: Writer<Vec<u8>>,
    fields: ByteRecord,
    cell: String,
}

impl Recorder {
    pub(crate) fn new(alloc: Global) -> Recorder
        ensures { IsBetweenRecords result.writer }
    {
        Recorder {
            alloc,
            writer: new_writer(alloc),
            fields: ByteRecord::new(alloc),
            cell: String::new(alloc),
        }
    }

    // Puts the names of columns behind a text as a record, without the LF at its end.
    pub(crate) fn put_names(&mut self, text: &mut Bytes, columns: &[Field]) -> Result<(), Memory>
        requires { IsBetweenRecords self.old.writer }
        ensures between { OnOk result (IsBetweenRecords self.new.writer) }
        ensures text { OnOk result (text.new ≡ text.old ++ header_line columns.now) }
    {
        fill_names(&mut self.fields, columns)?;
        put_record(self.alloc, &mut self.writer, text, &self.fields)
    }

    // Puts a row behind a text as a record, without the LF at its end.
    pub(crate) fn put_row(&mut self, text: &mut Bytes, cells: &[Value]) -> Result<(), Memory>
        requires { IsBetweenRecords self.old.writer }
        ensures between { OnOk result (IsBetweenRecords self.new.writer) }
        ensures text { OnOk result (text.new ≡ text.old ++ row_line cells.now) }
    {
        fill(self.alloc, &mut self.fields, &mut self.cell, cells)?;
        put_record(self.alloc, &mut self.writer, text, &self.fields)
    }
}

fn new_writer(alloc: Global) -> Writer<Vec<u8>>
    ensures { IsBetweenRecords result }
{
    WriterBuilder::new()
        .flexible(true)
        .from_writer(Vec::new(alloc))
}

// Lets go of the records that were written, once they are many.
fn relieve(alloc: Global, writer: &mut Writer<Vec<u8>>)
    requires { IsBetweenRecords writer.old }
    ensures { IsBetweenRecords writer.new }
{
    if writer.get_ref().len() > MOST_HELD {
        *writer = new_writer(alloc);
    }
}

// Nothing but want of memory stops a writer into memory.
fn write_record(writer: &mut Writer<Vec<u8>>, fields: &ByteRecord) -> Result<(), Memory>
    requires { IsBetweenRecords writer.old }
    ensures between { OnOk result (IsBetweenRecords writer.new) }
    ensures written { OnOk result ((writer_under writer.new).items ≡ (writer_under writer.old).items ++ row_text default_writer (fields_of fields.now)) }
{
    let Ok(()) = writer.write_byte_record(fields) else {
        return Err(AllocError);
    };
    let Ok(()) = writer.flush() else {
        return Err(AllocError);
    };
    Ok(())
}

// Puts a record behind a text, without the LF at its end.
fn put_record(
    alloc: Global,
    writer: &mut Writer<Vec<u8>>,
    text: &mut Bytes,
    fields: &ByteRecord,
) -> Result<(), Memory>
    requires { IsBetweenRecords writer.old }
    ensures between { OnOk result (IsBetweenRecords writer.new) }
    ensures text { OnOk result (text.new ≡ text.old ++ record_line (fields_of fields.now)) }
{
    relieve(alloc, writer);
    let before = writer.get_ref().len();
    write_record(writer, fields)?;
    let written = writer.get_ref().as_slice();
    text.extend(&written[before..written.len() - 1])
}
