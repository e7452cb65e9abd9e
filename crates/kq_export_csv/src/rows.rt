// The bytes of an artefact.
ghost use Rattle.std.specs.Prelude.{◌≡◌, ◌++◌, IfOk, OnOk, false, map};
ghost use Rattle.std.specs.List.{flat_map};
ghost use Rattle.kq_reply.specs.Lines.{AreLines, ended};
ghost use Rattle.kq_export_csv.specs.Artefacts.{IsArtefact, PutsRecords, header_line, row_line};
ghost use Rattle.kq_export_csv.specs.Recording.{IsBetweenRecords};

use crate::recorder::Recorder;
use kq_reply::{Lines, put_lines, sorted};
use kq_store_rows::Rows;
use kq_value::{Bytes, Field, Memory, Value};
use std::alloc::Global;

/// Rows under columns as records of CSV: the names of the columns, and then the rows, each with an LF at its end. `ordered`
/// says that the order of the rows is part of the answer; else the records stand in byte order.
pub fn artefact_of(
    alloc: Global,
    columns: &[Field],
    ordered: bool,
    rows: &Rows,
) -> Result<Bytes, Memory>
    ensures { IfOk result (IsArtefact columns.now ordered rows.now) }
{
    let mut text = Bytes::new(alloc);
    let mut recorder = Recorder::new(alloc);
    put_header(&mut recorder, &mut text, columns)?;
    put_rows(alloc, &mut recorder, &mut text, rows, ordered)?;
    Ok(text)
}

fn put_header(recorder: &mut Recorder, text: &mut Bytes, columns: &[Field]) -> Result<(), Memory>
    requires { IsBetweenRecords recorder.old.writer }
    ensures between { OnOk result (IsBetweenRecords recorder.new.writer) }
    ensures text { OnOk result (text.new ≡ text.old ++ ended (header_line columns.now)) }
{
    recorder.put_names(text, columns)?;
    text.push(b'\n')
}

// The records of the rows, in the order in which they stand in the artefact.
fn put_rows(
    alloc: Global,
    recorder: &mut Recorder,
    text: &mut Bytes,
    rows: &Rows,
    ordered: bool,
) -> Result<(), Memory>
    requires { IsBetweenRecords recorder.old.writer }
    ensures { OnOk result (PutsRecords ordered rows.now text.old text.new) }
{
    if ordered {
        put_in_order(recorder, text, rows)
    } else {
        put_sorted(alloc, recorder, text, rows)
    }
}

fn put_in_order(recorder: &mut Recorder, text: &mut Bytes, rows: &Rows) -> Result<(), Memory>
    requires { IsBetweenRecords recorder.old.writer }
    ensures { OnOk result (text.new ≡ text.old ++ flat_map ended (map row_line rows.now)) }
{
    for i in 0..rows.len() {
        recorder.put_row(text, rows.row(i))?;
        text.push(b'\n')?;
    }
    Ok(())
}

fn put_sorted(
    alloc: Global,
    recorder: &mut Recorder,
    text: &mut Bytes,
    rows: &Rows,
) -> Result<(), Memory>
    requires { IsBetweenRecords recorder.old.writer }
    ensures { OnOk result (PutsRecords false rows.now text.old text.new) }
{
    let held = row_lines(alloc, recorder, rows)?;
    let lines = sorted(alloc, held.bytes.as_slice(), held.sizes.as_slice())?;
    put_lines(text, lines.as_slice())
}

fn row_lines(alloc: Global, recorder: &mut Recorder, rows: &Rows) -> Result<Lines, Memory>
    requires { IsBetweenRecords recorder.old.writer }
    ensures { IfOk result (λ held. AreLines (map row_line rows.now) held.bytes held.sizes.items) }
{
    let mut bytes = Bytes::new(alloc);
    let mut sizes = Vec::with_capacity(alloc, rows.len())?;
    for i in 0..rows.len() {
        let before = bytes.len();
        recorder.put_row(&mut bytes, rows.row(i))?;
        sizes.push(bytes.len() - before)?;
    }
    Ok(Lines { bytes, sizes })
}
