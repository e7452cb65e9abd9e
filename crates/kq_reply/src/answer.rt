// The printed form of an answer.
ghost use Rattle.std.specs.Prelude.{◌≡◌, ◌++◌, IfOk, OnOk, All, codes, false, map};
ghost use Rattle.std.specs.List.{flat_map};
ghost use Rattle.kq_value_formats.specs.Cells.{escaped, escaped_byte, reply_text_of};
ghost use Rattle.kq_value.specs.Typed.{HasTypes, IsProper};
ghost use Rattle.kq_reply.specs.Answer.{Prints, PutsRows, column_text, counted, ended, header_text, row_text, tab_before, type_name as name_of};
ghost use Rattle.kq_reply.specs.Lines.{AreLines};

use crate::escape::escape_sign;
use crate::lines::{Lines, put_line, put_lines, sorted};
use itoa::Buffer;
use kq_store_rows::{Answer, Rows};
use kq_value::{Bytes, Field, Memory, Schema, Ty, Value};
use kq_value_json::put_dyn;
use kq_value_time::{put_datetime, put_timespan};
use std::alloc::Global;

/// The answer as it is printed: its number of rows, its header and its rows, each line with an LF at its end.
pub fn render(alloc: Global, answer: &Answer) -> Result<Bytes, Memory>
    requires { All (HasTypes answer.now.schema) answer.now.rows }
    ensures { IfOk result (Prints answer.now) }
{
    let mut text = Bytes::new(alloc);
    put_count(&mut text, answer.rows.len())?;
    put_header(&mut text, &answer.schema)?;
    put_rows(alloc, &mut text, &answer.rows, answer.ordered)?;
    Ok(text)
}

fn put_count(text: &mut Bytes, rows: usize) -> Result<(), Memory>
    ensures { OnOk result (text.new ≡ text.old ++ ended (counted (codes "rows ") rows)) }
{
    let mut digits = Buffer::new();
    text.extend(b"rows ")?;
    put_line(text, digits.format(rows).as_bytes())
}

fn put_header(text: &mut Bytes, schema: &Schema) -> Result<(), Memory>
    ensures { OnOk result (text.new ≡ text.old ++ ended (header_text schema.now)) }
{
    put_columns(text, schema.as_slice())?;
    text.push(b'\n')
}

// The lines of the rows, in the order in which they are printed.
fn put_rows(alloc: Global, text: &mut Bytes, rows: &Rows, ordered: bool) -> Result<(), Memory>
    requires { All (All IsProper) rows.now }
    ensures { OnOk result (PutsRows ordered rows.now text.old text.new) }
{
    if ordered {
        put_in_order(alloc, text, rows)
    } else {
        put_sorted(alloc, text, rows)
    }
}

fn put_in_order(alloc: Global, text: &mut Bytes, rows: &Rows) -> Result<(), Memory>
    requires { All (All IsProper) rows.now }
    ensures { OnOk result (text.new ≡ text.old ++ flat_map ended (map row_text rows.now)) }
{
    for i in 0..rows.len() {
        put_row(alloc, text, rows.row(i))?;
        text.push(b'\n')?;
    }
    Ok(())
}

fn put_sorted(alloc: Global, text: &mut Bytes, rows: &Rows) -> Result<(), Memory>
    requires { All (All IsProper) rows.now }
    ensures { OnOk result (PutsRows false rows.now text.old text.new) }
{
    let held = row_lines(alloc, rows)?;
    let lines = sorted(alloc, held.bytes.as_slice(), held.sizes.as_slice())?;
    put_lines(text, lines.as_slice())
}

fn row_lines(alloc: Global, rows: &Rows) -> Result<Lines, Memory>
    requires { All (All IsProper) rows.now }
    ensures { IfOk result (λ held. AreLines (map row_text rows.now) held.bytes held.sizes.items) }
{
    let mut bytes = Bytes::new(alloc);
    let mut sizes = Vec::with_capacity(alloc, rows.len())?;
    for i in 0..rows.len() {
        let before = bytes.len();
        put_row(alloc, &mut bytes, rows.row(i))?;
        sizes.push(bytes.len() - before)?;
    }
    Ok(Lines { bytes, sizes })
}

fn put_row(alloc: Global, line: &mut Bytes, cells: &[Value]) -> Result<(), Memory>
    requires { All IsProper cells.now }
    ensures { OnOk result (line.new ≡ line.old ++ row_text cells.now) }
{
    for i in 0..cells.len() {
        put_tab(line, i)?;
        put_cell(alloc, line, &cells[i])?;
    }
    Ok(())
}

fn put_columns(line: &mut Bytes, fields: &[Field]) -> Result<(), Memory>
    ensures { OnOk result (line.new ≡ line.old ++ header_text fields.now) }
{
    for i in 0..fields.len() {
        put_tab(line, i)?;
        put_column(line, &fields[i])?;
    }
    Ok(())
}

// A tab before each piece of a line but the first.
fn put_tab(line: &mut Bytes, index: usize) -> Result<(), Memory>
    ensures { OnOk result (line.new ≡ line.old ++ tab_before index) }
{
    if index == 0 {
        return Ok(());
    }
    line.push(b'\t')
}

fn put_column(line: &mut Bytes, field: &Field) -> Result<(), Memory>
    ensures { OnOk result (line.new ≡ line.old ++ column_text field.now) }
{
    put_escaped(line, field.name.as_str().as_bytes())?;
    line.push(b':')?;
    line.extend(type_name(field.ty).as_bytes())
}

fn type_name(ty: Ty) -> &'static str
    ensures { result.now ≡ name_of ty }
{
    match ty {
        Ty::Long => "long",
        Ty::Int => "int",
        Ty::Text => "string",
        Ty::Bool => "bool",
        Ty::Moment => "datetime",
        Ty::Span => "timespan",
        Ty::Dynamic => "dynamic",
    }
}

fn put_cell(alloc: Global, line: &mut Bytes, cell: &Value) -> Result<(), Memory>
    requires { IsProper cell.now }
    ensures { OnOk result (line.new ≡ line.old ++ reply_text_of cell.now) }
{
    let mut digits = Buffer::new();
    let mut ticks = [0; 28];
    match cell {
        Value::Null(_) => line.extend(b"null"),
        Value::Long(n) => line.extend(digits.format(*n).as_bytes()),
        Value::Int(n) => line.extend(digits.format(*n).as_bytes()),
        Value::Text(text) => put_escaped(line, text.as_str().as_bytes()),
        Value::Bool(true) => line.extend(b"true"),
        Value::Bool(false) => line.extend(b"false"),
        Value::Moment(moment) => {
            put_datetime(*moment, &mut ticks);
            line.extend(&ticks)
        }
        Value::Span(span) => {
            let len = put_timespan(*span, &mut ticks);
            line.extend(&ticks[..len])
        }
        Value::Dynamic(value) => put_dyn(alloc, value.as_dyn(), line),
    }
}

fn put_escaped(line: &mut Bytes, text: &[u8]) -> Result<(), Memory>
    ensures { OnOk result (line.new ≡ line.old ++ escaped text.now) }
{
    for byte in text {
        put_escape(line, *byte)?;
    }
    Ok(())
}

fn put_escape(line: &mut Bytes, byte: u8) -> Result<(), Memory>
    ensures { OnOk result (line.new ≡ line.old ++ escaped_byte byte) }
{
    match escape_sign(byte) {
        Some(sign) => line.extend(&[b'\\', sign]),
        None => line.push(byte),
    }
}
