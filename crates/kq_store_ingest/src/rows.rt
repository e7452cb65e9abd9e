// The records of a body, read as rows that lie in columns.
ghost use Rattle.std.specs.Prelude.{◌≡◌, ◌≢◌, ◌<◌, [], true, false, length, Some, None, IfOk, IfErr, OnOk};
ghost use Rattle.std.specs.List.{All};
ghost use Rattle.csv.specs.Reading.{ReadRecord, error_kind, stops_reader};
ghost use Rattle.csv.specs.Records.{fields_of};
ghost use Rattle.kq_store_extent.specs.Coming.{types_of, with_row};
ghost use Rattle.kq_value.specs.Typed.{HasTypes};
ghost use Rattle.kq_store_ingest.specs.Reading.{HasText, IsPlain, known};
ghost use Rattle.kq_store_ingest.specs.Ingestion.{IsFaultAt, first_fault, is_wide, row_of, rows_of};

use crate::cell::read_cell;
use crate::fault::IngestFault;
use crate::shared::{Kept, Texts};
use csv::{Error, ErrorKind, Reader, ReaderBuilder, StringRecord};
use json::Scratch;
use kq_store_extent::{Columns, ColumnsBuilder};
use kq_value::{Memory, Schema, Value};
use std::alloc::Global;

// Fills a row that has no cells yet with those of a record.
fn fill_row(
    alloc: Global,
    kept: &mut Kept,
    row: &mut Vec<Value>,
    cells: &StringRecord,
    schema: &Schema,
) -> Result<(), Memory>
    requires { row.old.items ≡ [] }
    ensures { OnOk result (row.new.items ≡ row_of schema.now (fields_of cells.now)) }
{
    let fields = schema.as_slice();
    for i in 0..fields.len() {
        row.push(read_cell(alloc, kept, fields[i].ty, cells.get(i))?)?;
    }
    Ok(())
}

// Adds the record's row, unless it is too wide or one row too many. The row is read into `row`, and its cells go to their columns from there.
fn add_row(
    alloc: Global,
    kept: &mut Kept,
    rows: ColumnsBuilder,
    row: &mut Vec<Value>,
    cells: &StringRecord,
    schema: &Schema,
    skip_first: bool,
    limit: u64,
) -> Result<ColumnsBuilder, IngestFault>
    requires types { rows.types ≡ types_of schema.now }
    requires empty { row.old.items ≡ [] }
    ensures added { IfOk result (λ more. more ≡ with_row rows (row_of schema.now (fields_of cells.now))) }
    ensures left { OnOk result (row.new.items ≡ []) }
    ensures narrow { OnOk result (is_wide schema.now (fields_of cells.now) ≡ false) }
    ensures room { OnOk result (length rows.rows < limit) }
    ensures fault { IfErr result (λ e. IsFaultAt schema.now skip_first limit (length rows.rows) (fields_of cells.now) e) }
{
    let before = rows.len() as u64;
    if cells.len() > schema.len() {
        return Err(IngestFault::WideRow {
            row: u64::from(skip_first) + before + 1,
        });
    }
    if before >= limit {
        return Err(IngestFault::Full { limit });
    }
    fill_row(alloc, kept, row, cells, schema)?;
    let more = rows.push(row.as_slice())?;
    row.clear();
    Ok(more)
}

// Records of any number of cells, from a text, are refused for want of memory alone. A slice has no error of its own to give, but
// the contract of the reader of CSV doesn't say so.
fn reading_fault(error: &Error) -> IngestFault
    requires { stops_reader (error_kind error.now) ≡ true }
    ensures { result ≡ IngestFault.Memory }
{
    match error.kind() {
        ErrorKind::Io(_) | ErrorKind::OutOfMemory => IngestFault::Memory,
        _ => unreachable!(),
    }
}

// Reads the next record over the one before, and says whether there was one.
fn read_record(reader: &mut Reader<&[u8]>, cells: &mut StringRecord) -> Result<bool, IngestFault>
    requires plain { IsPlain reader.old }
    requires text { HasText reader.old }
    ensures read { IfOk result (λ found. ReadRecord known reader.old reader.new found (fields_of cells.new)) }
    ensures plain { OnOk result (IsPlain reader.new) }
    ensures fault { IfErr result (λ e. e ≡ IngestFault.Memory) }
{
    match reader.read_record(cells) {
        Ok(found) => Ok(found),
        Err(error) => Err(reading_fault(&error)),
    }
}

/// Reads the rows of a body of CSV as RFC 4180 has it, with any number of cells in a record, into columns. Where `skip_first` is set,
/// the first record is no row, whatever it holds, but it counts in the number of a row that is too wide.
///
/// An error is the first in the order of the records, unless it is want of memory.
pub fn read_rows(
    alloc: Global,
    body: &str,
    schema: &Schema,
    skip_first: bool,
    limit: u64,
) -> Result<Columns, IngestFault>
    ensures rows { IfOk result (λ rows. rows ≡ rows_of schema.now skip_first body.now) }
    ensures typed { IfOk result (λ rows. All (HasTypes schema.now) rows) }
    ensures sound { OnOk result (first_fault schema.now skip_first limit body.now ≡ None) }
    ensures fault { IfErr result (λ e. e ≢ IngestFault.Memory → first_fault schema.now skip_first limit body.now ≡ Some e) }
{
    let mut reader = ReaderBuilder::new()
        .has_headers(false)
        .flexible(true)
        .from_reader(alloc, body.as_bytes());
    let mut cells = StringRecord::new(alloc);
    let mut kept = Kept {
        texts: Texts::new(alloc)?,
        scratch: Scratch::new(alloc),
        entries: 0,
    };
    let mut rows = ColumnsBuilder::new(alloc, schema)?;
    let mut row = Vec::new(alloc);
    let mut skip = skip_first;
    while read_record(&mut reader, &mut cells)? {
        if skip {
            skip = false;
        } else {
            rows = add_row(
                alloc, &mut kept, rows, &mut row, &cells, schema, skip_first, limit,
            )?;
        }
    }
    Ok(rows.finish()?)
}
