// The fields of a record.
ghost use Rattle.std.specs.Prelude.{◌≡◌, OnOk, map};
ghost use Rattle.csv.specs.Records.{fields_of};
ghost use Rattle.kq_value_conversions.specs.Converted.{printed};
ghost use Rattle.kq_export_csv.specs.Artefacts.{name_of};

use csv::ByteRecord;
use kq_value::{Field, Memory, Value};
use kq_value_conversions::put_text;
use std::alloc::Global;

// The record of a row, in place of what it had. The text of each cell passes through `text`.
pub(crate) fn fill(
    alloc: Global,
    fields: &mut ByteRecord,
    text: &mut String,
    cells: &[Value],
) -> Result<(), Memory>
    ensures { OnOk result (fields_of fields.new ≡ map printed cells.now) }
{
    fields.clear();
    for cell in cells {
        text.clear();
        put_text(alloc, cell, text)?;
        fields.push_field(text.as_bytes())?;
    }
    Ok(())
}

// The record of the columns' names, in place of what it had.
pub(crate) fn fill_names(fields: &mut ByteRecord, columns: &[Field]) -> Result<(), Memory>
    ensures { OnOk result (fields_of fields.new ≡ map name_of columns.now) }
{
    fields.clear();
    for column in columns {
        fields.push_field(column.name.as_str().as_bytes())?;
    }
    Ok(())
}
