// Columns and cells of what is shown.
ghost use Rattle.std.specs.Prelude.{◌≡◌, IfOk, map};
ghost use Rattle.kq_engine_show.specs.Cells.{column, number_cell as cell_of};

use kq_value::{Field, Memory, Schema, Text, Ty, Value};
use std::alloc::Global;

pub(crate) fn schema_of(alloc: Global, columns: &[(&str, Ty)]) -> Result<Schema, Memory>
    ensures { IfOk result (λ schema. schema ≡ map (λ c. column c.0.now c.1) columns.now) }
{
    let mut schema = Schema::new(alloc);
    for (name, ty) in columns {
        let name = Text::from_str(alloc, name)?;
        schema.push(Field { name, ty: *ty })?;
    }
    Ok(schema)
}

pub(crate) fn number_cell(number: u64) -> Value
    ensures { result ≡ cell_of number }
{
    match i64::try_from(number) {
        Ok(number) => Value::Long(number),
        Err(_) => Value::Null(Ty::Long),
    }
}
