// Columns beside those that a table has.
ghost use Rattle.std.specs.Prelude.{◌≡◌, IfOk, List, length, map, not};
ghost use Rattle.std.specs.List.{list_any};
ghost use Rattle.kq_read_commands.specs.Columns.{schema_of};
ghost use Rattle.kq_read_commands.specs.Widening.{first_clash as first_clash_of, is_clash, is_new as is_new_of, new_columns as new_columns_of};

use crate::columns::{Column, Columns};
use kq_value::{Field, Memory, Schema};
use std::alloc::Global;

impl Columns {
    /// The place of the first column that a table with these columns has with another type. Takes no memory.
    pub fn first_clash(&self, schema: &Schema) -> Option<usize>
        ensures { result ≡ first_clash_of schema.now self.now }
    {
        let fields = schema.as_slice();
        let columns = self.as_slice();
        for column in columns {
            if has_clash(column, fields) {
                return Some(column.name.at);
            }
        }
        None
    }

    /// How many of the columns a table with these columns lacks. Takes no memory.
    pub fn count_new(&self, schema: &Schema) -> usize
        ensures { result ≡ length (new_columns_of schema.now self.now) }
    {
        let fields = schema.as_slice();
        let columns = self.as_slice();
        let mut count = 0;
        for column in columns {
            if is_new(column, fields) {
                count += 1;
            }
        }
        count
    }

    /// The columns that a table with these columns lacks, in order and without their places.
    pub fn new_columns(&self, alloc: Global, schema: &Schema) -> Result<Schema, Memory>
        ensures { IfOk result (λ s. s ≡ schema_of (new_columns_of schema.now self.now)) }
    {
        let fields = schema.as_slice();
        let columns = self.as_slice();
        let mut more = Vec::new(alloc);
        for column in columns {
            if is_new(column, fields) {
                more.push(Field {
                    name: column.name.text.clone_in()?,
                    ty: column.ty,
                })?;
            }
        }
        Ok(Schema::from_vec(more))
    }
}

fn has_clash(column: &Column, fields: &[Field]) -> bool
    ensures { result ≡ list_any (is_clash column.now) fields.now }
{
    for field in fields {
        if field.name.same(&column.name.text) && !field.ty.same(column.ty) {
            return true;
        }
    }
    false
}

fn is_new(column: &Column, fields: &[Field]) -> bool
    ensures { result ≡ is_new_of fields.now column.now }
{
    for field in fields {
        if field.name.same(&column.name.text) {
            return false;
        }
    }
    true
}
