// Columns as they are named in a text.
ghost use Rattle.std.specs.Prelude.{◌≡◌, ◌<◌, IfErr, IfOk, length};
ghost use Rattle.kq_read_commands.specs.Columns.{column_names, field_of, schema_of};
ghost use Rattle.kq_value_text_sets.specs.Names.{repeat_of};
ghost use Rattle.kq_value.specs.Schema.{same_field, same_fields};

use kq_value::{Field, Memory, Schema, Text, Ty};
use kq_value_text_sets::{Named, repeated_name};
use std::marker::Model;

/// A name and the byte offset at which its token starts.
#[derive(Drop)]
pub struct Identifier {
    pub text: Text,
    pub at: usize,
}

/// A column: its name and its type.
#[derive(Drop)]
pub struct Column {
    pub name: Identifier,
    pub ty: Ty,
}

impl Column {
    // whether a column of a table has this name and this type
    fn is(&self, field: &Field) -> bool
        ensures { result ≡ same_field field.now (field_of self.now) }
    {
        field.name.same(&self.name.text) && field.ty.same(self.ty)
    }
}

impl Named for Column {
    ghost name_of = { λ c. c.name.text };

    fn name(&self) -> &Text {
        &self.name.text
    }
}

/// One or more columns in order. Contracts see their list.
#[derive(Drop)]
pub struct Columns {
    columns: Vec<Column>,
}

impl Model for Columns {
    ghost use Rattle.std.specs.Prelude.{List, ◌<◌, length};
    ghost use Rattle.kq_read_commands.specs.declared.columns.Column.{Column};

    ghost Value = { List Column };

    ghost view = { λ c. c.columns.items };

    ghost invariant = { λ c. 0 < length c.columns.items };
}

impl Columns {
    pub fn from_vec(columns: Vec<Column>) -> Columns
        requires { 0 < length columns.items }
        ensures { result ≡ columns.items }
    {
        Columns { columns }
    }

    pub fn as_slice(&self) -> &[Column]
        ensures columns { result.now ≡ self.now }
        ensures some { 0 < length result.now }
    {
        self.columns.as_slice()
    }

    /// The number of columns.
    pub fn len(&self) -> usize
        ensures count { result ≡ length self.now }
        ensures some { 0 < result }
    {
        self.columns.len()
    }

    /// The place, from 0, of the first column whose name stands before it too. Takes no memory for 256 columns or fewer.
    pub fn repeated(&self) -> Result<Option<usize>, Memory>
        ensures place { IfOk result (λ place. place ≡ repeat_of (column_names self.now)) }
        ensures memory { IfErr result (λ _. 256 < length self.now) }
    {
        repeated_name(*self.columns.allocator(), self.columns.as_slice())
    }

    /// Whether a table has these columns, in this order. Takes no memory.
    pub fn are(&self, schema: &Schema) -> bool
        ensures { result ≡ same_fields schema.now (schema_of self.now) }
    {
        let fields = schema.as_slice();
        if fields.len() != self.columns.len() {
            return false;
        }
        for i in 0..fields.len() {
            if !self.columns[i].is(&fields[i]) {
                return false;
            }
        }
        true
    }

    /// The columns without their places.
    pub fn schema(&self) -> Result<Schema, Memory>
        ensures columns { IfOk result (λ s. s ≡ schema_of self.now) }
        ensures some { IfOk result (λ s. 0 < length s) }
    {
        let mut fields = Vec::with_capacity(*self.columns.allocator(), self.columns.len())?;
        for column in &self.columns {
            fields.push(Field {
                name: column.name.text.clone_in()?,
                ty: column.ty,
            })?;
        }
        Ok(Schema::from_vec(fields))
    }
}
