// Columns.
ghost use Rattle.std.specs.Prelude.{◌≡◌, ◌↔◌, ◌<◌, ◌^◌, List, [], ◌∷◌, ◌++◌, IfOk, IsTrue, OnOk, OnErr, length};
ghost use Rattle.kq_value.specs.Schema.{same_fields as are_same};

use crate::Memory;
use crate::items::{copy_of, push_to};
use crate::text::Text;
use crate::ty::Ty;
use std::alloc::Global;
use std::marker::Model;

/// A column: its name and its type.
#[derive(Drop)]
pub struct Field {
    pub name: Text,
    pub ty: Ty,
}

impl Field {
    ghost use Rattle.kq_value.specs.Schema.{same_field};

    pub fn same(&self, other: &Field) -> bool
        ensures same { IsTrue result ↔ (self.now ≡ other.now) }
        ensures test { result ≡ same_field self.now other.now }
    {
        self.name.same(&other.name) && self.ty.same(other.ty)
    }

    pub fn clone_in(&self) -> Result<Field, Memory>
        ensures { IfOk result (λ f. f ≡ self.now) }
    {
        Ok(Field {
            name: self.name.clone_in()?,
            ty: self.ty,
        })
    }
}

impl Clone for Field {
    ghost is_clone = { λ f g. g ≡ f };

    fn clone(&self) -> Result<Field, Memory> {
        self.clone_in()
    }
}

/// Columns in order. Contracts see their list.
#[derive(Drop)]
pub struct Schema {
    fields: Vec<Field>,
}

impl Model for Schema {
    ghost use Rattle.std.specs.Prelude.{List};
    ghost use Rattle.kq_value.specs.declared.schema.Field.{Field as Column};

    ghost Value = { List Column };

    ghost view = { λ s. s.fields.items };
}

impl Schema {
    pub fn new(alloc: Global) -> Schema
        ensures { result ≡ [] }
    {
        Schema {
            fields: Vec::new(alloc),
        }
    }

    pub fn from_vec(fields: Vec<Field>) -> Schema
        ensures { result ≡ fields.items }
    {
        Schema { fields }
    }

    pub fn into_vec(self) -> Vec<Field>
        ensures { result.items ≡ self }
    {
        self.fields
    }

    pub fn as_slice(&self) -> &[Field]
        ensures { result.now ≡ self.now }
    {
        self.fields.as_slice()
    }

    pub fn len(&self) -> usize
        ensures count { result ≡ length self.now }
        ensures small { result < 2 ^ 63 }
    {
        self.fields.len()
    }

    pub fn is_empty(&self) -> bool
        ensures { IsTrue result ↔ (self.now ≡ []) }
    {
        self.fields.is_empty()
    }

    pub fn push(&mut self, field: Field) -> Result<(), Memory>
        ensures ok { OnOk result (self.new ≡ self.old ++ field ∷ []) }
        ensures err { OnErr result (self.new ≡ self.old) }
    {
        push_to(&mut self.fields, field)
    }

    ghost use Rattle.kq_value.specs.Schema.{same_fields as are_same_fields};

    /// Whether the two have the same columns in the same order.
    pub fn same(&self, other: &Schema) -> bool
        ensures same { IsTrue result ↔ (self.now ≡ other.now) }
        ensures test { result ≡ are_same_fields self.now other.now }
    {
        same_fields(self.fields.as_slice(), other.fields.as_slice())
    }

    pub fn clone_in(&self) -> Result<Schema, Memory>
        ensures { IfOk result (λ s. s ≡ self.now) }
    {
        let fields = copy_of(&self.fields)?;
        Ok(Schema { fields })
    }
}

fn same_fields(a: &[Field], b: &[Field]) -> bool
    ensures { result ≡ are_same a.now b.now }
{
    if a.len() != b.len() {
        return false;
    }
    for i in 0..a.len() {
        if !a[i].same(&b[i]) {
            return false;
        }
    }
    true
}
