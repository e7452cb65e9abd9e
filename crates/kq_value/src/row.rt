// Rows.
ghost use Rattle.std.specs.Prelude.{◌≡◌, ◌↔◌, ◌<◌, ◌^◌, List, [], ◌∷◌, ◌++◌, length, IfOk, IsTrue, OnOk, OnErr, slice_get, Some};
ghost use Rattle.kq_value.specs.Typed.{HasTypes};
ghost use Rattle.kq_value.specs.Values.{row_cmp, is_same_row};
ghost use Rattle.kq_value.specs.Hash.{row_hash};

use crate::Memory;
use crate::hash::{SEED, finish, step};
use crate::items::{copy_of, push_to};
use crate::schema::Schema;
use crate::value::Value;
use std::alloc::Global;
use std::cmp::Ordering;
use std::marker::Model;

/// The cells of a record. Contracts see their list.
#[derive(Drop)]
pub struct Row {
    cells: Vec<Value>,
}

impl Model for Row {
    ghost use Rattle.std.specs.Prelude.{List};
    ghost use Rattle.kq_value.specs.declared.value.Value.{Value as Cell};
    ghost use Rattle.std.specs.Coded.{coded_list};
    ghost use Rattle.kq_value.specs.contracts.value.Value as cell;

    ghost Value = { List Cell };

    ghost coded = { coded_list cell.the_row.coded };

    ghost view = { λ r. r.cells.items };
}

fn compare(a: &[Value], b: &[Value]) -> Ordering
    ensures { result ≡ row_cmp a.now b.now }
{
    let shorter = a.len().min(b.len());
    for i in 0..shorter {
        let order = a[i].cmp(&b[i]);
        if order != Ordering::Equal {
            return order;
        }
    }
    a.len().cmp(&b.len())
}

impl Row {
    pub fn new(alloc: Global) -> Row
        ensures { result ≡ [] }
    {
        Row {
            cells: Vec::new(alloc),
        }
    }

    pub fn from_vec(cells: Vec<Value>) -> Row
        ensures { result ≡ cells.items }
    {
        Row { cells }
    }

    pub fn into_vec(self) -> Vec<Value>
        ensures { result.items ≡ self }
    {
        self.cells
    }

    pub fn as_slice(&self) -> &[Value]
        ensures { result.now ≡ self.now }
    {
        self.cells.as_slice()
    }

    pub fn len(&self) -> usize
        ensures count { result ≡ length self.now }
        ensures small { result < 2 ^ 63 }
    {
        self.cells.len()
    }

    pub fn is_empty(&self) -> bool
        ensures { IsTrue result ↔ (self.now ≡ []) }
    {
        self.cells.is_empty()
    }

    pub fn cell(&self, index: usize) -> &Value
        requires { index < length self.now }
        ensures { slice_get self.now index ≡ Some result.now }
    {
        &self.cells[index]
    }

    pub fn push(&mut self, cell: Value) -> Result<(), Memory>
        ensures ok { OnOk result (self.new ≡ self.old ++ cell ∷ []) }
        ensures err { OnErr result (self.new ≡ self.old) }
    {
        push_to(&mut self.cells, cell)
    }

    /// The order of rows: cell by cell, and a prefix first.
    pub fn cmp(&self, other: &Row) -> Ordering
        ensures { result ≡ row_cmp self.now other.now }
    {
        compare(self.cells.as_slice(), other.cells.as_slice())
    }

    /// Whether the two have the same cells in the same order.
    pub fn same(&self, other: &Row) -> bool
        ensures same { IsTrue result ↔ (self.now ≡ other.now) }
        ensures test { result ≡ is_same_row self.now other.now }
    {
        self.cmp(other).is_eq()
    }

    /// As `Value::hash64`, over the hashes of the cells.
    pub fn hash64(&self) -> u64
        ensures { result ≡ row_hash self.now }
    {
        let mut state = SEED;
        for cell in &self.cells {
            state = step(state, cell.hash64());
        }
        finish(state)
    }

    /// Whether it has a cell of each column's type, in order.
    pub fn has_types(&self, schema: &Schema) -> bool
        ensures { IsTrue result ↔ HasTypes schema.now self.now }
    {
        let fields = schema.as_slice();
        if fields.len() != self.cells.len() {
            return false;
        }
        for i in 0..fields.len() {
            if !self.cells[i].has_type(fields[i].ty) {
                return false;
            }
        }
        true
    }

    pub fn clone_in(&self) -> Result<Row, Memory>
        ensures { IfOk result (λ r. r ≡ self.now) }
    {
        let cells = copy_of(&self.cells)?;
        Ok(Row { cells })
    }
}

impl Clone for Row {
    ghost is_clone = { λ r s. s ≡ r };

    fn clone(&self) -> Result<Row, Memory> {
        self.clone_in()
    }
}
