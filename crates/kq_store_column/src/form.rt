// The forms of a column.
ghost use Rattle.std.specs.Prelude.{◌≡◌, ◌<◌, ◌≤◌, ◌-◌, ◌^◌, All, flat_map, length, IfOk, IsTrue, Some, slice_get, take, drop};
ghost use Rattle.kq_value.specs.Typed.{HasType};
ghost use Rattle.kq_store_column.specs.Cells.{column_of, IsWider};
ghost use Rattle.kq_store_column.specs.Forms.{cells_in};
ghost use Rattle.kq_store_column.specs.Zones.{is_zone};
ghost use Rattle.kq_store_column_view.specs.Vectors.{cells_of};

use crate::dictionary::Dictionary;
use crate::numbers::Numbers;
use crate::shared::Shared;
use crate::zone::zone_of;
use kq_store_column_view::Vector;
use kq_store_rows::Rows;
use kq_value::{Memory, Ty, Value};
use std::alloc::Global;

#[derive(Drop)]
pub(crate) enum Form {
    Numbers(Numbers),
    Dictionary(Dictionary),
    Shared(Shared),
}

impl Form {
    /// The form that suits the cells of a column of rows.
    pub fn build(alloc: Global, ty: Ty, rows: &Rows, column: usize) -> Result<Form, Memory>
        requires wide { All (IsWider column) rows.now }
        requires typed { All (HasType ty) (column_of column rows.now) }
        ensures { IfOk result (λ form. cells_in form ≡ column_of column rows.now) }
    {
        match ty {
            Ty::Text => Form::of_texts(alloc, rows, column),
            Ty::Dynamic => Ok(Form::Shared(Shared::build(alloc, rows, column)?)),
            _ => Ok(Form::Numbers(Numbers::build(alloc, ty, rows, column)?)),
        }
    }

    fn of_texts(alloc: Global, rows: &Rows, column: usize) -> Result<Form, Memory>
        requires { All (IsWider column) rows.now }
        ensures { IfOk result (λ form. cells_in form ≡ column_of column rows.now) }
    {
        match Dictionary::build(alloc, rows, column)? {
            Some(dictionary) => Ok(Form::Dictionary(dictionary)),
            None => Ok(Form::Shared(Shared::build(alloc, rows, column)?)),
        }
    }

    /// The cells of parts, one part after another, all of one type, in the form that suits them.
    pub fn joined(alloc: Global, ty: Ty, parts: &[Vector]) -> Result<Form, Memory>
        requires { All (λ p. All (HasType ty) (cells_of p)) parts.now }
        ensures { IfOk result (λ form. cells_in form ≡ flat_map cells_of parts.now) }
    {
        match ty {
            Ty::Text => Form::of_joined_texts(alloc, parts),
            Ty::Dynamic => Ok(Form::Shared(Shared::joined(alloc, parts)?)),
            _ => Ok(Form::Numbers(Numbers::joined(alloc, ty, parts)?)),
        }
    }

    fn of_joined_texts(alloc: Global, parts: &[Vector]) -> Result<Form, Memory>
        ensures { IfOk result (λ form. cells_in form ≡ flat_map cells_of parts.now) }
    {
        match Dictionary::joined(alloc, parts)? {
            Some(dictionary) => Ok(Form::Dictionary(dictionary)),
            None => Ok(Form::Shared(Shared::joined(alloc, parts)?)),
        }
    }

    /// The least and the greatest cell, nulls aside.
    pub fn zone(&self) -> Result<Option<(Value, Value)>, Memory>
        ensures { IfOk result (λ zone. IsTrue (is_zone (cells_in self.now) zone)) }
    {
        match self {
            Form::Numbers(numbers) => Ok(numbers.zone()),
            Form::Dictionary(dictionary) => zone_of(dictionary),
            Form::Shared(shared) => zone_of(shared),
        }
    }

    pub fn len(&self) -> usize
        ensures count { result ≡ length (cells_in self.now) }
        ensures small { result < 2 ^ 63 }
    {
        match self {
            Form::Numbers(numbers) => numbers.len(),
            Form::Dictionary(dictionary) => dictionary.len(),
            Form::Shared(shared) => shared.len(),
        }
    }

    /// A copy of a cell, which shares its text or its dynamic.
    pub fn cell(&self, index: usize) -> Result<Value, Memory>
        requires { index < length (cells_in self.now) }
        ensures { IfOk result (λ v. slice_get (cells_in self.now) index ≡ Some v) }
    {
        match self {
            Form::Numbers(numbers) => Ok(numbers.cell(index)),
            Form::Dictionary(dictionary) => dictionary.cell(index).clone_in(),
            Form::Shared(shared) => shared.cell(index).clone_in(),
        }
    }

    /// The cells from a place on, up to another, lent.
    pub fn lend(&self, from: usize, to: usize) -> Vector<'_>
        requires { (from ≤ to) × (to ≤ length (cells_in self.now)) }
        ensures { cells_of result ≡ take (to - from) (drop from (cells_in self.now)) }
    {
        match self {
            Form::Numbers(numbers) => numbers.lend(from, to),
            Form::Dictionary(dictionary) => dictionary.lend(from, to),
            Form::Shared(shared) => shared.lend(from, to),
        }
    }
}
