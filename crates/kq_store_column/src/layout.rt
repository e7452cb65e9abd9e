// How a column is laid out.
ghost use Rattle.std.specs.Prelude.{◌≡◌, ◌<◌, ◌≤◌, ◌-◌, ◌^◌, length, IfOk, Some, slice_get, take, drop};
ghost use Rattle.kq_store_column.specs.Forms.{cells_in};
ghost use Rattle.kq_store_column.specs.Layouts.{cells_laid};
ghost use Rattle.kq_store_column_view.specs.Vectors.{cells_of};

use crate::bags::Bags;
use crate::form::Form;
use kq_store_column_view::Vector;
use kq_value::{Memory, Value};

// Cells in one form, or bags by their members.
#[derive(Drop)]
pub(crate) enum Layout {
    Plain(Form),
    Bags(Bags),
}

impl Layout {
    /// The same cells by their members, where they are bags of the same keys; else in the form that they have.
    pub fn from_form(form: Form) -> Result<Layout, Memory>
        ensures { IfOk result (λ layout. cells_laid layout ≡ cells_in form) }
    {
        match form {
            Form::Shared(shared) => match shared.bags()? {
                Some(bags) => Ok(Layout::Bags(bags)),
                None => Ok(Layout::Plain(Form::Shared(shared))),
            },
            form => Ok(Layout::Plain(form)),
        }
    }

    pub fn len(&self) -> usize
        ensures count { result ≡ length (cells_laid self.now) }
        ensures small { result < 2 ^ 63 }
    {
        match self {
            Layout::Plain(form) => form.len(),
            Layout::Bags(bags) => bags.len(),
        }
    }

    /// A copy of a cell, which shares its texts.
    pub fn cell(&self, index: usize) -> Result<Value, Memory>
        requires { index < length (cells_laid self.now) }
        ensures { IfOk result (λ v. slice_get (cells_laid self.now) index ≡ Some v) }
    {
        match self {
            Layout::Plain(form) => form.cell(index),
            Layout::Bags(bags) => bags.cell(index),
        }
    }

    /// The cells from a place on, up to another, lent.
    pub fn lend(&self, from: usize, to: usize) -> Result<Vector<'_>, Memory>
        requires { (from ≤ to) × (to ≤ length (cells_laid self.now)) }
        ensures { IfOk result (λ v. cells_of v ≡ take (to - from) (drop from (cells_laid self.now))) }
    {
        match self {
            Layout::Plain(form) => Ok(form.lend(from, to)),
            Layout::Bags(bags) => bags.lend(from, to),
        }
    }
}
