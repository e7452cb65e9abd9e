// Columns.
ghost use Rattle.std.specs.Prelude.{◌≡◌, ◌↔◌, ◌<◌, ◌≤◌, ◌-◌, ◌^◌, [], All, flat_map, length, IfOk, IfSome, IsNone, IsTrue, Some, slice_get, take, drop};
ghost use Rattle.kq_value.specs.Typed.{HasType};
ghost use Rattle.kq_store_column.specs.Bounds.{AreBounds};
ghost use Rattle.kq_store_column.specs.Cells.{cells_present, column_of, IsAtMost, IsWider};
ghost use Rattle.kq_store_column.specs.Forms.{cells_in};
ghost use Rattle.kq_store_column.specs.Zones.{is_zone};
ghost use Rattle.kq_store_column_view.specs.Vectors.{cells_of};

use crate::builder::Builder;
use crate::form::Form;
use crate::layout::Layout;
use kq_store_column_view::Vector;
use kq_store_rows::Rows;
use kq_value::{Memory, Ty, Value};
use std::alloc::Global;
use std::marker::Model;

/// The cells of one column, none of which changes. Contracts see their list.
#[derive(Drop)]
pub struct Column {
    layout: Layout,
    zone: Option<(Value, Value)>,
}

impl Model for Column {
    ghost use Rattle.std.specs.Prelude.{List, IsTrue};
    ghost use Rattle.kq_value.specs.declared.value.Value.{Value as Cell};
    ghost use Rattle.std.specs.Coded.{coded_list};
    ghost use Rattle.kq_value.specs.contracts.value.Value as cell;
    ghost use Rattle.kq_store_column.specs.Layouts.{cells_laid};
    ghost use Rattle.kq_store_column.specs.Zones.{is_zone};

    ghost Value = { List Cell };

    ghost coded = { coded_list cell.the_row.coded };

    ghost view = { λ c. cells_laid c.layout };

    ghost invariant = { λ c. IsTrue (is_zone (cells_laid c.layout) c.zone) };
}

impl Column {
    /// The cells that the rows have at `column`, all of one type.
    pub fn build(alloc: Global, ty: Ty, rows: &Rows, column: usize) -> Result<Column, Memory>
        requires wide { All (IsWider column) rows.now }
        requires typed { All (HasType ty) (column_of column rows.now) }
        ensures { IfOk result (λ c. c ≡ column_of column rows.now) }
    {
        let form = Form::build(alloc, ty, rows, column)?;
        Column::from_form(form)
    }

    /// The cells that a builder was given.
    pub fn built(builder: Builder) -> Result<Column, Memory>
        ensures { IfOk result (λ c. c ≡ builder.cells) }
    {
        let form = builder.into_form()?;
        Column::from_form(form)
    }

    /// The cells of parts, one part after another, all of one type. No row is made.
    pub fn joined(alloc: Global, ty: Ty, parts: &[Vector]) -> Result<Column, Memory>
        requires { All (λ p. All (HasType ty) (cells_of p)) parts.now }
        ensures { IfOk result (λ c. c ≡ flat_map cells_of parts.now) }
    {
        let form = Form::joined(alloc, ty, parts)?;
        Column::from_form(form)
    }

    // The column of a form's cells, with their bounds.
    fn from_form(form: Form) -> Result<Column, Memory>
        ensures { IfOk result (λ c. c ≡ cells_in form) }
    {
        let zone = form.zone()?;
        Column::with_zone(form, zone)
    }

    // The same where the bounds are known.
    fn with_zone(form: Form, zone: Option<(Value, Value)>) -> Result<Column, Memory>
        requires { IsTrue (is_zone (cells_in form) zone) }
        ensures { IfOk result (λ c. c ≡ cells_in form) }
    {
        let layout = Layout::from_form(form)?;
        Ok(Column { layout, zone })
    }

    pub fn len(&self) -> usize
        ensures count { result ≡ length self.now }
        ensures small { result < 2 ^ 63 }
    {
        self.layout.len()
    }

    /// A copy of a cell, which shares its texts.
    pub fn cell(&self, index: usize) -> Result<Value, Memory>
        requires { index < length self.now }
        ensures { IfOk result (λ v. slice_get self.now index ≡ Some v) }
    {
        self.layout.cell(index)
    }

    /// The cells from a place on, up to another, lent.
    pub fn lend(&self, from: usize, to: usize) -> Result<Vector<'_>, Memory>
        requires { (from ≤ to) × (to ≤ length self.now) }
        ensures { IfOk result (λ v. cells_of v ≡ take (to - from) (drop from self.now)) }
    {
        self.layout.lend(from, to)
    }

    /// The least and the greatest cell in the total order, nulls aside. None where all are null.
    pub fn zone(&self) -> Option<(&Value, &Value)>
        ensures none { IsNone result ↔ (cells_present self.now ≡ []) }
        ensures bounds { IfSome result (λ zone. AreBounds IsAtMost (cells_present self.now) zone.0.now zone.1.now) }
    {
        match &self.zone {
            None => None,
            Some((least, greatest)) => Some((least, greatest)),
        }
    }
}
