// Columns whose cells come one by one.
ghost use Rattle.std.specs.Prelude.{◌≡◌, IfOk, OnOk, OnErr};
ghost use Rattle.kq_value.specs.Typed.{HasType};
ghost use Rattle.kq_store_column.specs.Builders.{grown_in};
ghost use Rattle.kq_store_column.specs.Forms.{cells_in};
ghost use Rattle.kq_store_column.specs.Growing.{begun, with_cell, Takes};

use crate::form::Form;
use crate::growing_cells::GrowingCells;
use crate::growing_numbers::GrowingNumbers;
use crate::growing_words::GrowingWords;
use kq_value::{Memory, Ty, Value};
use std::alloc::Global;
use std::marker::Model;

/// Cells of one type that come one by one, each in the form that it has in the column. Contracts see the type and the cells.
#[derive(Drop)]
pub struct Builder {
    growing: Growing,
}

#[derive(Drop)]
enum Growing {
    Numbers(GrowingNumbers),
    Words(GrowingWords),
    Cells(GrowingCells),
}

impl Model for Builder {
    ghost use Rattle.std.specs.Coded.{codes};
    ghost use Rattle.kq_value.specs.contracts.value.Value as cell;
    ghost use Rattle.kq_store_column.specs.Growing.{Grown};
    ghost use Rattle.kq_store_column.specs.Builders.{grown_in};

    ghost Value = { Grown };

    ghost coded = { Prim.hlevel (codes, cell.the_row.coded) };

    ghost view = { λ b. grown_in b.growing };
}

impl Growing {
    fn new(alloc: Global, ty: Ty) -> Result<Growing, Memory>
        ensures { IfOk result (λ growing. grown_in growing ≡ begun ty) }
    {
        match ty {
            Ty::Text => Ok(Growing::Words(GrowingWords::new(alloc)?)),
            Ty::Dynamic => Ok(Growing::Cells(GrowingCells::new(alloc, Ty::Dynamic))),
            _ => Ok(Growing::Numbers(GrowingNumbers::new(alloc, ty))),
        }
    }

    // Puts a cell last, or gives all cells with this one, which are to grow in its place.
    fn push(&mut self, cell: &Value) -> Result<Option<GrowingCells>, Memory>
        requires { HasType (grown_in self.old).ty cell.now }
        ensures ok { IfOk result (Takes (grown_in self.old) (grown_in self.new) cell.now) }
        ensures err { OnErr result (grown_in self.new ≡ grown_in self.old) }
    {
        match self {
            Growing::Numbers(numbers) => numbers.push(cell)?,
            Growing::Words(words) => return words.push(cell),
            Growing::Cells(cells) => cells.push(cell)?,
        }
        Ok(None)
    }

    fn finish(self) -> Result<Form, Memory>
        ensures { IfOk result (λ form. cells_in form ≡ (grown_in self).cells) }
    {
        match self {
            Growing::Numbers(numbers) => Ok(Form::Numbers(numbers.finish())),
            Growing::Words(words) => words.finish(),
            Growing::Cells(cells) => Ok(Form::Shared(cells.finish())),
        }
    }
}

impl Builder {
    pub fn new(alloc: Global, ty: Ty) -> Result<Builder, Memory>
        ensures { IfOk result (λ builder. builder ≡ begun ty) }
    {
        Ok(Builder {
            growing: Growing::new(alloc, ty)?,
        })
    }

    /// Puts a cell last. A refused call leaves the cells as they were.
    pub fn push(&mut self, cell: &Value) -> Result<(), Memory>
        requires { HasType self.old.ty cell.now }
        ensures ok { OnOk result (self.new ≡ with_cell self.old cell.now) }
        ensures err { OnErr result (self.new ≡ self.old) }
    {
        if let Some(cells) = self.growing.push(cell)? {
            self.growing = Growing::Cells(cells);
        }
        Ok(())
    }

    pub(crate) fn into_form(self) -> Result<Form, Memory>
        ensures { IfOk result (λ form. cells_in form ≡ self.cells) }
    {
        self.growing.finish()
    }
}
