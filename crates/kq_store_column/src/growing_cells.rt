// Cells that grow one by one.
ghost use Rattle.std.specs.Prelude.{◌≡◌, OnOk, OnErr};
ghost use Rattle.kq_store_column.specs.Growing.{begun, with_cell};

use crate::shared::Shared;
use kq_value::{Memory, Ty, Value};
use std::alloc::Global;
use std::marker::Model;

// Cells of a type that stand by themselves. Contracts see the type and the cells.
#[derive(Drop)]
pub(crate) struct GrowingCells {
    ty: Ty,
    cells: Vec<Value>,
}

impl Model for GrowingCells {
    ghost use Rattle.std.specs.Coded.{codes};
    ghost use Rattle.kq_value.specs.contracts.value.Value as cell;
    ghost use Rattle.kq_store_column.specs.Growing.{Grown};

    ghost Value = { Grown };

    ghost coded = { Prim.hlevel (codes, cell.the_row.coded) };

    ghost view = { λ g. record { ty = g.ty; cells = g.cells.items } };
}

impl GrowingCells {
    pub fn new(alloc: Global, ty: Ty) -> GrowingCells
        ensures { result ≡ begun ty }
    {
        GrowingCells {
            ty,
            cells: Vec::new(alloc),
        }
    }

    pub fn from_vec(ty: Ty, cells: Vec<Value>) -> GrowingCells
        ensures { result ≡ record { ty = ty; cells = cells.items } }
    {
        GrowingCells { ty, cells }
    }

    pub fn push(&mut self, cell: &Value) -> Result<(), Memory>
        ensures ok { OnOk result (self.new ≡ with_cell self.old cell.now) }
        ensures err { OnErr result (self.new ≡ self.old) }
    {
        self.cells.push(cell.clone_in()?)?;
        Ok(())
    }

    pub fn finish(self) -> Shared
        ensures { result ≡ self.cells }
    {
        let GrowingCells { ty: _, mut cells } = self;
        cells.shrink_to_fit();
        Shared::from_vec(cells)
    }
}
