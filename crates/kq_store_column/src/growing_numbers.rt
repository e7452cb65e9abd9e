// Numbers that grow one by one.
ghost use Rattle.std.specs.Prelude.{◌≡◌, OnOk, OnErr};
ghost use Rattle.kq_value.specs.Typed.{HasType};
ghost use Rattle.kq_store_column_view.specs.Numbers.{IsOfNumbers};
ghost use Rattle.kq_store_column.specs.Growing.{begun, with_cell};

use crate::numbers::{Numbers, add_cell};
use kq_value::{Memory, Ty, Value};
use std::alloc::Global;
use std::marker::Model;

// Numbers of one type, each with a mark that says whether it is null, and whether any is. Contracts see the type and the cells.
#[derive(Drop)]
pub(crate) struct GrowingNumbers {
    ty: Ty,
    numbers: Vec<i64>,
    nulls: Vec<bool>,
    any: bool,
}

impl Model for GrowingNumbers {
    ghost use Rattle.std.specs.Prelude.{map};
    ghost use Rattle.std.specs.Coded.{codes};
    ghost use Rattle.kq_value.specs.contracts.value.Value as cell;
    ghost use Rattle.kq_store_column_view.specs.Numbers.{marked, number_cell};
    ghost use Rattle.kq_store_column.specs.Growing.{Grown, AreGrown};

    ghost Value = { Grown };

    ghost coded = { Prim.hlevel (codes, cell.the_row.coded) };

    ghost view = { λ g. record { ty = g.ty; cells = map (number_cell g.ty) (marked g.nulls.items g.numbers.items) } };

    ghost invariant = { λ g. AreGrown g.ty g.nulls.items g.numbers.items g.any };
}

impl GrowingNumbers {
    pub fn new(alloc: Global, ty: Ty) -> GrowingNumbers
        requires { IsOfNumbers ty }
        ensures { result ≡ begun ty }
    {
        GrowingNumbers {
            ty,
            numbers: Vec::new(alloc),
            nulls: Vec::new(alloc),
            any: false,
        }
    }

    pub fn push(&mut self, cell: &Value) -> Result<(), Memory>
        requires { HasType self.old.ty cell.now }
        ensures ok { OnOk result (self.new ≡ with_cell self.old cell.now) }
        ensures err { OnErr result (self.new ≡ self.old) }
    {
        let null = add_cell(self.ty, cell, &mut self.numbers, &mut self.nulls)?;
        self.any = self.any | null;
        Ok(())
    }

    /// The numbers of all cells. The marks are left out where none is null.
    pub fn finish(self) -> Numbers
        ensures { result ≡ self.cells }
    {
        let GrowingNumbers {
            ty,
            mut numbers,
            mut nulls,
            any,
        } = self;
        numbers.shrink_to_fit();
        if any {
            nulls.shrink_to_fit();
            return Numbers::from_parts(ty, numbers, nulls);
        }
        let plain = Vec::new(*numbers.allocator());
        Numbers::from_parts(ty, numbers, plain)
    }
}
