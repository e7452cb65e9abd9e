// Rows that are laid out in columns as they come.
ghost use Rattle.std.specs.Prelude.{◌≡◌, ◌<◌, ◌^◌, [], IfOk, length};
ghost use Rattle.kq_store_extent.specs.Coming.{IsOfTypes, cells_grown, types_of, with_row};

use crate::columns::Columns;
use kq_store_column::{Builder, Column};
use kq_value::{Memory, Schema, Value};
use std::alloc::{AllocError, Global};
use std::marker::Model;

// The most rows.
const MOST: usize = 0x7fff_ffff_ffff_ffff;

/// Rows that come one by one, whose cells go to the columns at once. Contracts see the types of the columns and the rows.
#[derive(Drop)]
pub struct ColumnsBuilder {
    builders: Vec<Builder>,
    count: usize,
}

impl Model for ColumnsBuilder {
    ghost use Rattle.std.specs.Coded.{codes};
    ghost use Rattle.kq_value.specs.contracts.value.Value as cell;
    ghost use Rattle.kq_store_extent.specs.Columns.{rows_across, AreWhole};
    ghost use Rattle.kq_store_extent.specs.Coming.{ComingRows, cells_grown, types_grown};

    ghost Value = { ComingRows };

    ghost coded = { Prim.hlevel (codes, cell.the_row.coded) };

    ghost view = { λ b. record { types = types_grown b.builders.items; rows = rows_across (cells_grown b.builders.items) b.count } };

    ghost invariant = { λ b. AreWhole (cells_grown b.builders.items) b.count };
}

impl ColumnsBuilder {
    pub fn new(alloc: Global, schema: &Schema) -> Result<ColumnsBuilder, Memory>
        ensures { IfOk result (λ b. b ≡ record { types = types_of schema.now; rows = [] }) }
    {
        let fields = schema.as_slice();
        let mut builders = Vec::with_capacity(alloc, fields.len())?;
        for field in fields {
            builders.push(Builder::new(alloc, field.ty)?)?;
        }
        Ok(ColumnsBuilder { builders, count: 0 })
    }

    /// The number of rows.
    pub fn len(&self) -> usize
        ensures count { result ≡ length self.now.rows }
        ensures small { result < 2 ^ 63 }
    {
        self.count
    }

    /// Puts a row last. Where memory is refused nothing is left of the rows.
    pub fn push(self, row: &[Value]) -> Result<ColumnsBuilder, Memory>
        requires { IsOfTypes self.types row.now }
        ensures { IfOk result (λ b. b ≡ with_row self row.now) }
    {
        let ColumnsBuilder {
            mut builders,
            count,
        } = self;
        if count >= MOST {
            return Err(AllocError);
        }
        for i in 0..builders.len() {
            builders[i].push(&row[i])?;
        }
        Ok(ColumnsBuilder {
            builders,
            count: count + 1,
        })
    }

    /// The rows, as columns that grow no more.
    pub fn finish(self) -> Result<Columns, Memory>
        ensures { IfOk result (λ c. c ≡ self.rows) }
    {
        let ColumnsBuilder { builders, count } = self;
        let columns = built(builders)?;
        Ok(Columns::from_parts(columns, count))
    }
}

fn built(builders: Vec<Builder>) -> Result<Vec<Column>, Memory>
    ensures { IfOk result (λ columns. columns.items ≡ cells_grown builders.items) }
{
    let mut columns = Vec::with_capacity(*builders.allocator(), builders.len())?;
    for builder in builders {
        columns.push(Column::built(builder)?)?;
    }
    Ok(columns)
}
