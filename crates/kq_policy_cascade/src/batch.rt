// Batches with their rows at hand.
ghost use Rattle.std.specs.Prelude.{◌≡◌, All, IfOk, IfSome};
ghost use Rattle.kq_catalog_journal.specs.Typed.{IsTyped};
ghost use Rattle.kq_store_rows.specs.Chunks.{same_width};
ghost use Rattle.kq_value.specs.Typed.{HasTypes};
ghost use Rattle.kq_policy_cascade.specs.Given.{rows_given};
ghost use Rattle.kq_policy_cascade.specs.Lent.{HoldsRows};

use crate::tables::Tables;
use kq_store_extent::{Columns, TableExtents};
use kq_store_rows::Rows;
use kq_value::{Memory, Tags};
use std::alloc::Global;
use std::marker::Model;

/// The rows of a batch: side by side, as a query gives them, or in columns, as they were read.
#[derive(Drop)]
pub enum Given {
    Rows(Rows),
    Columns(Columns),
}

impl Given {
    // The rows, side by side.
    fn to_rows(&self) -> Result<Rows, Memory>
        requires { same_width (rows_given self.now) }
        ensures { IfOk result (λ rows. rows ≡ rows_given self.now) }
    {
        match self {
            Given::Rows(rows) => rows.clone_in(),
            Given::Columns(columns) => columns.to_rows(),
        }
    }
}

/// Rows for a table, by its number, with the tags of their extent. From the first entry that runs for them on they are laid out as an extent too,
/// which each
/// query of the batch is lent. Contracts see a batch of a commit.
#[derive(Drop)]
pub struct BatchRows {
    table: u32,
    given: Given,
    tags: Tags,
    lent: Option<TableExtents>,
}

impl Model for BatchRows {
    ghost use Rattle.std.specs.Prelude.{IfSome};
    ghost use Rattle.kq_catalog_journal.specs.declared.batch.Batch.{Batch};
    ghost use Rattle.kq_catalog_journal.specs.contracts.batch.Batch as batch;
    ghost use Rattle.kq_policy_cascade.specs.Given.{rows_given};
    ghost use Rattle.kq_policy_cascade.specs.Lent.{HoldsRows};

    ghost Value = { Batch };

    ghost coded = { batch.the_row.coded };

    ghost view = { λ b. record { table = b.table; rows = rows_given b.given; tags = b.tags } };

    ghost invariant = { λ b. IfSome b.lent (λ held. HoldsRows held (rows_given b.given)) };
}

impl BatchRows {
    pub fn new(table: u32, given: Given, tags: Tags) -> BatchRows
        ensures { result ≡ record { table = table; rows = rows_given given; tags = tags } }
    {
        BatchRows {
            table,
            given,
            tags,
            lent: None,
        }
    }

    pub fn table(&self) -> u32
        ensures { result ≡ self.now.table }
    {
        self.table
    }

    /// The rows, side by side.
    pub fn to_rows(&self) -> Result<Rows, Memory>
        requires { same_width self.now.rows }
        ensures { IfOk result (λ rows. rows ≡ self.now.rows) }
    {
        self.given.to_rows()
    }

    pub fn tags(&self) -> &Tags
        ensures { result.now ≡ self.now.tags }
    {
        &self.tags
    }

    /// The extent of the rows, where they are laid out.
    pub fn lent(&self) -> Option<&TableExtents>
        ensures { IfSome result (λ held. HoldsRows held.now self.now.rows) }
    {
        self.lent.as_ref()
    }

    // Lays the rows out where they aren't yet.
    pub(crate) fn lay_out<T: Tables>(&mut self, alloc: Global, tables: &T) -> Result<(), Memory>
        requires { IsTyped (T.rules tables.now).columns self.old }
        ensures { self.new ≡ self.old }
    {
        if self.lent.is_none() {
            self.lent = Some(laid_out(alloc, tables, self.table, &self.given)?);
        }
        Ok(())
    }

    /// The number of the table, the rows and the tags.
    pub fn into_parts(self) -> (u32, Given, Tags)
        ensures table { result.0 ≡ self.table }
        ensures rows { rows_given result.1 ≡ self.rows }
        ensures tags { result.2 ≡ self.tags }
    {
        let BatchRows {
            table,
            given,
            tags,
            lent: _,
        } = self;
        (table, given, tags)
    }
}

// Rows of a table as extents.
fn laid_out<T: Tables>(
    alloc: Global,
    tables: &T,
    table: u32,
    given: &Given,
) -> Result<TableExtents, Memory>
    requires { All (HasTypes ((T.rules tables.now).columns table)) (rows_given given.now) }
    ensures { IfOk result (λ held. HoldsRows held (rows_given given.now)) }
{
    match given {
        Given::Rows(rows) => tables.lay_out(alloc, table, rows),
        Given::Columns(columns) => tables.lay_out(alloc, table, &columns.to_rows()?),
    }
}
