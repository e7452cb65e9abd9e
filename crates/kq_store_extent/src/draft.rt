// Extents that aren't yet part of a commit.
ghost use Rattle.std.specs.Prelude.{◌≡◌, ◌↔◌, ◌<◌, ◌+◌, ◌^◌, [], IfOk, IsTrue, length};
ghost use Rattle.std.specs.List.{All};
ghost use Rattle.kq_value.specs.Typed.{HasTypes};
ghost use Rattle.kq_store_rows.specs.Numbered.{numbered};

use crate::columns::Columns;
use crate::extent::Extent;
use crate::recorded::RecordedRows;
use crate::run::Run;
use crate::runs::Runs;
use kq_store_rows::Rows;
use kq_value::{Memory, Schema, Tags};
use std::alloc::Global;
use std::marker::Model;

/// Rows in columns that aren't yet part of a commit: an extent without its id and without the ids of its records.
#[derive(Drop)]
pub struct Draft {
    runs: Vec<Run>,
    columns: Columns,
    recorded: RecordedRows,
    tags: Tags,
}

impl Model for Draft {
    ghost use Rattle.std.specs.Prelude.{◌≡◌, ◌<◌, [], vec_len, vec_capacity};
    ghost use Rattle.std.specs.Coded.{codes};
    ghost use Rattle.kq_value.specs.contracts.value.Value as cell;
    ghost use Rattle.kq_store_extent.specs.Seen.{DraftView};

    ghost Value = { DraftView };

    ghost coded = { Prim.hlevel (codes, cell.the_row.coded) };

    ghost view = { λ d. record { rows = d.columns; tags = d.tags } };

    // no run yet, with room for one
    ghost invariant = { λ d. (d.runs.items ≡ []) × (vec_len d.runs < vec_capacity d.runs) × (d.recorded ≡ d.columns) };
}

impl Draft {
    /// Takes all the memory that the extent will need.
    pub fn build(alloc: Global, schema: &Schema, rows: &Rows, tags: Tags) -> Result<Draft, Memory>
        requires { All (HasTypes schema.now) rows.now }
        ensures { IfOk result (λ d. d ≡ record { rows = rows.now; tags = tags }) }
    {
        Draft::of(alloc, Columns::build(alloc, schema, rows)?, tags)
    }

    /// The same of rows that are laid out.
    pub fn of(alloc: Global, columns: Columns, tags: Tags) -> Result<Draft, Memory>
        ensures { IfOk result (λ d. d ≡ record { rows = columns; tags = tags }) }
    {
        let runs = Vec::with_capacity(alloc, 1)?;
        let recorded = RecordedRows::of(&columns);
        Ok(Draft {
            runs,
            columns,
            recorded,
            tags,
        })
    }

    /// The number of rows.
    pub fn len(&self) -> usize
        ensures count { result ≡ length self.now.rows }
        ensures small { result < 2 ^ 63 }
    {
        self.columns.len()
    }

    pub fn is_empty(&self) -> bool
        ensures { IsTrue result ↔ (self.now.rows ≡ []) }
    {
        self.len() == 0
    }

    pub fn tags(&self) -> &Tags
        ensures { result.now ≡ self.now.tags }
    {
        &self.tags
    }

    /// What an event says of the rows.
    pub fn recorded(&self) -> RecordedRows
        ensures { result ≡ self.now.rows }
    {
        self.recorded.copy()
    }

    /// The extent of a commit: its records have the commit's cursor, and ordinals from `first` on. It takes no memory, and
    /// touches no row.
    pub fn stamp(self, id: u64, cursor: u64, first: u64) -> Extent
        requires { first + length self.rows < 2 ^ 63 }
        ensures { result ≡ record { id = id; records = numbered cursor first self.rows; tags = self.tags } }
    {
        let Draft {
            mut runs,
            columns,
            recorded: _,
            tags,
        } = self;
        let count = columns.len() as u64;
        runs.push_reserved(Run {
            cursor,
            first,
            count,
        });
        Extent::from_parts(id, Runs::from_vec(runs), columns, tags)
    }
}
