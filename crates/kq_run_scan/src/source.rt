// Where rows that a query reads stand.
use crate::framed::pick_framed;
use crate::paired::Paired;
use crate::records::Records;
use kq_run_row_operators::{Relation, Vector};
use kq_store_frame::Frame;
use kq_store_rows::Rows;
use kq_value::{Memory, Value};
use std::alloc::Global;

/// Rows of a query's own, side by side or in columns; the records of an extent; or such records, each beside rows of others.
#[derive(Clone, Copy)]
pub enum Source<'a> {
    Rows(&'a Rows),
    Frame(&'a Frame),
    Extent(Records<'a>),
    Beside(Paired<'a>),
}

impl Relation for Source<'_> {
    ghost use Rattle.kq_run_scan.specs.Sources.{source_rows};

    ghost rows = { source_rows };

    fn len(&self) -> usize {
        match self {
            Source::Rows(rows) => rows.len(),
            Source::Frame(frame) => frame.len(),
            Source::Extent(records) => records.len(),
            Source::Beside(pairs) => pairs.len(),
        }
    }

    fn cell(&self, i: usize, j: usize) -> Result<Option<Value>, Memory> {
        match self {
            Source::Rows(rows) => Relation::cell(*rows, i, j),
            Source::Frame(frame) => frame.cell(i, j),
            Source::Extent(records) => records.cell(i, j),
            Source::Beside(pairs) => pairs.cell(i, j),
        }
    }

    fn lend(
        &self,
        alloc: Global,
        j: usize,
        from: usize,
        to: usize,
    ) -> Result<Option<Vector<'_>>, Memory> {
        match self {
            Source::Rows(rows) => rows.lend(alloc, j, from, to),
            Source::Frame(frame) => Ok(frame.lend(j, from, to)),
            Source::Extent(records) => records.lend(alloc, j, from, to),
            Source::Beside(pairs) => pairs.lend(alloc, j, from, to),
        }
    }

    fn pick(
        &self,
        alloc: Global,
        j: usize,
        places: &[usize],
    ) -> Result<Option<Vector<'_>>, Memory> {
        match self {
            Source::Rows(rows) => rows.pick(alloc, j, places),
            Source::Frame(frame) => pick_framed(alloc, *frame, j, places),
            Source::Extent(records) => records.pick(alloc, j, places),
            Source::Beside(pairs) => pairs.pick(alloc, j, places),
        }
    }
}
