// Batches and failures of an ingestion.
ghost use Rattle.std.specs.Prelude.{◌≡◌, List, [], ◌∷◌, ◌++◌, OnOk, OnErr, length};

use kq_run_plan::RecordedRows;
use kq_store_rows::Cause;
use kq_value::{Memory, Tags};
use std::alloc::Global;
use std::marker::Model;

/// Rows that one commit gives a table, with the tags of their extent. A table's number is its place, from 0, in the
/// order of creation. Contracts alone see the rows, which the table's extents hold; the program keeps their number.
#[derive(Drop)]
pub struct Batch {
    pub table: u32,
    pub rows: RecordedRows,
    pub tags: Tags,
}

/// The batches of one commit in the order of the cascade, the source's first. Contracts see their list.
#[derive(Drop)]
pub struct Batches {
    batches: Vec<Batch>,
}

impl Model for Batches {
    ghost use Rattle.std.specs.Prelude.{List};
    ghost use Rattle.kq_catalog_journal.specs.declared.batch.Batch.{Batch as Part};
    ghost use Rattle.std.specs.Coded.{coded_list};
    ghost use Rattle.kq_catalog_journal.specs.contracts.batch.Batch as batch;

    ghost Value = { List Part };

    ghost coded = { coded_list batch.the_row.coded };

    ghost view = { λ b. b.batches.items };
}

impl Batches {
    ghost use Rattle.kq_catalog_journal.specs.Lawful.{own_rows};

    pub fn new(alloc: Global) -> Batches
        ensures { result ≡ [] }
    {
        Batches {
            batches: Vec::new(alloc),
        }
    }

    pub fn into_vec(self) -> Vec<Batch>
        ensures { result.items ≡ self }
    {
        self.batches
    }

    pub fn as_slice(&self) -> &[Batch]
        ensures { result.now ≡ self.now }
    {
        self.batches.as_slice()
    }

    /// The number of rows of the ingestion's own batch, which is the first.
    pub fn own_rows(&self) -> u64
        ensures { result ≡ own_rows self.now }
    {
        match self.batches.first() {
            Some(own) => own.rows.len(),
            None => 0,
        }
    }

    pub fn push(&mut self, batch: Batch) -> Result<(), Memory>
        ensures ok { OnOk result (self.new ≡ self.old ++ batch ∷ []) }
        ensures err { OnErr result (self.new ≡ self.old) }
    {
        self.batches.push(batch)?;
        Ok(())
    }
}

/// An entry of an update policy that failed and left nothing but this: the table whose batch it was run for, its own
/// target, the target of the entry whose query failed, and the cause. Tables go by number.
#[derive(Clone, Copy)]
pub struct Failure {
    pub source: u32,
    pub target: u32,
    pub failed: u32,
    pub cause: Cause,
}

/// A failure with the cursor of the commit that noted it.
#[derive(Clone, Copy)]
pub struct Noted {
    pub cursor: u64,
    pub failure: Failure,
}

/// The failures of one commit, in order. Contracts see their list.
#[derive(Drop)]
pub struct Failures {
    failures: Vec<Failure>,
}

impl Model for Failures {
    ghost use Rattle.std.specs.Prelude.{List};
    ghost use Rattle.kq_catalog_journal.specs.declared.batch.Failure.{Failure as Part};
    ghost use Rattle.std.specs.Coded.{coded_list};
    ghost use Rattle.kq_catalog_journal.specs.contracts.batch.Failure as failure;

    ghost Value = { List Part };

    ghost coded = { coded_list failure.the_row.coded };

    ghost view = { λ f. f.failures.items };
}

impl Failures {
    pub fn new(alloc: Global) -> Failures
        ensures { result ≡ [] }
    {
        Failures {
            failures: Vec::new(alloc),
        }
    }

    pub fn as_slice(&self) -> &[Failure]
        ensures { result.now ≡ self.now }
    {
        self.failures.as_slice()
    }

    pub fn push(&mut self, failure: Failure) -> Result<(), Memory>
        ensures ok { OnOk result (self.new ≡ self.old ++ failure ∷ []) }
        ensures err { OnErr result (self.new ≡ self.old) }
    {
        self.failures.push(failure)?;
        Ok(())
    }
}
