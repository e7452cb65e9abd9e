// A cascade in progress.
ghost use Rattle.std.specs.Prelude.{◌≡◌, ◌<◌, ◌^◌, IfOk, OnOk, length};
ghost use Rattle.kq_catalog_journal.specs.Typed.{IsTyped};
ghost use Rattle.kq_policy_cascade.specs.Steps.{Falls, IsLaid, IsNext, Settles, batch_at, begun, noted, opened, state_of};

use crate::batch::BatchRows;
use crate::stack::{Frame, Stack};
use crate::tables::Tables;
use kq_catalog_journal::{Due, Failure, Failures};
use kq_store_rows::Cause;
use kq_value::Memory;
use std::alloc::Global;

// What came of a batch so far: batches and failures, the batch whose entries run, and below it those whose entry made the one above.
#[derive(Drop)]
pub(crate) struct Progress {
    batches: Vec<BatchRows>,
    failures: Vec<Failure>,
    top: Frame,
    below: Stack,
}

// The place of the first entry of a source, from a place on.
fn next_due(dues: &[Due], source: u32, from: usize) -> Option<usize>
    ensures { IsNext dues.now source from result }
{
    for at in from..dues.len() {
        if dues[at].source == source {
            return Some(at);
        }
    }
    None
}

impl Progress {
    pub fn new(alloc: Global, own: BatchRows) -> Result<Progress, Memory>
        ensures { IfOk result (λ progress. state_of progress ≡ begun own) }
    {
        let mut batches = Vec::new(alloc);
        batches.push(own)?;
        Ok(Progress {
            batches,
            failures: Vec::new(alloc),
            top: Frame {
                own: 0,
                noted: 0,
                at: 0,
            },
            below: Stack::new(alloc),
        })
    }

    /// The batch whose entries run.
    pub fn batch(&self) -> &BatchRows
        requires { self.now.top.own < length self.now.batches.items }
        ensures { result.now ≡ batch_at self.now.batches.items self.now.top.own }
    {
        &self.batches[self.top.own]
    }

    /// Lays out the rows of the batch whose entries run, where they aren't yet.
    pub fn lay_out<T: Tables>(&mut self, alloc: Global, tables: &T) -> Result<(), Memory>
        requires own { self.old.top.own < length self.old.batches.items }
        requires typed { IsTyped (T.rules tables.now).columns (batch_at self.old.batches.items self.old.top.own) }
        ensures { state_of self.new ≡ state_of self.old }
    {
        self.batches[self.top.own].lay_out(alloc, tables)
    }

    /// The next entry that runs, and none where all did.
    pub fn next(&mut self, dues: &[Due]) -> Option<Due>
        requires { IsLaid dues.now (state_of self.old) }
        ensures next { Settles dues.now self.old.batches.items self.old.top self.old.below result self.new.top self.new.below }
        ensures batches { self.new.batches.items ≡ self.old.batches.items }
        ensures failures { self.new.failures.items ≡ self.old.failures.items }
    {
        loop {
            let source = self.batch().table();
            match next_due(dues, source, self.top.at) {
                Some(at) => {
                    self.top.at = at;
                    return Some(dues[at]);
                }
                None => match self.below.pop() {
                    Some(frame) => {
                        self.top = Frame {
                            at: frame.at + 1,
                            ..frame
                        };
                    }
                    None => return None,
                },
            }
        }
    }

    /// The entry that runs gave a batch, whose own entries run next.
    pub fn open(&mut self, batch: BatchRows) -> Result<(), Memory>
        ensures { OnOk result (state_of self.new ≡ opened (state_of self.old) batch) }
    {
        self.below.push(self.top)?;
        self.top = Frame {
            own: self.batches.len(),
            noted: self.failures.len(),
            at: 0,
        };
        self.batches.push(batch)?;
        Ok(())
    }

    /// The entry that runs failed, by the query of an entry with this target: all that came of the batch that fails with it is dropped. Tells whether
    /// an entry is left that isn't transactional, for which the failure is noted.
    pub fn fail(&mut self, dues: &[Due], target: u32, cause: Cause) -> Result<bool, Memory>
        requires laid { IsLaid dues.now (state_of self.old) }
        requires within { self.old.top.at < length dues.now }
        ensures { IfOk result (λ noted. Falls dues.now target cause self.old.top self.old.below self.old.batches.items self.old.failures.items noted (state_of self.new)) }
    {
        loop {
            let due = dues[self.top.at];
            if !due.transactional {
                self.note(due, target, cause)?;
                return Ok(true);
            }
            self.batches.truncate(self.top.own);
            self.failures.truncate(self.top.noted);
            match self.below.pop() {
                Some(frame) => self.top = frame,
                None => return Ok(false),
            }
        }
    }

    // Notes the failure of the entry that runs, which is done.
    fn note(&mut self, due: Due, target: u32, cause: Cause) -> Result<(), Memory>
        requires own { self.old.top.own < length self.old.batches.items }
        requires room { self.old.top.at < 2 ^ 63 }
        ensures { OnOk result (state_of self.new ≡ noted (state_of self.old) due target cause) }
    {
        let source = self.batch().table();
        self.failures.push(Failure {
            source,
            target: due.target,
            failed: target,
            cause,
        })?;
        self.top.at += 1;
        Ok(())
    }

    /// All that came of the ingestion's own batch.
    pub fn into_made(self, alloc: Global) -> Result<(Vec<BatchRows>, Failures), Memory>
        ensures { IfOk result (λ made. (made.0.items ≡ self.batches.items) × (made.1 ≡ self.failures.items)) }
    {
        let mut failures = Failures::new(alloc);
        for failure in self.failures.as_slice() {
            failures.push(*failure)?;
        }
        Ok((self.batches, failures))
    }
}
