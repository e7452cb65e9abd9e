// The cascade.
ghost use Rattle.std.specs.Prelude.{◌<◌, All, IfErr, IfOk, OnOk, length, true};
ghost use Rattle.kq_value.specs.Typed.{HasTypes};
ghost use Rattle.kq_policy_cascade.specs.Makes.{Makes, RefusesBy};
ghost use Rattle.kq_policy_cascade.specs.Runs.{FailsWhole, IsReady, FaultIsWhole, RunsDue};
ghost use Rattle.kq_policy_cascade.specs.Steps.{FallsTo, IsLaid, state_of};

use crate::batch::{BatchRows, Given};
use crate::progress::Progress;
use crate::query::{next_batch, query};
use crate::tables::{QueryFault, Tables};
use kq_catalog_journal::{Due, Failures};
use kq_store_extent::Columns;
use kq_store_rows::Cause;
use kq_value::{Memory, Tags};
use std::alloc::{AllocFailed, Global};

/// What came of a batch: the batches in the order of the cascade, the batch itself first, the failures that were noted, and the entry of each query
/// that was run.
#[derive(Drop)]
pub struct Derived {
    pub batches: Vec<BatchRows>,
    pub failures: Failures,
    pub asked: Vec<Due>,
}

/// Why nothing comes of a batch.
#[derive(Clone, Copy, PartialEq, Eq)]
pub enum CascadeFault {
    /// A transactional entry of the batch failed: the target of the entry whose query failed, and the cause.
    PolicyFailed { target: u32, cause: Cause },
    /// More queries than this would be run.
    Full { limit: u64 },
    Memory,
}

impl From<Memory> for CascadeFault {
    ghost use Rattle.std.specs.Prelude.{◌≡◌};
    ghost use Rattle.kq_policy_cascade.specs.declared.running.CascadeFault.TheVariants as fault;

    ghost from_gives = { λ _ f. f ≡ fault.Memory };

    fn from(_error: Memory) -> CascadeFault {
        CascadeFault::Memory
    }
}

impl<T: Drop> From<AllocFailed<T>> for CascadeFault {
    ghost use Rattle.std.specs.Prelude.{◌≡◌};
    ghost use Rattle.kq_policy_cascade.specs.declared.running.CascadeFault.TheVariants as fault;

    ghost from_gives = { λ _ f. f ≡ fault.Memory };

    fn from(_error: AllocFailed<T>) -> CascadeFault {
        CascadeFault::Memory
    }
}

/// What comes of a batch of a table by the policies in force, depth first: each entry's query is run over the rows of the batch alone, and what it
/// gives is the next batch. It keeps its place in a stack of its own, so a chain of entries may be as long as the limit of queries.
pub fn cascade<T: Tables>(
    alloc: Global,
    tables: &T,
    limit: u64,
    table: u32,
    rows: Columns,
    tags: Tags,
) -> Result<Derived, CascadeFault>
    requires { All (HasTypes ((T.rules tables.now).columns table)) rows }
    ensures made { IfOk result (Makes limit (T.rules tables.now) (T.gives tables.now) (record { table = table; rows = rows; tags = tags })) }
    ensures refused { IfErr result (RefusesBy limit (T.rules tables.now) (T.gives tables.now) (record { table = table; rows = rows; tags = tags })) }
{
    let dues = tables.dues();
    let mut progress = Progress::new(alloc, BatchRows::new(table, Given::Columns(rows), tags))?;
    let mut asked = Vec::new(alloc);
    while let Some(due) = progress.next(dues) {
        if asked.len() as u64 >= limit {
            return Err(CascadeFault::Full { limit });
        }
        asked.push(due)?;
        run(alloc, tables, dues, due, &mut progress)?;
    }
    let (batches, failures) = progress.into_made(alloc)?;
    Ok(Derived {
        batches,
        failures,
        asked,
    })
}

// Runs the query of an entry for the batch whose entries run, which is laid out for all of them.
fn run<T: Tables>(
    alloc: Global,
    tables: &T,
    dues: &[Due],
    due: Due,
    progress: &mut Progress,
) -> Result<(), CascadeFault>
    requires ready { IsReady (T.rules tables.now) dues.now due (state_of progress.old) }
    ensures ok { OnOk result (RunsDue (T.rules tables.now) (T.gives tables.now) dues.now due (state_of progress.old) (state_of progress.new)) }
    ensures err { IfErr result (FailsWhole (T.gives tables.now) dues.now due (state_of progress.old)) }
{
    progress.lay_out(alloc, tables)?;
    match query(alloc, tables, due, progress.batch()) {
        Ok(given) => {
            let batch = next_batch(alloc, tables, progress.batch(), due, given)?;
            progress.open(batch)?;
            Ok(())
        }
        Err(QueryFault::Fails(cause)) => fall(dues, due.target, cause, progress),
        Err(QueryFault::Memory) => Err(CascadeFault::Memory),
    }
}

fn fall(
    dues: &[Due],
    target: u32,
    cause: Cause,
    progress: &mut Progress,
) -> Result<(), CascadeFault>
    requires laid { IsLaid dues.now (state_of progress.old) }
    requires within { progress.old.top.at < length dues.now }
    ensures ok { OnOk result (FallsTo dues.now target cause (state_of progress.old) true (state_of progress.new)) }
    ensures err { IfErr result (FaultIsWhole dues.now target cause (state_of progress.old)) }
{
    if progress.fail(dues, target, cause)? {
        Ok(())
    } else {
        Err(CascadeFault::PolicyFailed { target, cause })
    }
}
