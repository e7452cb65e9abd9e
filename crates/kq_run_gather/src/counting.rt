// The number of the rows that come through row operators.
ghost use Rattle.std.specs.Prelude.{◌≡◌, ◌<◌, ◌≤◌, ◌+◌, ◌^◌, IfOk, OnErr};
ghost use Rattle.kq_run_scan.specs.kq_eval_pieces.Pieces.{piece_of};
ghost use Rattle.kq_run_row_operators.specs.Ran.{Ran, joined};
ghost use Rattle.kq_run_gather.specs.Pipelines.{CountsTo, ran_through};

use crate::pipeline::Pipeline;
use kq_run_scan::{Flow, Held, Next, Relation};
use kq_value::Memory;
use std::alloc::{AllocError, Global};

/// How many rows came through row operators.
#[derive(Clone, Copy, Drop)]
pub enum Counted {
    Rows(u64),
    /// The number of the first operator, from 0, that overflows on a row.
    Failed(usize),
}

/// How many come of the rows from the one of a number on, up to that of another.
pub fn count_between(
    alloc: Global,
    pipeline: &Pipeline,
    rows: &Held,
    from: u64,
    to: u64,
) -> Result<Counted, Memory>
    ensures { IfOk result (CountsTo (ran_through pipeline.now (piece_of rows.now from to))) }
{
    let mut flow = rows.flow_between(
        alloc,
        from,
        to,
        pipeline.operators,
        pipeline.lets,
        pipeline.moment,
    );
    count_all(&mut flow)
}

// How many are still to come.
fn count_all(flow: &mut Flow) -> Result<Counted, Memory>
    ensures { IfOk result (CountsTo flow.old.to_come) }
{
    let mut count = 0;
    loop {
        match flow.next()? {
            Next::Piece(piece) => count = counted_with(count, piece.len() as u64)?,
            Next::End => return Ok(Counted::Rows(count)),
            Next::Failed(n) => return Ok(Counted::Failed(n)),
        }
    }
}

/// How many come of rows in two parts: of the first these, and these of the rest.
pub fn counted_together(first: Counted, rest: Counted) -> Result<Counted, Memory>
    ensures { (r q : Ran) → CountsTo r first → CountsTo q rest → IfOk result (CountsTo (joined r q)) }
{
    match first {
        Counted::Rows(count) => match rest {
            Counted::Rows(more) => Ok(Counted::Rows(counted_with(count, more)?)),
            Counted::Failed(m) => Ok(Counted::Failed(m)),
        },
        Counted::Failed(n) => match rest {
            Counted::Rows(_) => Ok(Counted::Failed(n)),
            Counted::Failed(m) => Ok(Counted::Failed(n.min(m))),
        },
    }
}

// The sum of two counts. Expansions make more rows than they take, so that no bound is known. More than 2^63 - 1 rows, which no
// cell could count, don't come up: at 10^9 a second they take 292 years. They count as a want of memory.
fn counted_with(count: u64, more: u64) -> Result<u64, Memory>
    ensures sum { IfOk result (λ sum. sum ≡ count + more) }
    ensures small { IfOk result (λ sum. sum < 2 ^ 63) }
    ensures err { OnErr result (2 ^ 63 ≤ count + more) }
{
    let sum = count.saturating_add(more);
    if sum > i64::MAX as u64 {
        return Err(AllocError);
    }
    Ok(sum)
}
