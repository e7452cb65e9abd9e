// The rows that come through row operators.
ghost use Rattle.std.specs.Prelude.{ℕ, IfOk, map};
ghost use Rattle.kq_run_scan.specs.Unread.{width_of};
ghost use Rattle.kq_run_scan.specs.kq_eval_pieces.Pieces.{piece_of};
ghost use Rattle.kq_run_row_operators.specs.Ran.{Ran, joined};
ghost use Rattle.kq_run_gather.specs.Pipelines.{AreWide, CollectsTo, ran_through, width_through};

use crate::pipeline::Pipeline;
use kq_run_scan::{Flow, Held, Next};
use kq_store_rows::Rows;
use kq_value::Memory;
use std::alloc::Global;

/// What came of rows through row operators.
#[derive(Drop)]
pub enum Collected {
    Rows(Rows),
    /// The number of the first operator, from 0, that overflows on a row.
    Failed(usize),
}

/// What comes of the rows from the one of a number on, up to that of another.
pub fn collect_between(
    alloc: Global,
    pipeline: &Pipeline,
    rows: &Held,
    from: u64,
    to: u64,
) -> Result<Collected, Memory>
    ensures { IfOk result (CollectsTo (width_through pipeline.now rows.now) (ran_through pipeline.now (piece_of rows.now from to))) }
{
    let mut flow = rows.flow_between(
        alloc,
        from,
        to,
        pipeline.operators,
        pipeline.lets,
        pipeline.moment,
    );
    collect_all(alloc, &mut flow)
}

// What is still to come.
fn collect_all(alloc: Global, flow: &mut Flow) -> Result<Collected, Memory>
    ensures { IfOk result (CollectsTo flow.old.width flow.old.to_come) }
{
    let mut rows = Rows::new(alloc);
    loop {
        match flow.next()? {
            Next::Piece(piece) => rows.append(piece.into_rows(alloc)?)?,
            Next::End => return Ok(Collected::Rows(rows)),
            Next::Failed(n) => return Ok(Collected::Failed(n)),
        }
    }
}

/// What comes of rows in two parts: of the first this, and this of the rest.
pub fn collected_together(first: Collected, rest: Collected) -> Result<Collected, Memory>
    requires { (w : ℕ) × AreWide w first × AreWide w rest }
    ensures { (w : ℕ) (r q : Ran) → CollectsTo w r first → CollectsTo w q rest → IfOk result (CollectsTo w (joined r q)) }
{
    match first {
        Collected::Rows(rows) => match rest {
            Collected::Rows(others) => {
                let mut all = rows;
                all.append(others)?;
                Ok(Collected::Rows(all))
            }
            Collected::Failed(m) => Ok(Collected::Failed(m)),
        },
        Collected::Failed(n) => match rest {
            Collected::Rows(_others) => Ok(Collected::Failed(n)),
            Collected::Failed(m) => Ok(Collected::Failed(n.min(m))),
        },
    }
}
