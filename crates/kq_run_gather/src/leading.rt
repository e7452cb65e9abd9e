// The first rows in an order, of those that come through row operators.
ghost use Rattle.std.specs.Prelude.{◌≡◌, ℕ, List, [], IfOk};
ghost use Rattle.std.specs.List.{All};
ghost use Rattle.kq_run_scan.specs.kq_eval_pieces.Operators.{Row};
ghost use Rattle.kq_run_scan.specs.kq_eval_pieces.Pieces.{piece_of};
ghost use Rattle.kq_run_scan.specs.kq_eval_row.Val.{Surroundings, surroundings};
ghost use Rattle.kq_run_sort.specs.Answered.{AnswersOne};
ghost use Rattle.kq_run_sort.specs.Leading.{Lead};
ghost use Rattle.kq_run_sort.specs.Orders.{Topped};
ghost use Rattle.kq_plan.specs.Plans.{Sorting, sorting_of};
ghost use Rattle.kq_store_rows.specs.Chunks.{HasWidth};
ghost use Rattle.kq_run_gather.specs.Leading.{AreFirst, HaveWidth, LeadTogether, LeadsTo, TopsOf, lost_before};
ghost use Rattle.kq_run_gather.specs.declared.leading.Leading.TheVariants as leading;
ghost use Rattle.kq_run_gather.specs.declared.leading.Top.{Top as Asked};

use crate::pipeline::Pipeline;
use crate::taken::take_in;
use kq_plan::SortKey;
use kq_run_scan::{Flow, Held, Next};
use kq_run_sort::{Leaders, top_rows};
use kq_store_rows::Rows;
use kq_value::{EvalFault, Memory, Value};
use std::alloc::{AllocError, Global};

/// What is asked of rows: row operators, and behind them so many of the first rows in an order of a key.
#[derive(Clone, Copy)]
pub struct Top<'a> {
    pub pipeline: Pipeline<'a>,
    pub count: u64,
    pub key: &'a SortKey,
}

/// What rows come to of which the first in an order are asked.
#[derive(Drop)]
pub enum Leading {
    /// The first of those that came.
    Rows(Rows),
    /// The key overflows on one of those that came.
    Overflow,
    /// The number of the first operator, from 0, that overflows on a row.
    Failed(usize),
}

/// What the rows from the one of a number on, up to that of another, come to in this thread.
pub fn top_between(
    alloc: Global,
    asked: &Top,
    rows: &Held,
    from: u64,
    to: u64,
) -> Result<Leading, Memory>
    ensures { IfOk result (TopsOf asked.now rows.now (piece_of rows.now from to)) }
{
    let Pipeline {
        operators,
        lets,
        moment,
    } = asked.pipeline;
    let mut flow = rows.flow_between(alloc, from, to, operators, lets, moment);
    top_all(alloc, &mut flow, asked.count, asked.key, lets, moment)
}

// The first of all that are still to come. Rows that can't be among them are passed over and not copied.
fn top_all(
    alloc: Global,
    flow: &mut Flow,
    count: u64,
    key: &SortKey,
    lets: &[Value],
    now: i64,
) -> Result<Leading, Memory>
    ensures { IfOk result (LeadsTo flow.old.width count (sorting_of key.now) (surroundings now lets.now) flow.old.to_come) }
{
    let mut leaders = Leaders::new(alloc);
    top_with(alloc, &mut leaders, flow, count, key, lets, now)
}

// The same, beginning with leaders of no rows.
fn top_with(
    alloc: Global,
    leaders: &mut Leaders,
    flow: &mut Flow,
    count: u64,
    key: &SortKey,
    lets: &[Value],
    now: i64,
) -> Result<Leading, Memory>
    requires lead { Lead count (sorting_of key.now) (surroundings now lets.now) [] leaders.old }
    requires none { leaders.old.rows ≡ [] }
    ensures { IfOk result (LeadsTo flow.old.width count (sorting_of key.now) (surroundings now lets.now) flow.old.to_come) }
{
    loop {
        match flow.next()? {
            Next::Piece(piece) => match take_in(alloc, leaders, piece, count, key, lets, now) {
                Ok(()) => {}
                Err(EvalFault::Overflow) => return overflow(flow),
                Err(EvalFault::Memory) => return Err(AllocError),
            },
            Next::End => return told(leaders.first(alloc, count, key, lets, now)),
            Next::Failed(n) => return Ok(Leading::Failed(n)),
        }
    }
}

// An overflow, unless an operator fails on rows that are still to come: its failure goes first.
fn overflow(flow: &mut Flow) -> Result<Leading, Memory>
    ensures { IfOk result (λ l. l ≡ lost_before flow.old.to_come) }
{
    match flow.drain()? {
        Some(n) => Ok(Leading::Failed(n)),
        None => Ok(Leading::Overflow),
    }
}

// Rows that came, or an overflow of the key.
fn told(first: Result<Rows, EvalFault>) -> Result<Leading, Memory>
    ensures { (n : ℕ) (k : Sorting) (s : Surroundings) (all : List Row) → AnswersOne (Topped n k s all) first → IfOk result (AreFirst n k s all) }
{
    match first {
        Ok(rows) => Ok(Leading::Rows(rows)),
        Err(EvalFault::Overflow) => Ok(Leading::Overflow),
        Err(EvalFault::Memory) => Err(AllocError),
    }
}

/// What rows come to in two parts: of the first this, and this of the rest. The first of both parts' first ones are the first of all.
pub fn topped_together(
    alloc: Global,
    asked: &Top,
    first: Leading,
    rest: Leading,
) -> Result<Leading, Memory>
    requires { (w : ℕ) × HaveWidth w first × HaveWidth w rest }
    ensures { IfOk result (LeadTogether asked.now first rest) }
{
    match first {
        Leading::Rows(rows) => behind_rows(alloc, asked, rows, rest),
        Leading::Overflow => Ok(behind_overflow(rest)),
        Leading::Failed(n) => Ok(behind_failure(n, rest)),
    }
}

fn behind_rows(alloc: Global, asked: &Top, rows: Rows, rest: Leading) -> Result<Leading, Memory>
    requires { (w : ℕ) × All (HasWidth w) rows × HaveWidth w rest }
    ensures { IfOk result (LeadTogether asked.now (leading.Rows rows) rest) }
{
    match rest {
        Leading::Rows(others) => {
            let mut all = rows;
            all.append(others)?;
            first_of(alloc, asked, &all)
        }
        Leading::Overflow => Ok(Leading::Overflow),
        Leading::Failed(m) => Ok(Leading::Failed(m)),
    }
}

fn first_of(alloc: Global, asked: &Top, rows: &Rows) -> Result<Leading, Memory>
    ensures { IfOk result (AreFirst asked.now.count (sorting_of asked.now.key.now) (surroundings asked.now.pipeline.moment asked.now.pipeline.lets.now) rows.now) }
{
    let Pipeline { lets, moment, .. } = asked.pipeline;
    told(top_rows(alloc, rows, asked.count, asked.key, lets, moment))
}

fn behind_overflow(rest: Leading) -> Leading
    ensures { (t : Asked) → LeadTogether t leading.Overflow rest result }
{
    match rest {
        Leading::Rows(_) | Leading::Overflow => Leading::Overflow,
        Leading::Failed(m) => Leading::Failed(m),
    }
}

fn behind_failure(n: usize, rest: Leading) -> Leading
    ensures { (t : Asked) → LeadTogether t (leading.Failed n) rest result }
{
    match rest {
        Leading::Rows(_) | Leading::Overflow => Leading::Failed(n),
        Leading::Failed(m) => Leading::Failed(n.min(m)),
    }
}
