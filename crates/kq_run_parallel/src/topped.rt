// The first rows in an order, which threads find beside each other.
ghost use Rattle.std.specs.Prelude.{◌<◌, IfOk};
ghost use Rattle.kq_run_gather.specs.Leading.{TopsOf};

use crate::halves::{halves, threads_for};
use crate::taking::Taking;
use kq_run_gather::{Held, Leading, Top, top_between, topped_together};
use kq_value::Memory;
use std::alloc::Global;
use std::thread::Threads;

/// The first of the rows that come, in an order: as many threads as there are processors take parts, of at least so many rows and of twice as many as
/// are asked for.
pub fn top_in_parts<R: Threads + Sync>(
    rt: &R,
    alloc: Global,
    asked: &Top,
    rows: &Held,
    piece: u64,
) -> Result<Leading, Memory>
    requires { 0 < piece }
    ensures { IfOk result (TopsOf asked.now rows.now rows.now) }
{
    let topping = Topping {
        asked: *asked,
        rows,
    };
    let share = piece.max(asked.count.saturating_mul(2));
    let most = threads_for(rt, rows.len(), share);
    halves(rt, alloc, &topping, 0, rows.len(), most)
}

// Rows and the operators that they go through, of which the first of those that come are kept.
#[derive(Clone, Copy)]
pub(crate) struct Topping<'a> {
    pub asked: Top<'a>,
    pub rows: &'a Held,
}

impl<R> Taking<R> for Topping<'_> {
    ghost use Rattle.kq_run_gather.specs.Leading.{TopsOf};
    ghost use Rattle.kq_run_gather.specs.kq_eval_pieces.Pieces.{piece_of};

    type Got = Leading;

    ghost ready = { λ a. Unit {0} };

    ghost comes = { λ a from to c. TopsOf a.asked a.rows.now (piece_of a.rows.now from to) c };

    fn take(&self, alloc: Global, from: u64, to: u64) -> Result<Leading, Memory> {
        top_between(alloc, &self.asked, self.rows, from, to)
    }

    fn both(
        &self,
        _rt: &R,
        alloc: Global,
        first: Leading,
        rest: Leading,
        _most: u64,
    ) -> Result<Leading, Memory> {
        topped_together(alloc, &self.asked, first, rest)
    }
}
