// Rows as they come through row operators, a piece at a time.
ghost use Rattle.std.specs.Prelude.{◌≡◌, ◌<◌, ◌≤◌, IfOk, length, map};
ghost use Rattle.kq_store_rows.specs.Chunks.{same_width};
ghost use Rattle.kq_run_row_operators.specs.kq_eval_pieces.Pieces.{piece_of};
ghost use Rattle.kq_run_row_operators.specs.kq_eval_row.Val.{surroundings};
ghost use Rattle.kq_run_row_operators.specs.Operators.{rowwise_of};
ghost use Rattle.kq_run_row_operators.specs.Pieces.{rows_in as piece_rows};
ghost use Rattle.kq_run_row_operators.specs.Ran.{failure_of, ran, width_in_end};
ghost use Rattle.kq_run_scan.specs.Flowing.{IsLeastToFail, flowing};
ghost use Rattle.kq_run_scan.specs.Held.{IsReadable, rows_in};
ghost use Rattle.kq_run_scan.specs.Opened.{IsOpen, ReadsOpen};
ghost use Rattle.kq_run_scan.specs.Sources.{source_rows};
ghost use Rattle.kq_run_scan.specs.Unread.{UnreadView, width_of};
ghost use Rattle.kq_run_scan.specs.Yielded.{Yields};

use crate::place::Place;
use crate::ruled::is_ruled_out;
use crate::settled::first_settled;
use crate::source::Source;
use crate::unread::Unread;
use kq_run_row_operators::{Operator, Passed, Piece, pass};
use kq_value::{Memory, Value};
use std::alloc::Global;
use std::marker::Model;

/// Rows on their way through row operators. Contracts see what is still to come.
#[derive(Drop)]
pub struct Flow<'a> {
    alloc: Global,
    unread: Unread<'a>,
    operators: &'a [Operator<'a>],
    lets: &'a [Value],
    now: i64,
}

impl<'a> Model for Flow<'a> {
    ghost use Rattle.std.specs.Prelude.{map};
    ghost use Rattle.std.specs.Coded.{codes};
    ghost use Rattle.kq_value.specs.contracts.value.Value as cell;
    ghost use Rattle.kq_run_row_operators.specs.kq_eval_row.Val.{surroundings};
    ghost use Rattle.kq_run_row_operators.specs.Operators.{rowwise_of};
    ghost use Rattle.kq_run_scan.specs.Flowing.{Flowing, flowing};

    ghost Value = { Flowing };

    ghost coded = { Prim.hlevel (codes, cell.the_row.coded) };

    ghost view = { λ f. flowing (map rowwise_of f.operators.now) (surroundings f.now f.lets.now) f.unread };
}

/// A piece of what comes, or the end, or the number of the first operator, from 0, that overflows on one of the rows.
#[derive(Drop)]
pub enum Next<'a> {
    Piece(Piece<Source<'a>>),
    End,
    Failed(usize),
}

impl<'a> Flow<'a> {
    pub(crate) fn new(
        alloc: Global,
        place: &'a Place,
        from: u64,
        to: u64,
        operators: &'a [Operator<'a>],
        lets: &'a [Value],
        now: i64,
    ) -> Flow<'a>
        requires { IsReadable place.now }
        ensures rows { result.to_come ≡ ran (map rowwise_of operators.now) (surroundings now lets.now) (piece_of (rows_in place.now) from to) }
        ensures width { result.width ≡ width_in_end (map rowwise_of operators.now) (width_of (rows_in place.now)) }
    {
        Flow {
            alloc,
            unread: Unread::new(place, from, to),
            operators,
            lets,
            now,
        }
    }

    /// The next piece, of a few thousand rows at most before operators. Records that the first operator leaves out, as the least and
    /// the greatest cell of their extent tell, aren't looked at.
    pub fn next(&mut self) -> Result<Next<'a>, Memory>
        ensures { IfOk result (Yields self.old self.new) }
    {
        match next_open(
            self.alloc,
            self.operators,
            &mut self.unread,
            self.lets,
            self.now,
        )? {
            Some(part) => next_of(
                self.alloc,
                self.operators,
                part,
                &mut self.unread,
                self.lets,
                self.now,
            ),
            None => Ok(Next::End),
        }
    }

    /// Lets all that is still to come go, and gives the number of the first operator that overflows on one of its rows, if one does.
    pub fn drain(&mut self) -> Result<Option<usize>, Memory>
        ensures { IfOk result (λ failure. failure ≡ failure_of self.old.to_come) }
    {
        loop {
            match self.next()? {
                Next::Piece(_piece) => {}
                Next::End => return Ok(None),
                Next::Failed(n) => return Ok(Some(n)),
            }
        }
    }
}

// The next part of which something may come.
fn next_open<'a>(
    alloc: Global,
    operators: &[Operator],
    unread: &mut Unread<'a>,
    lets: &[Value],
    now: i64,
) -> Result<Option<Piece<Source<'a>>>, Memory>
    ensures { IfOk result (ReadsOpen (map rowwise_of operators.now) (surroundings now lets.now) unread.old unread.new) }
{
    let settled = first_settled(alloc, operators, lets, now)?;
    let first = &settled;
    while let Some(part) = unread.next_part() {
        if !is_ruled_out(first, &part) {
            return Ok(Some(part));
        }
    }
    Ok(None)
}

// What comes of a part that has been read, before what is left.
fn next_of<'a>(
    alloc: Global,
    operators: &[Operator],
    part: Piece<Source<'a>>,
    unread: &mut Unread<'a>,
    lets: &[Value],
    now: i64,
) -> Result<Next<'a>, Memory>
    requires { same_width (piece_rows source_rows part) }
    ensures { (all : UnreadView) → IsOpen (map rowwise_of operators.now) (surroundings now lets.now) all (piece_rows source_rows part.entry) unread.old → IfOk result (Yields (flowing (map rowwise_of operators.now) (surroundings now lets.now) all) (flowing (map rowwise_of operators.now) (surroundings now lets.now) unread.new)) }
{
    match pass(alloc, operators, part, lets, now)? {
        Passed::Rows(piece) => Ok(Next::Piece(piece)),
        Passed::Failed(n) => {
            let least = least_of_rest(alloc, operators, unread, n, lets, now)?;
            Ok(Next::Failed(least))
        }
    }
}

// The least number of an operator that fails on rows, where the one with this number fails on a row before those that are left.
fn least_of_rest(
    alloc: Global,
    operators: &[Operator],
    unread: &mut Unread,
    first: usize,
    lets: &[Value],
    now: i64,
) -> Result<usize, Memory>
    requires { first ≤ length operators.now }
    ensures { IfOk result (IsLeastToFail first (map rowwise_of operators.now) (surroundings now lets.now) unread.old.rows) }
{
    let mut least = first;
    while least > 0 {
        match unread.next_part() {
            Some(part) => least = least_of_part(alloc, operators, part, least, lets, now)?,
            None => return Ok(least),
        }
    }
    Ok(least)
}

// The same of the rows of a part. Operators from that of the number on aren't asked.
fn least_of_part(
    alloc: Global,
    operators: &[Operator],
    part: Piece<Source>,
    first: usize,
    lets: &[Value],
    now: i64,
) -> Result<usize, Memory>
    requires first { first ≤ length operators.now }
    requires wide { same_width (piece_rows source_rows part) }
    ensures least { IfOk result (IsLeastToFail first (map rowwise_of operators.now) (surroundings now lets.now) (piece_rows source_rows part.entry)) }
    ensures less { IfOk result (λ n. n ≤ first) }
{
    let passed = pass(alloc, &operators[..first], part, lets, now)?;
    match passed {
        Passed::Rows(_rows) => Ok(first),
        Passed::Failed(n) => Ok(n),
    }
}
