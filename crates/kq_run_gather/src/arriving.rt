// Groups of the rows that come through row operators.
ghost use Rattle.std.specs.Prelude.{◌≡◌, ◌+◌, List, IfOk, length, map};
ghost use Rattle.kq_plan_expressions.specs.Terms.{term_of};
ghost use Rattle.kq_run_groups.specs.Groups.{HasAllGroups};
ghost use Rattle.kq_plan.specs.Plans.{aggregating_of};
ghost use Rattle.kq_run_scan.specs.Sources.{source_rows};
ghost use Rattle.kq_run_scan.specs.kq_eval_row.Val.{surroundings};
ghost use Rattle.kq_run_row_operators.specs.Pieces.{rows_in};
ghost use Rattle.kq_value.specs.declared.schema.Field.{Field as Column};
ghost use Rattle.kq_run_gather.specs.Arriving.{ArriveAs, BeginAs, groups_or, overflow_before};
ghost use Rattle.kq_run_gather.specs.Grouping.{ComeTo, all_made};

use crate::grouping::{add_piece, fresh};
use kq_plan::Aggregate;
use kq_plan_expressions::Expr;
use kq_run_groups::Groups;
use kq_run_row_operators::Piece;
use kq_run_scan::{Flow, Next, Source};
use kq_value::{EvalFault, Field, Memory, Value};
use std::alloc::{AllocError, Global};

/// What rows that come through row operators come to.
#[derive(Drop)]
pub enum Arrived {
    /// Their groups.
    Groups(Groups),
    /// A key or an argument overflows on one of them.
    Overflow,
    /// The number of the first operator, from 0, that overflows on a row.
    Failed(usize),
}

/// The groups of the rows that are still to come. An operator's failure on any of them goes before an overflow of a key or an argument.
pub fn gather_groups(
    alloc: Global,
    flow: &mut Flow,
    keys: &[Expr],
    aggregates: &[Aggregate],
    columns: &[Field],
    lets: &[Value],
    now: i64,
) -> Result<Arrived, Memory>
    requires { length columns.now ≡ length keys.now + all_made (map aggregating_of aggregates.now) }
    ensures { IfOk result (ArriveAs (map term_of keys.now) (map aggregating_of aggregates.now) columns.now (surroundings now lets.now) flow.old.to_come) }
{
    let mut groups = fresh(alloc, keys.len(), aggregates, columns)?;
    let other = take_all(alloc, &mut groups, flow, keys, aggregates, lets, now)?;
    Ok(groups_or(groups, other))
}

// What arrives, where groups have come or something else did.
fn groups_or(groups: Groups, other: Option<Arrived>) -> Arrived
    ensures { result ≡ groups_or groups other }
{
    match other {
        Some(other) => other,
        None => Arrived::Groups(groups),
    }
}

// Takes all rows that are still to come into groups of no rows, or gives what arrives in place of groups.
fn take_all(
    alloc: Global,
    groups: &mut Groups,
    flow: &mut Flow,
    keys: &[Expr],
    aggregates: &[Aggregate],
    lets: &[Value],
    now: i64,
) -> Result<Option<Arrived>, Memory>
    requires { (cs : List Column) × BeginAs (map term_of keys.now) (map aggregating_of aggregates.now) cs groups.old }
    ensures { (cs : List Column) → BeginAs (map term_of keys.now) (map aggregating_of aggregates.now) cs groups.old → IfOk result (λ other. ArriveAs (map term_of keys.now) (map aggregating_of aggregates.now) cs (surroundings now lets.now) flow.old.to_come (groups_or groups.new other)) }
{
    loop {
        match flow.next()? {
            Next::Piece(piece) => {
                match take_piece(alloc, groups, piece, keys, aggregates, lets, now) {
                    Ok(()) => {}
                    Err(EvalFault::Overflow) => return Ok(Some(overflow(flow)?)),
                    Err(EvalFault::Memory) => return Err(AllocError),
                }
            }
            Next::End => return Ok(None),
            Next::Failed(n) => return Ok(Some(Arrived::Failed(n))),
        }
    }
}

// Takes in a piece and lets it go. After a refusal the groups are to be dropped.
fn take_piece(
    alloc: Global,
    groups: &mut Groups,
    piece: Piece<Source>,
    keys: &[Expr],
    aggregates: &[Aggregate],
    lets: &[Value],
    now: i64,
) -> Result<(), EvalFault>
    requires whole { HasAllGroups groups.old }
    requires width { groups.old.width ≡ length keys.now }
    requires each { length groups.old.states ≡ length aggregates.now }
    ensures { ComeTo (map term_of keys.now) (map aggregating_of aggregates.now) (surroundings now lets.now) (rows_in source_rows piece.entry) groups.old groups.new result }
{
    add_piece(alloc, groups, &piece, keys, aggregates, lets, now)
}

// An overflow, unless an operator fails on rows that are still to come: its failure goes first.
fn overflow(flow: &mut Flow) -> Result<Arrived, Memory>
    ensures { IfOk result (λ a. a ≡ overflow_before flow.old.to_come) }
{
    match flow.drain()? {
        Some(n) => Ok(Arrived::Failed(n)),
        None => Ok(Arrived::Overflow),
    }
}
