// Runs of steps.
ghost use Rattle.std.specs.Prelude.{◌≡◌, IfOk, OnOk, MatchOption, count_by};
ghost use Rattle.kq_engine_interleavings.specs.Steps.{opens, tells, IsAt, AreWaiting, RunGoesOn, IsTrace};
ghost use Rattle.kq_engine_interleavings.specs.declared.run.Step.TheVariants as moves;

use crate::prepared::{Prepared, begin, finish};
use kq_catalog::Catalog;
use kq_catalog_journal::{By, Limits};
use kq_engine::{Outcome, Work, told};
use kq_reply::Reply;
use kq_value::Memory;
use std::alloc::Global;

/// A step of a run: a command is begun, or what was begun under a request id is finished.
#[derive(Drop)]
pub enum Step {
    Begin(Work),
    Finish(By),
}

/// An outcome, with its request id and the place of the snapshot on which the command was begun.
#[derive(Drop)]
pub struct Told {
    pub by: By,
    pub began: u64,
    pub outcome: Outcome,
}

/// What a run comes to.
#[derive(Drop)]
pub struct Trace {
    pub catalog: Catalog,
    pub outcomes: Vec<Told>,
}

#[derive(Drop)]
struct Running {
    catalog: Catalog,
    waiting: Vec<Prepared>,
    outcomes: Vec<Told>,
}

// The place of the work of a request id.
fn open_at(waiting: &[Prepared], by: By) -> Option<usize>
    ensures { MatchOption result (count_by (opens by) waiting.now ≡ 0) (IsAt (opens by) waiting.now) }
{
    for i in 0..waiting.len() {
        if waiting[i].work.by.same(by) {
            return Some(i);
        }
    }
    None
}

// The place of the outcome of a request id.
fn told_at(outcomes: &[Told], by: By) -> Option<usize>
    ensures { MatchOption result (count_by (tells by) outcomes.now ≡ 0) (IsAt (tells by) outcomes.now) }
{
    for i in 0..outcomes.len() {
        if outcomes[i].by.same(by) {
            return Some(i);
        }
    }
    None
}

fn begin_one(running: &mut Running, work: Work) -> Result<(), Memory>
    ensures { OnOk result (RunGoesOn running.old (moves.Begin work) running.new) }
{
    if let Some(_at) = open_at(running.waiting.as_slice(), work.by) {
        return Ok(());
    }
    if let Some(_at) = told_at(running.outcomes.as_slice(), work.by) {
        return Ok(());
    }
    let snapshot = running.catalog.snapshot()?;
    let began = snapshot.place();
    let by = work.by;
    match begin(&snapshot, work) {
        Ok(prepared) => {
            running.waiting.push(prepared)?;
            Ok(())
        }
        Err(refusal) => {
            let outcome = Outcome {
                place: began,
                own: false,
                reply: Reply::Refused(refusal),
            };
            running.outcomes.push(Told { by, began, outcome })?;
            Ok(())
        }
    }
}

fn finish_one(running: &mut Running, by: By) -> Result<(), Memory>
    requires { AreWaiting running.old.catalog running.old.waiting.items }
    ensures { OnOk result (RunGoesOn running.old (moves.Finish by) running.new) }
{
    let Some(i) = open_at(running.waiting.as_slice(), by) else {
        return Ok(());
    };
    running.outcomes.reserve(1)?;
    let prepared = running.waiting.remove(i);
    let began = prepared.place;
    let answer = finish(&mut running.catalog, prepared);
    let outcome = told(&running.catalog, answer);
    running.outcomes.push_reserved(Told { by, began, outcome });
    Ok(())
}

fn run_step(running: &mut Running, step: Step) -> Result<(), Memory>
    requires { AreWaiting running.old.catalog running.old.waiting.items }
    ensures { OnOk result (RunGoesOn running.old step running.new) }
{
    match step {
        Step::Begin(work) => begin_one(running, work),
        Step::Finish(by) => finish_one(running, by),
    }
}

/// Runs the steps one after another. A Begin under a request id that was begun does nothing, nor does a Finish of what wasn't
/// begun or is finished.
pub fn run_steps(alloc: Global, limits: Limits, steps: Vec<Step>) -> Result<Trace, Memory>
    ensures trace { IfOk result (λ t. IsTrace limits steps.items t.catalog t.outcomes.items) }
{
    let mut running = Running {
        catalog: Catalog::new(alloc, limits)?,
        waiting: Vec::new(alloc),
        outcomes: Vec::new(alloc),
    };
    for step in steps {
        run_step(&mut running, step)?;
    }
    let Running {
        catalog,
        waiting: _,
        outcomes,
    } = running;
    let _place = catalog.place();
    Ok(Trace { catalog, outcomes })
}
