// Queries and their replies.
ghost use Rattle.std.specs.Prelude.{◌≡◌, All, IfErr, IfOk};
ghost use Rattle.kq_read_grammar.specs.TabularViews.{query_of};
ghost use Rattle.kq_run_plan.specs.Typed.{IsTypedTable};
ghost use Rattle.kq_plan.specs.Fits.{FitsNames};
ghost use Rattle.kq_plan.specs.Plans.{planned_of};
ghost use Rattle.kq_value.specs.Typed.{HasTypes, IsMoment};
ghost use Rattle.kq_engine_query.specs.Answers.{AnswersQuery, AnswersRun, RefusesBy, Shows, columns_given, refusal_of};
ghost use Rattle.kq_engine_query.specs.Printed.{PrintsAnswer};
ghost use Rattle.kq_engine_query.specs.Worlds.{known_in};

use crate::scope::QueryScope;
use kq_bind_expressions::BindFault;
use kq_bind_query::bind_fitting;
use kq_catalog::Snapshot;
use kq_plan::{Plan, Step};
use kq_read_grammar::Query;
use kq_reply::{Refusal, Reply, render};
use kq_run_plan::{Gatherer, Outcome, run_plan_by};
use kq_store_rows::Answer;
use kq_value::{Memory, Schema};
use std::alloc::Global;

/// The answer to a query at a moment, from the snapshot alone: its rows as they are printed, or the first fault of its binding, or the
/// fault of its plan. The gatherer gathers what comes through row operators. The symbols of the tree are places in the text.
pub fn answer<G: Gatherer>(
    snapshot: &Snapshot,
    text: &str,
    query: &Query,
    gatherer: &G,
    now: i64,
) -> Result<Reply, Refusal>
    requires ready { G.ready gatherer.now }
    requires moment { IsMoment now }
    ensures answer { IfOk result (AnswersQuery snapshot.now.history now text.now (query_of query.now)) }
    ensures refused { IfErr result (RefusesBy (AnswersQuery snapshot.now.history now text.now (query_of query.now))) }
{
    answer_over(&QueryScope::new(snapshot)?, text, query, gatherer, now)
}

fn answer_over<G: Gatherer>(
    scope: &QueryScope<'_>,
    text: &str,
    query: &Query,
    gatherer: &G,
    now: i64,
) -> Result<Reply, Refusal>
    requires ready { G.ready gatherer.now }
    requires moment { IsMoment now }
    ensures answer { IfOk result (AnswersQuery scope.now.snapshot.now.history now text.now (query_of query.now)) }
    ensures refused { IfErr result (RefusesBy (AnswersQuery scope.now.snapshot.now.history now text.now (query_of query.now))) }
{
    match bind_fitting(scope.snapshot.allocator(), text, query, scope) {
        Ok(plan) => answer_plan(scope, plan, gatherer, now),
        Err(fault) => Err(refusal(fault)),
    }
}

fn refusal(fault: BindFault) -> Refusal
    ensures { result ≡ refusal_of fault }
{
    match fault {
        BindFault::Unsupported { at } => Refusal::Unsupported { at: at as u64 },
        BindFault::Unknown { at } => Refusal::Unknown { at: at as u64 },
        BindFault::Mistyped { at } => Refusal::Mistyped { at: at as u64 },
        BindFault::Memory => Refusal::Memory,
    }
}

// What a plan gives.
fn answer_plan<G: Gatherer>(
    scope: &QueryScope<'_>,
    plan: Plan,
    gatherer: &G,
    now: i64,
) -> Result<Reply, Refusal>
    requires ready { G.ready gatherer.now }
    requires moment { IsMoment now }
    requires fits { FitsNames (known_in scope.now.snapshot.now.history) (planned_of plan) (columns_given (planned_of plan)) }
    ensures answer { IfOk result (AnswersRun scope.now.snapshot.now.history now (planned_of plan)) }
    ensures refused { IfErr result (RefusesBy (AnswersRun scope.now.snapshot.now.history now (planned_of plan))) }
{
    let alloc = scope.snapshot.allocator();
    let outcome = run_plan_by(alloc, &plan, scope, gatherer, now)?;
    show(alloc, header(alloc, plan), outcome)
}

// The columns of what a plan gives.
fn header(alloc: Global, plan: Plan) -> Schema
    ensures { result ≡ columns_given (planned_of plan) }
{
    let Plan { steps, output } = plan;
    let mut steps = steps;
    if output < steps.len() {
        columns_in(steps.swap_remove(output))
    } else {
        Schema::new(alloc)
    }
}

fn columns_in(step: Step) -> Schema
    ensures { result ≡ step.columns.items }
{
    Schema::from_vec(step.columns)
}

// Rows under their columns, or the refusal of a fault.
fn show(alloc: Global, schema: Schema, outcome: Outcome) -> Result<Reply, Refusal>
    requires { IsTypedTable schema outcome }
    ensures answer { IfOk result (Shows schema outcome) }
    ensures refused { IfErr result (RefusesBy (Shows schema outcome)) }
{
    match outcome {
        Outcome::Table { ordered, rows } => Ok(print(
            alloc,
            Answer {
                schema,
                ordered,
                rows: rows.into_rows(alloc)?,
            },
        )?),
        Outcome::Cell(_) => unreachable!(),
        Outcome::Overflow { stage } => Err(Refusal::Overflow { stage }),
        Outcome::Full { limit } => Err(Refusal::Full { limit }),
    }
}

fn print(alloc: Global, answer: Answer) -> Result<Reply, Memory>
    requires { All (HasTypes answer.schema) answer.rows }
    ensures { IfOk result (PrintsAnswer (λ a. a ≡ answer)) }
{
    Ok(Reply::Rows {
        text: render(alloc, &answer)?,
    })
}
