// Queries.
ghost use Rattle.std.specs.Prelude.{◌≡◌, Ok};
ghost use Rattle.kq_bind_query.specs.Queries.{query_bound, planned, query_walked};
ghost use Rattle.kq_bind_expressions.specs.Verdicts.{AnswersVerdict};
ghost use Rattle.kq_read_grammar.specs.TabularViews.{query_of};
ghost use Rattle.kq_plan.specs.Plans.{planned_of};

use crate::lets::{Lets, lets_made, no_lets};
use crate::pipe::bind_tabular;
use kq_bind_expressions::BindFault;
use kq_bind_operators::Scope;
use kq_bind_supported::unsupported_in_query;
use kq_plan::{Names, Plan};
use kq_read_grammar::Query;
use std::alloc::Global;

// The lets and then the pipe.
fn bind_supported<N: Names>(
    alloc: Global,
    text: &str,
    query: &Query,
    names: &N,
) -> Result<Plan, BindFault>
    ensures { AnswersVerdict planned_of (query_walked text.now (N.known names.now) (query_of query.now)) result }
{
    let Lets {
        progress,
        scalars,
        tables,
    } = lets_made(alloc, text, names, no_lets(alloc), &query.lets)?;
    let scope = Scope {
        text,
        lets: &scalars,
        tables: &tables,
        names,
    };
    let flow = bind_tabular(alloc, &scope, progress, &query.tabular)?;
    Ok(Plan {
        steps: flow.progress.steps,
        output: flow.input,
    })
}

/// The typed plan of a query over the names of a catalogue, or its first fault. The symbols of the tree are places in the text. The
/// leftmost literal or word of a type that isn't supported is told before every other fault; then the lets are walked in their order and
/// the pipe from its source on, operands before their operator. Its stages are numbered in the order of the text, its steps in that of
/// evaluation.
pub fn bind<N: Names>(
    alloc: Global,
    text: &str,
    query: &Query,
    names: &N,
) -> Result<Plan, BindFault>
    ensures { AnswersVerdict planned_of (query_bound text.now (N.known names.now) (query_of query.now)) result }
{
    match unsupported_in_query(text, query) {
        Some(at) => Err(BindFault::Unsupported { at }),
        None => bind_supported(alloc, text, query, names),
    }
}
