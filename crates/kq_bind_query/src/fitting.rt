// Queries that are bound to plans that fit.
ghost use Rattle.std.specs.Prelude.{◌≡◌, All, Ok, IfOk};
ghost use Rattle.kq_bind_query.specs.kq_bind_operators.Flows.{columns_at};
ghost use Rattle.kq_bind_query.specs.Queries.{query_bound};
ghost use Rattle.kq_bind_expressions.specs.Verdicts.{AnswersVerdict};
ghost use Rattle.kq_read_grammar.specs.TabularViews.{query_of};
ghost use Rattle.kq_plan.specs.Fits.{FitsNames};
ghost use Rattle.kq_plan.specs.Plans.{planned_of};
ghost use Rattle.kq_bind_query.specs.Counted.{stages_of};
ghost use Rattle.kq_bind_query.specs.Different.{KnowsDifferent, HasDifferent};
ghost use Rattle.kq_bind_query.specs.Staged.{IsStaged};

use crate::query::bind;
use kq_bind_expressions::BindFault;
use kq_plan::{Names, Plan};
use kq_read_grammar::Query;
use std::alloc::Global;

/// The plan of a query over the names of a catalogue, or its first fault, as `bind` gives it: a plan fits those names, each of its steps has columns
/// of different names, as those that the names stand for are, and a stage of its own.
pub fn bind_fitting<N: Names>(
    alloc: Global,
    text: &str,
    query: &Query,
    names: &N,
) -> Result<Plan, BindFault>
    ensures bound { AnswersVerdict planned_of (query_bound text.now (N.known names.now) (query_of query.now)) result }
    ensures fits { IfOk result (λ p. FitsNames (N.known names.now) (planned_of p) (columns_at (planned_of p).steps p.output)) }
    ensures different { KnowsDifferent (N.known names.now) → IfOk result (λ p. All HasDifferent (planned_of p).steps) }
    ensures staged { IfOk result (λ p. IsStaged (stages_of (query_of query.now)) (planned_of p)) }
{
    bind(alloc, text, query, names)
}
