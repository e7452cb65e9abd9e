// The query of an entry bound.
ghost use Rattle.std.specs.Prelude.{IfOk};
ghost use Rattle.kq_policy_entries.specs.Answers.{AnswersPolicy, JudgesPolicy};
ghost use Rattle.kq_plan.specs.Fits.{FitsNames};
ghost use Rattle.kq_plan.specs.Plans.{planned_of};

use crate::body::is_policy_body;
use crate::columns::has_columns;
use crate::query_fault::PolicyFault;
use crate::reading::read_query;
use kq_bind_query::bind_fitting;
use kq_plan::{Names, Plan};
use kq_value::{Field, Text};
use std::alloc::Global;

// Whether a plan may be that of an entry from this source into a table of these columns.
fn judge(plan: &Plan, source: &Text, target: &[Field]) -> Result<(), PolicyFault>
    ensures { JudgesPolicy source.now target.now (planned_of plan.now) result }
{
    if !is_policy_body(plan, source) {
        return Err(PolicyFault::Body);
    }
    if !has_columns(plan, target) {
        return Err(PolicyFault::Schema);
    }
    Ok(())
}

/// The plan of an entry's query over the names of a catalogue, or the first reason why it has none. The whole text is the query; `source` is the name
/// of the entry's table, and `target`
/// the columns of the table that its rows go to. Views are among the names too, so that a query of one binds, and is refused for naming it.
pub fn bind_policy<N: Names>(
    alloc: Global,
    text: &str,
    source: &Text,
    target: &[Field],
    names: &N,
) -> Result<Plan, PolicyFault>
    ensures answer { AnswersPolicy text.now source.now target.now (N.known names.now) result }
    ensures fits { IfOk result (λ p. FitsNames (N.known names.now) (planned_of p) target.now) }
{
    let query = read_query(alloc, text)?;
    let plan = bind_fitting(alloc, text, &query, names)?;
    judge(&plan, source, target)?;
    Ok(plan)
}
