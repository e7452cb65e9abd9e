// A view's body bound.
ghost use Rattle.std.specs.Prelude.{◌≡◌, List, Some, IfOk};
ghost use Rattle.kq_bind_query.specs.Queries.{query_bound};
ghost use Rattle.kq_view_body.specs.Parts.{query_parts};
ghost use Rattle.kq_read_grammar.specs.TabularViews.{query_of};
ghost use Rattle.kq_run_gather.specs.Bodies.{IsBody};
ghost use Rattle.kq_plan.specs.declared.names.NameKind.TheVariants as name;
ghost use Rattle.kq_plan.specs.Plans.{planned_of};
ghost use Rattle.kq_value.specs.declared.schema.Field.{Field};
ghost use Rattle.kq_view_body.specs.Answers.{AnswersBody};

use crate::body::check_body;
use crate::view_fault::ViewFault;
use kq_bind_query::bind_fitting;
use kq_plan::{Names, Plan};
use kq_read_grammar::Query;
use kq_value::Text;
use std::alloc::Global;

/// The plan of a view's body over the table of this name, or its first fault: those of the binder come before that of the form. Where the name is
/// that of a table, the plan
/// is a body over its columns.
pub fn bind_body<N: Names>(
    alloc: Global,
    text: &str,
    query: &Query,
    table: &Text,
    names: &N,
) -> Result<Plan, ViewFault>
    ensures answer { let q = query_of query.now in AnswersBody (query_bound text.now (N.known names.now) q) (query_parts text.now table.now q) result }
    ensures body { (cs : List Field) → N.known names.now table.now ≡ Some (name.Table, cs) → IfOk result (λ p. IsBody table.now cs (planned_of p)) }
{
    let plan = bind_fitting(alloc, text, query, names)?;
    check_body(text, query, table.as_str())?;
    Ok(plan)
}
