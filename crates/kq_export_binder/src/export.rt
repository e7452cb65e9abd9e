// The body of an export bound.
ghost use Rattle.std.specs.Prelude.{◌≡◌, List, Some, IfOk};
ghost use Rattle.kq_bind_query.specs.Queries.{query_bound};
ghost use Rattle.kq_read_grammar.specs.TabularViews.{query_of};
ghost use Rattle.kq_plan.specs.declared.names.NameKind.TheVariants as name;
ghost use Rattle.kq_plan.specs.Plans.{planned_of};
ghost use Rattle.kq_value.specs.declared.schema.Field.{Field};
ghost use Rattle.kq_export_binder.specs.Answers.{AnswersExport};
ghost use Rattle.kq_export_binder.specs.Bodies.{FitsTable};

use crate::body::is_export_body;
use crate::fault::ExportFault;
use kq_bind_query::bind_fitting;
use kq_plan::{Names, Plan};
use kq_read_grammar::Query;
use kq_value::Text;
use kq_view_body::foreign_place;
use std::alloc::Global;

/// The plan of the body of an export over the table of this name, or its first fault: those of the binder come before that of the form. The query has
/// no lets. Where the name
/// is that of a table, the plan fits whatever names know that table.
pub fn bind_export<N: Names>(
    alloc: Global,
    text: &str,
    query: &Query,
    table: &Text,
    names: &N,
) -> Result<Plan, ExportFault>
    ensures answer { let q = query_of query.now in AnswersExport (query_bound text.now (N.known names.now) q) text.now table.now q result }
    ensures fits { (cs : List Field) → N.known names.now table.now ≡ Some (name.Table, cs) → IfOk result (λ p. FitsTable table.now cs (planned_of p)) }
{
    let plan = bind_fitting(alloc, text, query, names)?;
    if !is_export_body(&plan, table) {
        return Err(ExportFault::BadExport {
            at: foreign_place(text, query, table.as_str()),
        });
    }
    Ok(plan)
}
