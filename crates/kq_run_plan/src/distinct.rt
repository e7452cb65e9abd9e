// The different rows of those that come through row operators.
ghost use Rattle.std.specs.Prelude.{◌≡◌, ◌<◌, IfOk, length, map};
ghost use Rattle.kq_plan_expressions.specs.Terms.{column, term_of};
ghost use Rattle.kq_run_gather.specs.Pipelines.{ran_through};
ghost use Rattle.kq_run_plan.specs.Ended.{EndsAs};
ghost use Rattle.kq_run_plan.specs.Reshaped.{DiffersTo};

use crate::outcome::Outcome;
use crate::sinks::{Ended, group_all};
use kq_plan_expressions::Expr;
use kq_run_gather::{Collected, Gatherer, Pipeline, Summarize};
use kq_run_reshape::distinct_rows;
use kq_run_scan::Held;
use kq_value::{Field, Memory};
use std::alloc::Global;

// The different rows of these columns, which have these fields, in the order of their first appearance.
pub(crate) fn keep_different<G: Gatherer>(
    alloc: Global,
    gatherer: &G,
    pipeline: &Pipeline,
    rows: &Held,
    columns: &[usize],
    fields: &[Field],
) -> Result<Ended, Memory>
    requires ready { G.ready gatherer.now }
    requires fields { length fields.now ≡ length columns.now }
    ensures { IfOk result (EndsAs (DiffersTo columns.now) (ran_through pipeline.now rows.now)) }
{
    if columns.is_empty() {
        keep_whole(alloc, gatherer, pipeline, rows, columns)
    } else {
        keep_keys(alloc, gatherer, pipeline, rows, columns, fields)
    }
}

// The same by one column or more: the keys of the groups by these. No column overflows, so that no stage is told.
fn keep_keys<G: Gatherer>(
    alloc: Global,
    gatherer: &G,
    pipeline: &Pipeline,
    rows: &Held,
    columns: &[usize],
    fields: &[Field],
) -> Result<Ended, Memory>
    requires ready { G.ready gatherer.now }
    requires some { 0 < length columns.now }
    requires fields { length fields.now ≡ length columns.now }
    ensures { IfOk result (EndsAs (DiffersTo columns.now) (ran_through pipeline.now rows.now)) }
{
    let keys = column_values(alloc, columns)?;
    let asked = Summarize {
        operators: pipeline.operators,
        keys: keys.as_slice(),
        aggregates: &[],
        columns: fields,
        lets: pipeline.lets,
        moment: pipeline.moment,
    };
    group_all(alloc, gatherer, &asked, rows, 0)
}

// The same of all rows, once they have come. By no column there would be a group even of none.
fn keep_whole<G: Gatherer>(
    alloc: Global,
    gatherer: &G,
    pipeline: &Pipeline,
    rows: &Held,
    columns: &[usize],
) -> Result<Ended, Memory>
    requires { G.ready gatherer.now }
    ensures { IfOk result (EndsAs (DiffersTo columns.now) (ran_through pipeline.now rows.now)) }
{
    match gatherer.collect(alloc, pipeline, rows)? {
        Collected::Rows(rows) => {
            let different = distinct_rows(alloc, &rows, columns)?;
            Ok(Ended::Gave(Outcome::Table {
                ordered: false,
                rows: Held::own(different),
            }))
        }
        Collected::Failed(n) => Ok(Ended::Failed(n)),
    }
}

// Expressions whose values are the cells of these columns.
fn column_values(alloc: Global, columns: &[usize]) -> Result<Vec<Expr>, Memory>
    ensures { IfOk result (λ exprs. map term_of exprs.items ≡ map column columns.now) }
{
    let mut exprs = Vec::with_capacity(alloc, columns.len())?;
    for number in columns {
        exprs.push(Expr::Column(*number))?;
    }
    Ok(exprs)
}
