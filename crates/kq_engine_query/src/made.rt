// The columns of views.
ghost use Rattle.std.specs.Prelude.{◌≡◌, ◌<◌, IfOk, Some};
ghost use Rattle.std.specs.List.{slice_get};
ghost use Rattle.kq_run_plan.specs.kq_run_gather.Bodies.{columns_made};
ghost use Rattle.kq_catalog_journal.specs.History.{Viewed, log, view_count, views};
ghost use Rattle.kq_plan.specs.Plans.{planned_of};
ghost use Rattle.kq_engine_query.specs.Views.{columns_of_view, columns_of_views};

use kq_catalog::Snapshot;
use kq_plan::Plan;
use kq_value::{Field, Memory, Schema};
use std::alloc::Global;

// The columns of the rows of each view, in the order of the views.
pub(crate) fn columns_of_views(snapshot: &Snapshot) -> Result<Vec<Schema>, Memory>
    ensures { IfOk result (λ columns. columns.items ≡ columns_of_views snapshot.now.history) }
{
    let mut columns = Vec::new(snapshot.allocator());
    for number in 0..snapshot.view_count() {
        columns.push(columns_of(snapshot, number)?)?;
    }
    Ok(columns)
}

fn columns_of(snapshot: &Snapshot, number: u32) -> Result<Schema, Memory>
    requires { number < view_count (log snapshot.now.history) }
    ensures { IfOk result (λ columns. (v : Viewed) → slice_get (views (log snapshot.now.history)) number ≡ Some v → columns ≡ columns_of_view v) }
{
    match snapshot.view_at(number) {
        Some(view) => copy_of(snapshot.allocator(), columns_made(&view.body)),
        None => unreachable!(),
    }
}

fn columns_made(body: &Plan) -> &[Field]
    ensures { result.now ≡ columns_made (planned_of body.now) }
{
    match body.steps.last() {
        Some(step) => step.columns.as_slice(),
        None => &[],
    }
}

pub(crate) fn copy_of(alloc: Global, fields: &[Field]) -> Result<Schema, Memory>
    ensures { IfOk result (λ schema. schema ≡ fields.now) }
{
    let mut schema = Schema::new(alloc);
    for field in fields {
        schema.push(field.clone_in()?)?;
    }
    Ok(schema)
}
