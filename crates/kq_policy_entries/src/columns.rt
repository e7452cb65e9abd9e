// The columns of an answer beside those of a table.
ghost use Rattle.std.specs.Prelude.{◌≡◌, ◌↔◌, IsTrue};
ghost use Rattle.kq_bind_query.specs.kq_bind_operators.Flows.{columns_at};
ghost use Rattle.kq_plan.specs.Plans.{planned_of};
ghost use Rattle.kq_value.specs.Schema.{same_fields};

use kq_plan::Plan;
use kq_value::Field;

fn are_same(given: &[Field], wanted: &[Field]) -> bool
    ensures { result ≡ same_fields given.now wanted.now }
{
    if given.len() != wanted.len() {
        return false;
    }
    for i in 0..given.len() {
        if !given[i].same(&wanted[i]) {
            return false;
        }
    }
    true
}

fn columns_given(plan: &Plan) -> &[Field]
    ensures { result.now ≡ columns_at (planned_of plan.now).steps plan.now.output }
{
    if plan.output < plan.steps.len() {
        plan.steps[plan.output].columns.as_slice()
    } else {
        &[]
    }
}

// Whether a plan answers with these columns, in this order. Takes no memory.
pub(crate) fn has_columns(plan: &Plan, columns: &[Field]) -> bool
    ensures { IsTrue result ↔ (columns_at (planned_of plan.now).steps plan.now.output ≡ columns.now) }
{
    are_same(columns_given(plan), columns)
}
