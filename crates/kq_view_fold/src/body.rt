// The steps of a view's body.
ghost use Rattle.std.specs.Prelude.{◌≡◌, map};
ghost use Rattle.kq_plan_expressions.specs.Terms.{term_of};
ghost use Rattle.kq_plan.specs.Plans.{aggregating_of, doing_of, planned_of, stepping_of};
ghost use Rattle.kq_run_gather.specs.Bodies.{IsViewBody, aggregates_in, behind_source, keys_in};
ghost use Rattle.kq_run_gather.specs.Steps.{last_of};

use kq_plan::{Aggregate, Plan, Step, Work};
use kq_plan_expressions::Expr;

// The steps behind that of its table.
pub(crate) fn behind_source(body: &Plan) -> &[Step]
    requires { IsViewBody (planned_of body.now) }
    ensures { map stepping_of result.now ≡ behind_source (planned_of body.now).steps }
{
    &body.steps.as_slice()[1..]
}

// The summarize.
pub(crate) fn last_step(body: &Plan) -> &Step
    requires { IsViewBody (planned_of body.now) }
    ensures { stepping_of result.now ≡ last_of (planned_of body.now).steps }
{
    &body.steps[body.steps.len() - 1]
}

pub(crate) fn keys_in(step: &Step) -> &[Expr]
    ensures { map term_of result.now ≡ keys_in (doing_of step.now.work) }
{
    match &step.work {
        Work::Summarize(_, keys, _) => keys.as_slice(),
        _ => &[],
    }
}

pub(crate) fn aggregates_in(step: &Step) -> &[Aggregate]
    ensures { map aggregating_of result.now ≡ aggregates_in (doing_of step.now.work) }
{
    match &step.work {
        Work::Summarize(_, _, aggregates) => aggregates.as_slice(),
        _ => &[],
    }
}
