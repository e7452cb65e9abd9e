// Steps in a row that take rows of one another.
ghost use Rattle.std.specs.Prelude.{◌≡◌, ◌<◌, IfOk, length, map};
ghost use Rattle.kq_plan.specs.Plans.{stepping_of};
ghost use Rattle.kq_run_row_operators.specs.Operators.{rowwise_of};
ghost use Rattle.kq_run_gather.specs.Steps.{operators_of, stage_at};

use kq_plan::{Step, Work};
use kq_run_row_operators::Operator;
use kq_value::Memory;
use std::alloc::Global;

/// The operators of those steps that make their rows of one row at a time.
pub fn operators<'a>(alloc: Global, steps: &'a [Step]) -> Result<Vec<Operator<'a>>, Memory>
    ensures { IfOk result (λ os. map rowwise_of os.items ≡ operators_of (map stepping_of steps.now)) }
{
    let mut operators = Vec::new(alloc);
    for step in steps {
        match &step.work {
            Work::Where(_, condition) => operators.push(Operator::Keep(condition))?,
            Work::Project(_, exprs) => operators.push(Operator::Make(exprs.as_slice()))?,
            Work::MvExpand(_, expr, at, ty) => operators.push(Operator::MvExpand(expr, *at, *ty))?,
            _ => {}
        }
    }
    Ok(operators)
}

/// The stage of the step of this number.
#[tactic(auto, using(crate::proofs::Stepped::stage_is))]
pub fn stage_in(steps: &[Step], n: usize) -> u32
    requires { n < length steps.now }
    ensures { result ≡ stage_at (map stepping_of steps.now) n }
{
    steps[n].stage
}
