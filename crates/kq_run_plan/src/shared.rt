// Which rows more than one step takes, or the answer.
ghost use Rattle.std.specs.Prelude.{[], ◌∷◌, IfOk, map};
ghost use Rattle.kq_plan.specs.Plans.{doing_of, filling_of, planned_of};
ghost use Rattle.kq_run_plan.specs.Stretches.{AreUnshared, Cleared, Shares, arm_read, reads};

use kq_plan::{Arm, Plan, Step, Work};
use kq_value::Memory;
use std::alloc::Global;

// For each step whether the one right behind it is the only one that takes its rows, and they are not the answer.
pub(crate) fn unshared(alloc: Global, plan: &Plan) -> Result<Vec<bool>, Memory>
    ensures { IfOk result (λ marks. AreUnshared (planned_of plan.now) marks.items) }
{
    let mut marks = vec![in alloc; true; plan.steps.len()]?;
    clear(&mut marks, plan.output);
    for place in 0..plan.steps.len() {
        share_inputs(&mut marks, &plan.steps[place], place);
    }
    Ok(marks)
}

fn share_inputs(marks: &mut Vec<bool>, step: &Step, place: usize)
    ensures { Shares place (reads (doing_of step.now.work)) marks.old.items marks.new.items }
{
    match &step.work {
        Work::Leaf(..) | Work::Row(..) | Work::Range(..) | Work::Table(..) | Work::Scalar(..) => {}
        Work::Where(i, ..) | Work::Project(i, ..) | Work::MvExpand(i, ..) => share(
            marks, *i, place,
        ),
        Work::Take(i, ..) | Work::Sort(i, ..) | Work::Top(i, ..) => share(marks, *i, place),
        Work::Count(i) | Work::Distinct(i, ..) | Work::Summarize(i, ..) => share(marks, *i, place),
        Work::Join(_, i, j, _) => share_two(marks, *i, *j, place),
        Work::Union(arms) => share_arms(marks, arms.as_slice(), place),
    }
}

fn share_two(marks: &mut Vec<bool>, i: usize, j: usize, place: usize)
    ensures { Shares place (i ∷ j ∷ []) marks.old.items marks.new.items }
{
    share(marks, i, place);
    share(marks, j, place);
}

fn share_arms(marks: &mut Vec<bool>, arms: &[Arm], place: usize)
    ensures { Shares place (map arm_read (map filling_of arms.now)) marks.old.items marks.new.items }
{
    for arm in arms {
        share(marks, arm.input, place);
    }
}

// The step at this place takes the rows of the step i.
fn share(marks: &mut Vec<bool>, i: usize, place: usize)
    ensures { Shares place (i ∷ []) marks.old.items marks.new.items }
{
    if place == 0 || i != place - 1 {
        clear(marks, i);
    }
}

fn clear(marks: &mut Vec<bool>, i: usize)
    ensures { Cleared i marks.old.items marks.new.items }
{
    if i < marks.len() {
        marks[i] = false;
    }
}
