// Plans as they grow.
ghost use Rattle.std.specs.Prelude.{◌≡◌, ◌≤◌, ◌+◌, ◌^◌, Ok, IfOk, OnErr, map};
ghost use Rattle.kq_bind_operators.specs.Flows.{added as the_added, following as the_following, next_stage as the_next_stage, again as the_again, columns_at as the_columns_at, columns as the_columns};
ghost use Rattle.kq_bind_operators.specs.Seen.{flow_of, progress_of};
ghost use Rattle.kq_bind_expressions.specs.Verdicts.{AnswersVerdict};
ghost use Rattle.kq_plan.specs.Plans.{doing_of, stepping_of};

use kq_bind_expressions::BindFault;
use kq_plan::{Step, Work};
use kq_value::{Field, Memory};
use std::alloc::{AllocError, Global};

/// The steps so far, and the number of stages in the text so far.
#[derive(Drop)]
pub struct Progress {
    pub steps: Vec<Step>,
    pub stages: u32,
}

/// The same, with the step whose rows go on.
#[derive(Drop)]
pub struct Flow {
    pub progress: Progress,
    pub input: usize,
}

/// One stage more. More than a number counts are more than memory holds.
pub fn next_stage(progress: Progress) -> Result<Progress, BindFault>
    ensures { AnswersVerdict progress_of (Ok (the_next_stage (progress_of progress))) result }
{
    let stages = one_more(progress.stages)?;
    Ok(Progress {
        steps: progress.steps,
        stages,
    })
}

fn one_more(stages: u32) -> Result<u32, Memory>
    ensures ok { IfOk result (λ more. more ≡ stages + 1) }
    ensures err { OnErr result (2 ^ 32 ≤ stages + 1) }
{
    match stages.checked_add(1) {
        Some(more) => Ok(more),
        None => Err(AllocError),
    }
}

// A step of this stage at the end, whose rows go on.
pub(crate) fn added(
    progress: Progress,
    stage: u32,
    work: Work,
    columns: Vec<Field>,
) -> Result<Flow, BindFault>
    ensures { AnswersVerdict flow_of (Ok (the_added (progress_of progress) stage (doing_of work) columns.items)) result }
{
    let mut steps = progress.steps;
    let input = steps.len();
    steps.push(Step {
        stage,
        work,
        columns,
    })?;
    let stages = progress.stages;
    Ok(Flow {
        progress: Progress { steps, stages },
        input,
    })
}

/// The next stage is this step.
pub fn following(progress: Progress, work: Work, columns: Vec<Field>) -> Result<Flow, BindFault>
    ensures { AnswersVerdict flow_of (Ok (the_following (progress_of progress) (doing_of work) columns.items)) result }
{
    let progress = next_stage(progress)?;
    let stage = progress.stages;
    added(progress, stage, work, columns)
}

// The rows of an earlier step go on, at one stage more.
pub(crate) fn again(progress: Progress, input: usize) -> Result<Flow, BindFault>
    ensures { AnswersVerdict flow_of (Ok (the_again (progress_of progress) input)) result }
{
    Ok(Flow {
        progress: next_stage(progress)?,
        input,
    })
}

// The columns of a step.
pub(crate) fn columns_at(steps: &[Step], number: usize) -> &[Field]
    ensures { result.now ≡ the_columns_at (map stepping_of steps.now) number }
{
    match steps.get(number) {
        Some(step) => step.columns.as_slice(),
        None => &[],
    }
}

// The columns of the rows that go on.
pub(crate) fn columns(flow: &Flow) -> &[Field]
    ensures { result.now ≡ the_columns (flow_of flow.now) }
{
    columns_at(&flow.progress.steps, flow.input)
}

// A second list of the same columns.
pub(crate) fn copied(alloc: Global, columns: &[Field]) -> Result<Vec<Field>, Memory>
    ensures { IfOk result (λ v. v.items ≡ columns.now) }
{
    let mut copies = Vec::with_capacity(alloc, columns.len())?;
    for column in columns {
        copies.push(column.clone_in()?)?;
    }
    Ok(copies)
}
