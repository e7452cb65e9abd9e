// Operators that take the rows of several steps.
ghost use Rattle.std.specs.Prelude.{◌≡◌, ◌∷◌, map, Ok, IfOk};
ghost use Rattle.kq_bind_operators.specs.Clauses as the;
ghost use Rattle.kq_bind_operators.specs.Seen.{flow_of, progress_of, scoping_of};
ghost use Rattle.kq_bind_clauses.specs.Seen.{arm_of};
ghost use Rattle.kq_bind_expressions.specs.Verdicts.{AnswersVerdict};
ghost use Rattle.kq_plan.specs.Plans.{stepping_of};

use crate::flow::{Flow, Progress, added, columns, columns_at, copied};
use crate::scope::Scope;
use kq_bind_clauses::{
    ArmColumns, arms_filled, is_inner, join_columns, on_keys, union_columns, union_sources,
};
use kq_bind_expressions::BindFault;
use kq_plan::{JoinKind, Names, Step, Work};
use kq_read_grammar::JoinKey;
use kq_read_symbols::Symbol;
use kq_value::Memory;
use std::alloc::Global;

/// `join`: the rows of this step with those of the right side, at this stage.
pub fn joined_on<N: Names>(
    alloc: Global,
    scope: &Scope<N>,
    stage: u32,
    left: usize,
    kind: JoinKind,
    right: Flow,
    first: JoinKey,
    others: &[JoinKey],
) -> Result<Flow, BindFault>
    ensures { AnswersVerdict flow_of (the.joined_on (scoping_of N.known scope.now) stage left kind (flow_of right) (first ∷ others.now)) result }
{
    let steps = right.progress.steps.as_slice();
    let on = on_keys(
        alloc,
        scope.text,
        columns_at(steps, left),
        columns(&right),
        first,
        others,
    )?;
    let left_columns = copied(alloc, columns_at(steps, left))?;
    let right_columns = copied(alloc, columns(&right))?;
    let fields = join_columns(alloc, kind, left_columns, right_columns)?;
    let work = Work::Join(kind, left, right.input, on);
    added(right.progress, stage, work, fields)
}

// The columns of these steps.
fn arms_of(alloc: Global, steps: &[Step], inputs: &[usize]) -> Result<Vec<ArmColumns>, Memory>
    ensures { IfOk result (λ v. map arm_of v.items ≡ the.arms_with (map stepping_of steps.now) inputs.now) }
{
    let mut arms = Vec::new(alloc);
    for input in inputs {
        let columns = copied(alloc, columns_at(steps, *input))?;
        arms.push(ArmColumns {
            input: *input,
            columns,
        })?;
    }
    Ok(arms)
}

/// `union`: the rows of these steps together, at this stage.
pub fn all_together(
    alloc: Global,
    stage: u32,
    kind: Option<Symbol>,
    progress: Progress,
    inputs: &[usize],
) -> Result<Flow, BindFault>
    ensures { AnswersVerdict flow_of (Ok (the.all_together stage kind (progress_of progress) inputs.now)) result }
{
    let arms = arms_of(alloc, &progress.steps, inputs)?;
    let sources = union_sources(alloc, is_inner(kind), &arms)?;
    let filled = arms_filled(alloc, &arms, &sources)?;
    let columns = union_columns(alloc, &sources)?;
    added(progress, stage, Work::Union(filled), columns)
}
