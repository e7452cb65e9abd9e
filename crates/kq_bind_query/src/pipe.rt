// Pipes: one arm for each source and each operator.
ghost use Rattle.std.specs.Prelude.{◌≡◌, ◌∷◌, [], map};
ghost use Rattle.std.specs.Option.{option_map};
ghost use Rattle.kq_bind_query.specs.Pipes.{tabular, sourced, from_word, united_with, gathered, armed, piped, operated};
ghost use Rattle.kq_bind_operators.specs.Seen.{flow_of, progress_of, scoping_of};
ghost use Rattle.kq_bind_expressions.specs.Verdicts.{AnswersVerdict};
ghost use Rattle.kq_read_grammar.specs.Trees.{unite};
ghost use Rattle.kq_read_grammar.specs.TabularViews.{tabular_of, source_of, from_of, union_of, arm_of, arms_of, operator_of, operators_of, body_of, join_of};

use kq_bind_expressions::BindFault;
use kq_bind_operators::{
    Flow, Progress, Scope, all_distinct, all_together, bind_distinct, bind_mv_expand, bind_range,
    counted_rows, dropped, extended, filtered, grouped, grouped_by, join_kind, joined_on,
    next_stage, part_named, printed_row, projected, renamed, sorted_by, source_named, table_rows,
    taken, topped_by,
};
use kq_plan::Names;
use kq_read_grammar::{Arm, Join, Operator, OperatorBody, Source, SourceBody, Tabular, Union};
use kq_read_symbols::Symbol;
use std::alloc::Global;

// What a pipe is bound to after these steps, or its first fault.
#[cycle(pipe)]
pub(crate) fn bind_tabular<N: Names>(
    alloc: Global,
    scope: &Scope<N>,
    progress: Progress,
    tree: &Tabular,
) -> Result<Flow, BindFault>
    ensures { AnswersVerdict flow_of (tabular (scoping_of N.known scope.now) (progress_of progress) (tabular_of tree.now)) result }
{
    let flow = bind_source(alloc, scope, progress, &tree.source)?;
    bind_operators(alloc, scope, flow, &tree.operators)
}

#[cycle(pipe)]
fn bind_source<N: Names>(
    alloc: Global,
    scope: &Scope<N>,
    progress: Progress,
    source: &Source,
) -> Result<Flow, BindFault>
    ensures { AnswersVerdict flow_of (sourced (scoping_of N.known scope.now) (progress_of progress) (source_of source.now)) result }
{
    match source {
        Source::Table(name) => source_named(alloc, scope, progress, *name),
        Source::Nested(_, inner) => bind_tabular(alloc, scope, progress, inner),
        Source::Worded(word, body) => bind_word(alloc, scope, progress, *word, body),
    }
}

#[cycle(pipe)]
fn bind_word<N: Names>(
    alloc: Global,
    scope: &Scope<N>,
    progress: Progress,
    word: Symbol,
    body: &SourceBody,
) -> Result<Flow, BindFault>
    ensures { AnswersVerdict flow_of (from_word (scoping_of N.known scope.now) (progress_of progress) word (from_of body.now)) result }
{
    match body {
        SourceBody::View(string) => part_named(alloc, scope, progress, *string),
        SourceBody::Print(first, others) => printed_row(alloc, scope, progress, first, others),
        SourceBody::Range {
            name,
            from,
            to,
            step,
        } => bind_range(alloc, scope, progress, *name, from, to, step),
        SourceBody::Datatable {
            first,
            others,
            cells,
        } => table_rows(alloc, scope, progress, word.from, *first, others, cells),
        SourceBody::Union(arms) => {
            let progress = next_stage(progress)?;
            let stage = progress.stages;
            bind_union(alloc, scope, stage, progress, Vec::new(alloc), arms)
        }
    }
}

// The rows of these steps with those of the arms, at this stage.
#[cycle(pipe)]
fn bind_union<N: Names>(
    alloc: Global,
    scope: &Scope<N>,
    stage: u32,
    progress: Progress,
    before: Vec<usize>,
    arms: &Union,
) -> Result<Flow, BindFault>
    ensures { AnswersVerdict flow_of (united_with (scoping_of N.known scope.now) stage (progress_of progress) before.items (union_of arms.now)) result }
{
    let flow = bind_arm(alloc, scope, progress, &arms.first)?;
    let mut inputs = before;
    inputs.push(flow.input)?;
    bind_arms(
        alloc,
        scope,
        stage,
        arms.kind,
        flow.progress,
        inputs,
        &arms.others,
    )
}

#[cycle(pipe)]
fn bind_arms<N: Names>(
    alloc: Global,
    scope: &Scope<N>,
    stage: u32,
    kind: Option<Symbol>,
    before: Progress,
    first: Vec<usize>,
    arms: &Vec<Arm>,
) -> Result<Flow, BindFault>
    ensures { AnswersVerdict flow_of (gathered (scoping_of N.known scope.now) stage kind (progress_of before) first.items (arms_of (map arm_of arms.now.items))) result }
{
    let mut progress = before;
    let mut inputs = first;
    for arm in arms {
        let flow = bind_arm(alloc, scope, progress, arm)?;
        inputs.push(flow.input)?;
        progress = flow.progress;
    }
    all_together(alloc, stage, kind, progress, &inputs)
}

#[cycle(pipe)]
fn bind_arm<N: Names>(
    alloc: Global,
    scope: &Scope<N>,
    progress: Progress,
    arm: &Arm,
) -> Result<Flow, BindFault>
    ensures { AnswersVerdict flow_of (armed (scoping_of N.known scope.now) (progress_of progress) (arm_of arm.now)) result }
{
    match arm {
        Arm::Named(name) => source_named(alloc, scope, progress, *name),
        Arm::Grouped(_, inner) => bind_tabular(alloc, scope, progress, inner),
    }
}

#[cycle(pipe)]
fn bind_operators<N: Names>(
    alloc: Global,
    scope: &Scope<N>,
    before: Flow,
    operators: &Vec<Operator>,
) -> Result<Flow, BindFault>
    ensures { AnswersVerdict flow_of (piped (scoping_of N.known scope.now) (flow_of before) (operators_of (map operator_of operators.now.items))) result }
{
    let mut flow = before;
    for operator in operators {
        flow = bind_operator(alloc, scope, flow, operator)?;
    }
    Ok(flow)
}

#[cycle(pipe)]
fn bind_operator<N: Names>(
    alloc: Global,
    scope: &Scope<N>,
    flow: Flow,
    operator: &Operator,
) -> Result<Flow, BindFault>
    ensures { AnswersVerdict flow_of (operated (scoping_of N.known scope.now) (flow_of flow) (operator_of operator.now).1) result }
{
    bind_body(alloc, scope, flow, &operator.body)
}

#[cycle(pipe)]
fn bind_body<N: Names>(
    alloc: Global,
    scope: &Scope<N>,
    flow: Flow,
    body: &OperatorBody,
) -> Result<Flow, BindFault>
    ensures { AnswersVerdict flow_of (operated (scoping_of N.known scope.now) (flow_of flow) (body_of body.now)) result }
{
    match body {
        OperatorBody::Where(tree) => filtered(alloc, scope, flow, tree),
        OperatorBody::Extend(first, others) => extended(alloc, scope, flow, first, others),
        OperatorBody::Project(first, others) => projected(alloc, scope, flow, first, others),
        OperatorBody::ProjectAway(first, others) => dropped(alloc, scope, flow, *first, others),
        OperatorBody::ProjectRename(first, others) => renamed(alloc, scope, flow, *first, others),
        OperatorBody::Take(number) => taken(alloc, scope, flow, *number),
        OperatorBody::Count => counted_rows(alloc, flow),
        OperatorBody::Sort(first, others) => sorted_by(alloc, scope, flow, first, others),
        OperatorBody::Top(number, key) => topped_by(alloc, scope, flow, *number, key),
        OperatorBody::Distinct(first, others) => bind_distinct(alloc, scope, flow, *first, others),
        OperatorBody::DistinctAll(star) => all_distinct(alloc, flow, *star),
        OperatorBody::Summarize(first, others, keys) => {
            grouped(alloc, scope, flow, first, others, keys)
        }
        OperatorBody::SummarizeBy(keys) => grouped_by(alloc, scope, flow, keys),
        OperatorBody::Join(join) => bind_join(alloc, scope, flow, join),
        OperatorBody::Unite(arms) => bind_unite(alloc, scope, flow, arms),
        OperatorBody::MvExpand(item, word) => bind_mv_expand(alloc, scope, flow, item, *word),
    }
}

// The stage of a join stands before those of its right side.
#[cycle(pipe)]
fn bind_join<N: Names>(
    alloc: Global,
    scope: &Scope<N>,
    flow: Flow,
    join: &Join,
) -> Result<Flow, BindFault>
    ensures { AnswersVerdict flow_of (operated (scoping_of N.known scope.now) (flow_of flow) (join_of join.now)) result }
{
    let left = flow.input;
    let progress = next_stage(flow.progress)?;
    let stage = progress.stages;
    let right = bind_tabular(alloc, scope, progress, &join.right)?;
    joined_on(
        alloc,
        scope,
        stage,
        left,
        join_kind(join.kind),
        right,
        join.first,
        &join.others,
    )
}

// The rows that come, with those of the arms.
#[cycle(pipe)]
fn bind_unite<N: Names>(
    alloc: Global,
    scope: &Scope<N>,
    flow: Flow,
    arms: &Union,
) -> Result<Flow, BindFault>
    ensures { AnswersVerdict flow_of (operated (scoping_of N.known scope.now) (flow_of flow) (unite (union_of arms.now))) result }
{
    let mut inputs = Vec::new(alloc);
    inputs.push(flow.input)?;
    let progress = next_stage(flow.progress)?;
    let stage = progress.stages;
    bind_union(alloc, scope, stage, progress, inputs, arms)
}
