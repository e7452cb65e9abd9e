// `summarize`: the keys come before the aggregates, in the walk and among the columns.
ghost use Rattle.std.specs.Prelude.{◌≡◌, ◌∷◌, [], map, true, Ok};
ghost use Rattle.std.specs.Option.{option_map};
ghost use Rattle.kq_bind_operators.specs.Clauses as the;
ghost use Rattle.kq_bind_operators.specs.Seen.{flow_of, scoping_of};
ghost use Rattle.kq_bind_aggregates.specs.Seen.{gathering_of};
ghost use Rattle.kq_bind_operators.specs.Flows.{columns as the_columns};
ghost use Rattle.kq_bind_operators.specs.Scopes.{names as the_names};
ghost use Rattle.kq_bind_columns.specs.Items.{items_made, nothing_made as made_nothing};
ghost use Rattle.kq_bind_columns.specs.Made.{made_of};
ghost use Rattle.kq_bind_expressions.specs.Verdicts.{AnswersVerdict};
ghost use Rattle.kq_plan_expressions.specs.Terms.{term_of};
ghost use Rattle.kq_read_grammar.specs.Views.{aggregate_view, grouping_view};

use crate::flow::{Flow, columns, following};
use crate::scope::{Scope, expression_scope};
use kq_bind_aggregates::{Gathered, aggregates_made, no_aggregate};
use kq_bind_columns::{Made, all_made, nothing_made};
use kq_bind_expressions::BindFault;
use kq_plan::{Names, Work};
use kq_plan_expressions::Expr;
use kq_read_grammar::{Aggregate, Grouping};
use std::alloc::Global;

fn keys_made<N: Names>(
    alloc: Global,
    scope: &Scope<N>,
    flow: &Flow,
    keys: &Option<Box<Grouping>>,
) -> Result<Made, BindFault>
    ensures { let items = the.grouping_items (option_map (λ b. grouping_view b.value) keys.now) in
        AnswersVerdict made_of (items_made (the_names (scoping_of N.known scope.now)) (the_columns (flow_of flow.now)) [] true made_nothing items) result }
{
    match keys {
        None => Ok(nothing_made(alloc)),
        Some(keys) => {
            let seen = expression_scope(scope);
            all_made(
                alloc,
                &seen,
                columns(flow),
                &[],
                true,
                &keys.first,
                &keys.others,
            )
        }
    }
}

fn summarized_by(flow: Flow, keys: Vec<Expr>, gathered: Gathered) -> Result<Flow, BindFault>
    ensures { AnswersVerdict flow_of (Ok (the.summarized_by (flow_of flow) (map term_of keys.items) (gathering_of gathered))) result }
{
    following(
        flow.progress,
        Work::Summarize(flow.input, keys, gathered.aggregates),
        gathered.fields,
    )
}

/// `summarize` with aggregates.
pub fn grouped<N: Names>(
    alloc: Global,
    scope: &Scope<N>,
    flow: Flow,
    first: &Aggregate,
    others: &[Aggregate],
    keys: &Option<Box<Grouping>>,
) -> Result<Flow, BindFault>
    ensures { let given = aggregate_view first.now ∷ map aggregate_view others.now in
        let items = the.grouping_items (option_map (λ b. grouping_view b.value) keys.now) in
        AnswersVerdict flow_of (the.grouped (scoping_of N.known scope.now) (flow_of flow) given items) result }
{
    let made = keys_made(alloc, scope, &flow, keys)?;
    let seen = expression_scope(scope);
    let gathered = aggregates_made(alloc, &seen, columns(&flow), made.fields, first, others)?;
    summarized_by(flow, made.exprs, gathered)
}

/// `summarize` by keys alone.
pub fn grouped_by<N: Names>(
    alloc: Global,
    scope: &Scope<N>,
    flow: Flow,
    keys: &Grouping,
) -> Result<Flow, BindFault>
    ensures { let g = grouping_view keys.now in
        AnswersVerdict flow_of (the.grouped (scoping_of N.known scope.now) (flow_of flow) [] (g.0 ∷ g.1)) result }
{
    let seen = expression_scope(scope);
    let made = all_made(
        alloc,
        &seen,
        columns(&flow),
        &[],
        true,
        &keys.first,
        &keys.others,
    )?;
    summarized_by(flow, made.exprs, no_aggregate(alloc, made.fields))
}
