// Where the body of an export reads something else than its table.
ghost use Rattle.std.specs.Prelude.{◌≡◌, ◌∷◌, map};
ghost use Rattle.std.specs.Option.{option_map};
ghost use Rattle.kq_view_body.specs.Exports as the;
ghost use Rattle.kq_view_body.specs.Moments.{moment_in_aggregates, moment_in_grouping};
ghost use Rattle.kq_view_body.specs.Moments as moments;
ghost use Rattle.kq_read_grammar.specs.TabularViews.{tabular_of, source_of, from_of, union_of, arm_of, arms_of, operator_of, operators_of, body_of, join_of, query_of};
ghost use Rattle.kq_read_grammar.specs.Views.{tree_of, key_view, aggregate_view, grouping_view};

use crate::body::pipe_place;
use crate::moments::{in_aggregates, in_grouping, in_item, in_items, moment_in};
use crate::said::says;
use kq_read_grammar::{
    Aggregate, Arm, Expression, Grouping, Join, Key, Name, Operator, OperatorBody, Query, Source,
    SourceBody, Tabular, Union,
};
use kq_read_meanings::name_place;

fn other_name(text: &str, table: &str, name: Name) -> Option<usize>
    ensures { result ≡ the.other_name text.now table.now name }
{
    if says(text, name, table) {
        None
    } else {
        Some(name_place(name))
    }
}

fn in_range(text: &str, from: &Expression, to: &Expression, step: &Expression) -> Option<usize>
    ensures { result ≡ moments.or_later (moments.moment_in text.now (tree_of from.now)) (moments.or_later (moments.moment_in text.now (tree_of to.now)) (moments.moment_in text.now (tree_of step.now))) }
{
    match moment_in(text, from) {
        Some(place) => Some(place),
        None => match moment_in(text, to) {
            Some(place) => Some(place),
            None => moment_in(text, step),
        },
    }
}

fn in_keys(text: &str, first: &Key, others: &[Key]) -> Option<usize>
    ensures { result ≡ the.moment_in_keys text.now (key_view first.now ∷ map key_view others.now) }
{
    if let Some(place) = moment_in(text, &first.value) {
        return Some(place);
    }
    for key in others {
        if let Some(place) = moment_in(text, &key.value) {
            return Some(place);
        }
    }
    None
}

fn in_groups(
    text: &str,
    first: &Aggregate,
    others: &[Aggregate],
    keys: &Option<Box<Grouping>>,
) -> Option<usize>
    ensures { result ≡ moments.or_later (moment_in_aggregates text.now (aggregate_view first.now ∷ map aggregate_view others.now)) (moment_in_grouping text.now (option_map (λ b. grouping_view b.value) keys.now)) }
{
    match in_aggregates(text, first, others) {
        Some(place) => Some(place),
        None => in_grouping(text, keys),
    }
}

#[cycle(foreign)]
fn in_tabular(text: &str, table: &str, tree: &Tabular) -> Option<usize>
    ensures { result ≡ the.foreign_tabular text.now table.now (tabular_of tree.now) }
{
    match in_source(text, table, &tree.source) {
        Some(place) => Some(place),
        None => in_operators(text, table, &tree.operators),
    }
}

#[cycle(foreign)]
fn in_source(text: &str, table: &str, source: &Source) -> Option<usize>
    ensures { result ≡ the.foreign_source text.now table.now (source_of source.now) }
{
    match source {
        Source::Table(name) => other_name(text, table, *name),
        Source::Nested(_, inner) => in_tabular(text, table, inner),
        Source::Worded(word, body) => in_source_body(text, table, word.from, body),
    }
}

#[cycle(foreign)]
fn in_source_body(text: &str, table: &str, at: usize, body: &SourceBody) -> Option<usize>
    ensures { result ≡ the.foreign_from text.now table.now at (from_of body.now) }
{
    match body {
        SourceBody::View(_) => Some(at),
        SourceBody::Print(first, others) => in_items(text, first, others),
        SourceBody::Range {
            name: _,
            from,
            to,
            step,
        } => in_range(text, from, to, step),
        SourceBody::Datatable {
            first: _,
            others: _,
            cells: _,
        } => None,
        SourceBody::Union(arms) => in_union(text, table, arms),
    }
}

#[cycle(foreign)]
fn in_union(text: &str, table: &str, arms: &Union) -> Option<usize>
    ensures { result ≡ the.foreign_union text.now table.now (union_of arms.now) }
{
    match in_arm(text, table, &arms.first) {
        Some(place) => Some(place),
        None => in_arms(text, table, &arms.others),
    }
}

#[cycle(foreign)]
fn in_arms(text: &str, table: &str, arms: &Vec<Arm>) -> Option<usize>
    ensures { result ≡ the.foreign_arms text.now table.now (arms_of (map arm_of arms.now.items)) }
{
    for arm in arms {
        if let Some(place) = in_arm(text, table, arm) {
            return Some(place);
        }
    }
    None
}

#[cycle(foreign)]
fn in_arm(text: &str, table: &str, arm: &Arm) -> Option<usize>
    ensures { result ≡ the.foreign_arm text.now table.now (arm_of arm.now) }
{
    match arm {
        Arm::Named(name) => other_name(text, table, *name),
        Arm::Grouped(_, inner) => in_tabular(text, table, inner),
    }
}

#[cycle(foreign)]
fn in_operators(text: &str, table: &str, operators: &Vec<Operator>) -> Option<usize>
    ensures { result ≡ the.foreign_operators text.now table.now (operators_of (map operator_of operators.now.items)) }
{
    for operator in operators {
        if let Some(place) = in_operator(text, table, operator) {
            return Some(place);
        }
    }
    None
}

#[cycle(foreign)]
fn in_operator(text: &str, table: &str, operator: &Operator) -> Option<usize>
    ensures { result ≡ the.foreign_body text.now table.now (operator_of operator.now).1 }
{
    in_body(text, table, &operator.body)
}

#[cycle(foreign)]
fn in_body(text: &str, table: &str, body: &OperatorBody) -> Option<usize>
    ensures { result ≡ the.foreign_body text.now table.now (body_of body.now) }
{
    match body {
        OperatorBody::Where(tree) => moment_in(text, tree),
        OperatorBody::Extend(first, others) => in_items(text, first, others),
        OperatorBody::Project(first, others) => in_items(text, first, others),
        OperatorBody::Sort(first, others) => in_keys(text, first, others),
        OperatorBody::Top(_, key) => moment_in(text, &key.value),
        OperatorBody::Summarize(first, others, keys) => in_groups(text, first, others, keys),
        OperatorBody::SummarizeBy(keys) => in_items(text, &keys.first, &keys.others),
        OperatorBody::Join(join) => in_join(text, table, join),
        OperatorBody::Unite(arms) => in_union(text, table, arms),
        OperatorBody::MvExpand(item, _) => in_item(text, item),
        OperatorBody::ProjectAway(_, _) => None,
        OperatorBody::ProjectRename(_, _) => None,
        OperatorBody::Take(_) => None,
        OperatorBody::Count => None,
        OperatorBody::Distinct(_, _) => None,
        OperatorBody::DistinctAll(_) => None,
    }
}

#[cycle(foreign)]
fn in_join(text: &str, table: &str, join: &Join) -> Option<usize>
    ensures { result ≡ the.foreign_body text.now table.now (join_of join.now) }
{
    in_tabular(text, table, &join.right)
}

/// The place of the leftmost name in a query without lets that isn't the table's, of its leftmost word `materialized_view`, or of its leftmost call
/// of `now` or `ago`, whichever comes first; where it has none of these, of its first token. Takes no memory.
pub fn foreign_place(text: &str, query: &Query, table: &str) -> usize
    ensures { result ≡ the.foreign_place text.now table.now (query_of query.now) }
{
    match in_tabular(text, table, &query.tabular) {
        Some(place) => place,
        None => pipe_place(&query.tabular),
    }
}
