// What isn't supported in a query.
ghost use Rattle.std.specs.Prelude.{◌≡◌, ◌∷◌, [], map};
ghost use Rattle.std.specs.Option.{option_map};
ghost use Rattle.kq_bind_supported.specs.Unsupported as the;
ghost use Rattle.kq_bind_aggregates.specs.Unsupported.{unsupported_aggregates as aggregates_in};
ghost use Rattle.kq_bind_clauses.specs.Tables.{unsupported_columns, unsupported_cells};
ghost use Rattle.kq_bind_clauses.specs.kq_bind_columns.Items.{unsupported_items};
ghost use Rattle.kq_bind_clauses.specs.kq_bind_expressions.Unsupported.{or_later};
ghost use Rattle.kq_read_grammar.specs.TabularViews.{tabular_of, source_of, from_of, union_of, arm_of, arms_of, operator_of, operators_of, body_of, join_of, right_of, let_of, query_of};
ghost use Rattle.kq_read_grammar.specs.Views.{tree_of, item_view, aggregate_view, grouping_view};

use kq_bind_aggregates::{unsupported_aggregate, unsupported_aggregates};
use kq_bind_clauses::{
    typeless, unsupported, unsupported_cells as cells_unsupported,
    unsupported_columns as columns_unsupported, unsupported_item,
    unsupported_items as items_unsupported, unsupported_keys, valueless,
};
use kq_read_grammar::{
    Aggregate, Arm, Cell, Column, Expression, Grouping, Item, Join, Let, LetRight, Operator,
    OperatorBody, Query, Source, SourceBody, Tabular, Union,
};
use kq_read_symbols::Symbol;

fn in_range(text: &str, first: &Expression, last: &Expression, step: &Expression) -> Option<usize>
    ensures { result ≡ the.unsupported_range text.now (tree_of first.now) (tree_of last.now) (tree_of step.now) }
{
    match unsupported(text, first) {
        Some(place) => Some(place),
        None => match unsupported(text, last) {
            Some(place) => Some(place),
            None => unsupported(text, step),
        },
    }
}

fn in_items(text: &str, first: &Item, others: &[Item]) -> Option<usize>
    ensures { result ≡ unsupported_items text.now (item_view first.now ∷ map item_view others.now) }
{
    match unsupported_item(text, first) {
        Some(place) => Some(place),
        None => items_unsupported(text, others),
    }
}

fn in_aggregates(text: &str, first: &Aggregate, others: &[Aggregate]) -> Option<usize>
    ensures { result ≡ aggregates_in text.now (aggregate_view first.now ∷ map aggregate_view others.now) }
{
    match unsupported_aggregate(text, first) {
        Some(place) => Some(place),
        None => unsupported_aggregates(text, others),
    }
}

fn in_grouping(text: &str, keys: &Option<Box<Grouping>>) -> Option<usize>
    ensures { result ≡ the.unsupported_grouping text.now (option_map (λ b. grouping_view b.value) keys.now) }
{
    match keys {
        None => None,
        Some(keys) => in_items(text, &keys.first, &keys.others),
    }
}

fn in_word(text: &str, word: Option<Symbol>) -> Option<usize>
    ensures { result ≡ the.unsupported_word text.now word }
{
    match word {
        None => None,
        Some(word) => typeless(text, word),
    }
}

fn in_table(text: &str, first: Column, others: &[Column], cells: &[Cell]) -> Option<usize>
    ensures { result ≡ or_later (unsupported_columns text.now (first ∷ others.now)) (unsupported_cells text.now cells.now) }
{
    match columns_unsupported(text, first, others) {
        Some(place) => Some(place),
        None => cells_unsupported(text, cells),
    }
}

#[cycle(unsupported)]
fn in_tabular(text: &str, tree: &Tabular) -> Option<usize>
    ensures { result ≡ the.unsupported_tabular text.now (tabular_of tree.now) }
{
    match in_source(text, &tree.source) {
        Some(place) => Some(place),
        None => in_operators(text, &tree.operators),
    }
}

#[cycle(unsupported)]
fn in_source(text: &str, source: &Source) -> Option<usize>
    ensures { result ≡ the.unsupported_source text.now (source_of source.now) }
{
    match source {
        Source::Table(_) => None,
        Source::Nested(_, inner) => in_tabular(text, inner),
        Source::Worded(_, body) => in_source_body(text, body),
    }
}

#[cycle(unsupported)]
fn in_source_body(text: &str, body: &SourceBody) -> Option<usize>
    ensures { result ≡ the.unsupported_from text.now (from_of body.now) }
{
    match body {
        SourceBody::View(_) => None,
        SourceBody::Print(first, others) => in_items(text, first, others),
        SourceBody::Range {
            name: _,
            from,
            to,
            step,
        } => in_range(text, from, to, step),
        SourceBody::Datatable {
            first,
            others,
            cells,
        } => in_table(text, *first, others, cells),
        SourceBody::Union(arms) => in_union(text, arms),
    }
}

#[cycle(unsupported)]
fn in_union(text: &str, arms: &Union) -> Option<usize>
    ensures { result ≡ the.unsupported_union text.now (union_of arms.now) }
{
    match in_arm(text, &arms.first) {
        Some(place) => Some(place),
        None => in_arms(text, &arms.others),
    }
}

#[cycle(unsupported)]
fn in_arms(text: &str, arms: &Vec<Arm>) -> Option<usize>
    ensures { result ≡ the.unsupported_arms text.now (arms_of (map arm_of arms.now.items)) }
{
    for arm in arms {
        if let Some(place) = in_arm(text, arm) {
            return Some(place);
        }
    }
    None
}

#[cycle(unsupported)]
fn in_arm(text: &str, arm: &Arm) -> Option<usize>
    ensures { result ≡ the.unsupported_arm text.now (arm_of arm.now) }
{
    match arm {
        Arm::Named(_) => None,
        Arm::Grouped(_, inner) => in_tabular(text, inner),
    }
}

#[cycle(unsupported)]
fn in_operators(text: &str, operators: &Vec<Operator>) -> Option<usize>
    ensures { result ≡ the.unsupported_operators text.now (operators_of (map operator_of operators.now.items)) }
{
    for operator in operators {
        if let Some(place) = in_operator(text, operator) {
            return Some(place);
        }
    }
    None
}

#[cycle(unsupported)]
fn in_operator(text: &str, operator: &Operator) -> Option<usize>
    ensures { result ≡ the.unsupported_body text.now (operator_of operator.now).1 }
{
    in_body(text, &operator.body)
}

#[cycle(unsupported)]
fn in_body(text: &str, body: &OperatorBody) -> Option<usize>
    ensures { result ≡ the.unsupported_body text.now (body_of body.now) }
{
    match body {
        OperatorBody::Where(tree) => unsupported(text, tree),
        OperatorBody::Extend(first, others) => in_items(text, first, others),
        OperatorBody::Project(first, others) => in_items(text, first, others),
        OperatorBody::Take(number) => valueless(text, *number),
        OperatorBody::Sort(first, others) => unsupported_keys(text, first, others),
        OperatorBody::Top(number, key) => match valueless(text, *number) {
            Some(place) => Some(place),
            None => unsupported_keys(text, key, &[]),
        },
        OperatorBody::Summarize(first, others, keys) => {
            match in_aggregates(text, first, others) {
                Some(place) => Some(place),
                None => in_grouping(text, keys),
            }
        }
        OperatorBody::SummarizeBy(keys) => in_items(text, &keys.first, &keys.others),
        OperatorBody::Join(join) => in_join(text, join),
        OperatorBody::Unite(arms) => in_union(text, arms),
        OperatorBody::MvExpand(item, word) => match unsupported_item(text, item) {
            Some(place) => Some(place),
            None => in_word(text, *word),
        },
        OperatorBody::ProjectAway(_, _) => None,
        OperatorBody::ProjectRename(_, _) => None,
        OperatorBody::Count => None,
        OperatorBody::Distinct(_, _) => None,
        OperatorBody::DistinctAll(_) => None,
    }
}

#[cycle(unsupported)]
fn in_join(text: &str, join: &Join) -> Option<usize>
    ensures { result ≡ the.unsupported_body text.now (join_of join.now) }
{
    in_tabular(text, &join.right)
}

// ---- lets and queries

fn in_right(text: &str, right: &LetRight) -> Option<usize>
    ensures { result ≡ the.unsupported_right text.now (right_of right.now) }
{
    match right {
        LetRight::Scalar(tree) => unsupported(text, tree),
        LetRight::Tabular(tree) => in_tabular(text, tree),
        LetRight::Either(_, tree) => in_tabular(text, tree),
    }
}

fn in_lets(text: &str, lets: &[Let]) -> Option<usize>
    ensures { result ≡ the.unsupported_lets text.now (map let_of lets.now) }
{
    for one in lets {
        if let Some(place) = in_right(text, &one.right) {
            return Some(place);
        }
    }
    None
}

/// The place of the leftmost literal or word of a type in a query that isn't supported. Takes no memory.
pub fn unsupported_in_query(text: &str, query: &Query) -> Option<usize>
    ensures { result ≡ the.unsupported_query text.now (query_of query.now) }
{
    match in_lets(text, &query.lets) {
        Some(place) => Some(place),
        None => in_tabular(text, &query.tabular),
    }
}
