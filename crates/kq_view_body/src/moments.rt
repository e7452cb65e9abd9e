// Calls of now and ago.
ghost use Rattle.std.specs.Prelude.{◌≡◌, ◌∷◌, map};
ghost use Rattle.std.specs.Option.{option_map};
ghost use Rattle.kq_view_body.specs.Moments as the;
ghost use Rattle.kq_view_body.specs.Moments.{or_later};
ghost use Rattle.kq_read_grammar.specs.TabularViews.{body_of};
ghost use Rattle.kq_read_grammar.specs.Views.{tree_of, trees_of, link_of, links_of, interval_of, step_of, steps_of, item_view, argument_view, aggregate_view, grouping_view};

use kq_read_grammar::{
    Aggregate, Argument, Expression, Grouping, Interval, Item, Link, OperatorBody, Step,
};
use kq_read_meanings::piece;
use kq_read_symbols::Symbol;

// The place of the name of a function that asks for the moment of the command.
fn moment(text: &str, function: Symbol) -> Option<usize>
    ensures { result ≡ the.when (the.is_moment text.now function) function.from }
{
    let name = piece(text, function);
    if name == "now" || name == "ago" {
        Some(function.from)
    } else {
        None
    }
}

// The place of the leftmost call of `now` or `ago` in an expression.
#[cycle(moments)]
pub(crate) fn moment_in(text: &str, tree: &Expression) -> Option<usize>
    ensures { result ≡ the.moment_in text.now (tree_of tree.now) }
{
    match tree {
        Expression::Name(_) => None,
        Expression::Literal(_) => None,
        Expression::Group(_, inner) => moment_in(text, inner),
        Expression::Call(function, args) => match moment(text, *function) {
            Some(place) => Some(place),
            None => among(text, args),
        },
        Expression::Path(first, step, steps) => match moment_in(text, first) {
            Some(place) => Some(place),
            None => match at_step(text, step) {
                Some(place) => Some(place),
                None => at_steps(text, steps),
            },
        },
        Expression::Signed(_, operand) => moment_in(text, operand),
        Expression::Compare(left, right) => match moment_in(text, left) {
            Some(place) => Some(place),
            None => in_link(text, right),
        },
        Expression::Within(left, first, others) => match moment_in(text, left) {
            Some(place) => Some(place),
            None => match in_link(text, first) {
                Some(place) => Some(place),
                None => among(text, others),
            },
        },
        Expression::Between(operand, ends) => match moment_in(text, operand) {
            Some(place) => Some(place),
            None => in_interval(text, ends),
        },
        Expression::Chain(_, first, link, links) => match moment_in(text, first) {
            Some(place) => Some(place),
            None => match in_link(text, link) {
                Some(place) => Some(place),
                None => in_links(text, links),
            },
        },
    }
}

#[cycle(moments)]
fn among(text: &str, trees: &Vec<Expression>) -> Option<usize>
    ensures { result ≡ the.moment_among text.now (trees_of (map tree_of trees.now.items)) }
{
    for tree in trees {
        if let Some(place) = moment_in(text, tree) {
            return Some(place);
        }
    }
    None
}

#[cycle(moments)]
fn in_interval(text: &str, ends: &Interval) -> Option<usize>
    ensures { let e = interval_of ends.now in
        result ≡ or_later (the.moment_in text.now e.low) (the.moment_in text.now e.high) }
{
    match moment_in(text, &ends.low) {
        Some(place) => Some(place),
        None => moment_in(text, &ends.high),
    }
}

#[cycle(moments)]
fn in_link(text: &str, link: &Link) -> Option<usize>
    ensures { result ≡ the.moment_in text.now (link_of link.now).1 }
{
    moment_in(text, &link.operand)
}

#[cycle(moments)]
fn in_links(text: &str, links: &Vec<Link>) -> Option<usize>
    ensures { result ≡ the.moment_in_links text.now (links_of (map link_of links.now.items)) }
{
    for link in links {
        if let Some(place) = in_link(text, link) {
            return Some(place);
        }
    }
    None
}

#[cycle(moments)]
fn at_step(text: &str, step: &Step) -> Option<usize>
    ensures { result ≡ the.moment_at_step text.now (step_of step.now) }
{
    match step {
        Step::Member(_, _) => None,
        Step::Index(_, index) => moment_in(text, index),
    }
}

#[cycle(moments)]
fn at_steps(text: &str, steps: &Vec<Step>) -> Option<usize>
    ensures { result ≡ the.moment_at_steps text.now (steps_of (map step_of steps.now.items)) }
{
    for step in steps {
        if let Some(place) = at_step(text, step) {
            return Some(place);
        }
    }
    None
}

// ---- clauses

pub(crate) fn in_item(text: &str, item: &Item) -> Option<usize>
    ensures { result ≡ the.moment_in_item text.now (item_view item.now) }
{
    match item {
        Item::Plain(value) => moment_in(text, value),
        Item::Named(_, value) => moment_in(text, value),
    }
}

fn in_others(text: &str, items: &[Item]) -> Option<usize>
    ensures { result ≡ the.moment_in_items text.now (map item_view items.now) }
{
    for item in items {
        if let Some(place) = in_item(text, item) {
            return Some(place);
        }
    }
    None
}

pub(crate) fn in_items(text: &str, first: &Item, others: &[Item]) -> Option<usize>
    ensures { result ≡ the.moment_in_items text.now (item_view first.now ∷ map item_view others.now) }
{
    match in_item(text, first) {
        Some(place) => Some(place),
        None => in_others(text, others),
    }
}

fn in_argument(text: &str, argument: &Argument) -> Option<usize>
    ensures { result ≡ the.moment_in_argument text.now (argument_view argument.now) }
{
    match argument {
        Argument::Value(value) => moment_in(text, value),
        Argument::Star(_) => None,
    }
}

fn in_arguments(text: &str, arguments: &[Argument]) -> Option<usize>
    ensures { result ≡ the.moment_in_arguments text.now (map argument_view arguments.now) }
{
    for argument in arguments {
        if let Some(place) = in_argument(text, argument) {
            return Some(place);
        }
    }
    None
}

fn in_aggregate(text: &str, aggregate: &Aggregate) -> Option<usize>
    ensures { result ≡ the.moment_in_arguments text.now (aggregate_view aggregate.now).arguments }
{
    in_arguments(text, &aggregate.arguments)
}

fn in_more(text: &str, aggregates: &[Aggregate]) -> Option<usize>
    ensures { result ≡ the.moment_in_aggregates text.now (map aggregate_view aggregates.now) }
{
    for aggregate in aggregates {
        if let Some(place) = in_aggregate(text, aggregate) {
            return Some(place);
        }
    }
    None
}

pub(crate) fn in_aggregates(text: &str, first: &Aggregate, others: &[Aggregate]) -> Option<usize>
    ensures { result ≡ the.moment_in_aggregates text.now (aggregate_view first.now ∷ map aggregate_view others.now) }
{
    match in_aggregate(text, first) {
        Some(place) => Some(place),
        None => in_more(text, others),
    }
}

pub(crate) fn in_grouping(text: &str, keys: &Option<Box<Grouping>>) -> Option<usize>
    ensures { result ≡ the.moment_in_grouping text.now (option_map (λ b. grouping_view b.value) keys.now) }
{
    match keys {
        None => None,
        Some(keys) => in_items(text, &keys.first, &keys.others),
    }
}

// The place of the leftmost call of `now` or `ago` in an operator that a view's body may have.
pub(crate) fn moment_in_body(text: &str, body: &OperatorBody) -> Option<usize>
    ensures { result ≡ the.moment_in_body text.now (body_of body.now) }
{
    match body {
        OperatorBody::Where(tree) => moment_in(text, tree),
        OperatorBody::Extend(first, others) => in_items(text, first, others),
        OperatorBody::Project(first, others) => in_items(text, first, others),
        OperatorBody::Summarize(first, others, keys) => {
            match in_aggregates(text, first, others) {
                Some(place) => Some(place),
                None => in_grouping(text, keys),
            }
        }
        OperatorBody::SummarizeBy(keys) => in_items(text, &keys.first, &keys.others),
        _ => None,
    }
}
