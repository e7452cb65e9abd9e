// Literals that aren't supported.
ghost use Rattle.std.specs.Prelude.{◌≡◌, map};
ghost use Rattle.kq_bind_expressions.specs.Unsupported.{unsupported_in, unsupported_among, unsupported_links, unsupported_step, unsupported_steps, or_later, valueless as the_valueless};
ghost use Rattle.kq_read_grammar.specs.Views.{tree_of, trees_of, link_of, links_of, interval_of, step_of, steps_of};

use kq_read_grammar::{Expression, Interval, Link, Step};
use kq_read_meanings::has_value;
use kq_read_symbols::Symbol;

/// The place of the leftmost literal of the tree that isn't supported. Takes no memory.
#[cycle(unsupported)]
pub fn unsupported(text: &str, tree: &Expression) -> Option<usize>
    ensures { result ≡ unsupported_in text.now (tree_of tree.now) }
{
    match tree {
        Expression::Name(_) => None,
        Expression::Literal(symbol) => valueless(text, *symbol),
        Expression::Group(_, inner) => unsupported(text, inner),
        Expression::Call(_, args) => among(text, args),
        Expression::Path(first, step, steps) => match unsupported(text, first) {
            Some(place) => Some(place),
            None => match in_step(text, step) {
                Some(place) => Some(place),
                None => in_steps(text, steps),
            },
        },
        Expression::Signed(_, operand) => unsupported(text, operand),
        Expression::Compare(left, right) => match unsupported(text, left) {
            Some(place) => Some(place),
            None => in_link(text, right),
        },
        Expression::Within(left, first, others) => match unsupported(text, left) {
            Some(place) => Some(place),
            None => match in_link(text, first) {
                Some(place) => Some(place),
                None => among(text, others),
            },
        },
        Expression::Between(operand, ends) => match unsupported(text, operand) {
            Some(place) => Some(place),
            None => in_interval(text, ends),
        },
        Expression::Chain(_, first, link, links) => match unsupported(text, first) {
            Some(place) => Some(place),
            None => match in_link(text, link) {
                Some(place) => Some(place),
                None => in_links(text, links),
            },
        },
    }
}

#[cycle(unsupported)]
fn among(text: &str, trees: &Vec<Expression>) -> Option<usize>
    ensures { result ≡ unsupported_among text.now (trees_of (map tree_of trees.now.items)) }
{
    for tree in trees {
        if let Some(place) = unsupported(text, tree) {
            return Some(place);
        }
    }
    None
}

#[cycle(unsupported)]
fn in_interval(text: &str, ends: &Interval) -> Option<usize>
    ensures { let e = interval_of ends.now in
        result ≡ or_later (unsupported_in text.now e.low) (unsupported_in text.now e.high) }
{
    match unsupported(text, &ends.low) {
        Some(place) => Some(place),
        None => unsupported(text, &ends.high),
    }
}

#[cycle(unsupported)]
fn in_link(text: &str, link: &Link) -> Option<usize>
    ensures { result ≡ unsupported_in text.now (link_of link.now).1 }
{
    unsupported(text, &link.operand)
}

#[cycle(unsupported)]
fn in_links(text: &str, links: &Vec<Link>) -> Option<usize>
    ensures { result ≡ unsupported_links text.now (links_of (map link_of links.now.items)) }
{
    for link in links {
        if let Some(place) = in_link(text, link) {
            return Some(place);
        }
    }
    None
}

#[cycle(unsupported)]
fn in_step(text: &str, step: &Step) -> Option<usize>
    ensures { result ≡ unsupported_step text.now (step_of step.now) }
{
    match step {
        Step::Member(_, _) => None,
        Step::Index(_, index) => unsupported(text, index),
    }
}

#[cycle(unsupported)]
fn in_steps(text: &str, steps: &Vec<Step>) -> Option<usize>
    ensures { result ≡ unsupported_steps text.now (steps_of (map step_of steps.now.items)) }
{
    for step in steps {
        if let Some(place) = in_step(text, step) {
            return Some(place);
        }
    }
    None
}

/// The place of the literal, where it isn't supported. Takes no memory.
pub fn valueless(text: &str, symbol: Symbol) -> Option<usize>
    ensures { result ≡ the_valueless text.now symbol }
{
    if has_value(text, symbol) {
        None
    } else {
        Some(symbol.from)
    }
}
