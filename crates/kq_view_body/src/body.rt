// The form of a view's body.
ghost use Rattle.std.specs.Prelude.{◌≡◌, [], true, false, map};
ghost use Rattle.kq_view_body.specs.Bodies.{JudgesBody};
ghost use Rattle.kq_view_body.specs.Parts as the;
ghost use Rattle.kq_view_body.specs.Faults.{body_fault, steps_fault};
ghost use Rattle.kq_read_grammar.specs.TabularViews.{tabular_of, source_of, operator_of, operators_of, body_of, right_of, let_of, query_of};
ghost use Rattle.kq_read_grammar.specs.Views.{tree_of};

use crate::fault::BodyFault;
use crate::moments::{moment_in, moment_in_body};
use crate::said::{say_the_same, says};
use kq_read_grammar::{
    Expression, Let, LetRight, Name, Operator, OperatorBody, Query, Source, Tabular,
};
use kq_read_meanings::name_place;

// ---- lets

fn bare_name(tree: &Expression) -> Option<Name>
    ensures { result ≡ the.bare_name (tree_of tree.now) }
{
    match tree {
        Expression::Name(name) => Some(*name),
        Expression::Group(_, inner) => bare_name(inner),
        _ => None,
    }
}

fn is_named(text: &str, lets: &[Let], name: Name) -> bool
    ensures { result ≡ the.names_let text.now (map let_of lets.now) (Some name) }
{
    for one in lets {
        if say_the_same(text, one.name, name) {
            return true;
        }
    }
    false
}

fn names_let(text: &str, lets: &[Let], tree: &Expression) -> bool
    ensures { result ≡ the.names_let text.now (map let_of lets.now) (the.bare_name (tree_of tree.now)) }
{
    match bare_name(tree) {
        Some(name) => is_named(text, lets, name),
        None => false,
    }
}

fn source_place(source: &Source) -> usize
    ensures { result ≡ the.source_place (source_of source.now) }
{
    match source {
        Source::Table(name) => name_place(*name),
        Source::Nested(paren, _) => paren.from,
        Source::Worded(word, _) => word.from,
    }
}

pub(crate) fn pipe_place(tree: &Tabular) -> usize
    ensures { result ≡ the.pipe_place (tabular_of tree.now) }
{
    source_place(&tree.source)
}

fn right_place(text: &str, before: &[Let], right: &LetRight) -> Option<usize>
    ensures { result ≡ the.right_place text.now (map let_of before.now) (right_of right.now) }
{
    match right {
        LetRight::Scalar(tree) => moment_in(text, tree),
        LetRight::Tabular(tree) => Some(pipe_place(tree)),
        LetRight::Either(scalar, tabular) => {
            if names_let(text, before, scalar) {
                None
            } else {
                Some(pipe_place(tabular))
            }
        }
    }
}

fn lets_place(text: &str, lets: &[Let]) -> Option<usize>
    ensures { result ≡ the.lets_place text.now [] (map let_of lets.now) }
{
    for (i, one) in lets.iter().enumerate() {
        if let Some(place) = right_place(text, &lets[..i], &one.right) {
            return Some(place);
        }
    }
    None
}

// ---- a pipe

// What an operator may be in a view's body.
#[derive(Clone, Copy, PartialEq, Eq)]
pub(crate) enum Role {
    Row,
    Summarize,
    // None that a body has.
    Foreign,
}

fn role_of(body: &OperatorBody) -> Role
    ensures { result ≡ the.role_of (body_of body.now) }
{
    match body {
        OperatorBody::Where(_) => Role::Row,
        OperatorBody::Extend(_, _) => Role::Row,
        OperatorBody::Project(_, _) => Role::Row,
        OperatorBody::ProjectAway(_, _) => Role::Row,
        OperatorBody::ProjectRename(_, _) => Role::Row,
        OperatorBody::Summarize(_, _, _) => Role::Summarize,
        OperatorBody::SummarizeBy(_) => Role::Summarize,
        _ => Role::Foreign,
    }
}

// The fault of the operators of a body that begins at `first`.
fn steps_fault(text: &str, first: usize, operators: &[Operator]) -> Option<usize>
    ensures { result ≡ steps_fault false first (the.operator_parts text.now (operators_of (map operator_of operators.now))) }
{
    let mut summarized = false;
    for operator in operators {
        if summarized {
            return Some(operator.word.from);
        }
        match role_of(&operator.body) {
            Role::Row => {}
            Role::Summarize => summarized = true,
            Role::Foreign => return Some(operator.word.from),
        }
        if let Some(place) = moment_in_body(text, &operator.body) {
            return Some(place);
        }
    }
    if summarized { None } else { Some(first) }
}

fn is_table(text: &str, name: &str, source: &Source) -> bool
    ensures { result ≡ the.is_table text.now name.now (source_of source.now) }
{
    match source {
        Source::Table(found) => says(text, *found, name),
        Source::Nested(_, _) => false,
        Source::Worded(_, _) => false,
    }
}

fn pipe_fault(text: &str, name: &str, tree: &Tabular) -> Option<usize>
    ensures { result ≡ body_fault (the.pipe_parts text.now name.now true (tabular_of tree.now)) }
{
    let first = source_place(&tree.source);
    if is_table(text, name, &tree.source) {
        steps_fault(text, first, &tree.operators)
    } else {
        Some(first)
    }
}

fn fault(text: &str, query: &Query, name: &str) -> Option<usize>
    ensures { result ≡ body_fault (the.query_parts text.now name.now (query_of query.now)) }
{
    match lets_place(text, &query.lets) {
        Some(place) => Some(place),
        None => {
            if query.lets.is_empty() {
                pipe_fault(text, name, &query.tabular)
            } else {
                Some(pipe_place(&query.tabular))
            }
        }
    }
}

/// Whether a query has the form of a body of a view over the table of this name, which is compared byte by byte. Takes no memory.
pub fn check_body(text: &str, query: &Query, source: &str) -> Result<(), BodyFault>
    ensures { JudgesBody (the.query_parts text.now source.now (query_of query.now)) result }
{
    match fault(text, query, source) {
        Some(at) => Err(BodyFault::BadView { at }),
        None => Ok(()),
    }
}
