// What names stand for in a query.
ghost use Rattle.std.specs.Prelude.{◌≡◌, map};
ghost use Rattle.std.specs.Option.{option_map};
ghost use Rattle.kq_bind_operators.specs.Scopes.{leaf_kind as the_leaf_kind, leaf_of as the_leaf_of, named_rows as the_named_rows, source_named as the_source_named, part_of as the_part_of, part_named as the_part_named, tabling_named as the_tabling_named, names as the_names};
ghost use Rattle.kq_bind_operators.specs.Seen.{flow_of, progress_of, tabling_of, scoping_of};
ghost use Rattle.kq_bind_expressions.specs.Names.{names_of};
ghost use Rattle.kq_bind_expressions.specs.Verdicts.{AnswersVerdict};
ghost use Rattle.kq_plan.specs.Names.{known_of};

use crate::flow::{Flow, Progress, again, copied, following};
use kq_bind_columns::is_taken;
use kq_bind_expressions::BindFault;
use kq_plan::{LeafKind, NameKind, Names, Work};
use kq_read_grammar::Name;
use kq_read_meanings::{name_place, name_text, piece, string_text};
use kq_read_symbols::Symbol;
use kq_value::{Field, Schema, Text};
use std::alloc::Global;

/// A tabular let: its name, and the step whose rows it is.
#[derive(Drop)]
pub struct TabularLet {
    pub name: Text,
    pub input: usize,
}

/// A query's text, the lets of both kinds so far, and the names of the catalogue.
#[derive(Drop)]
pub struct Scope<'a, N> {
    pub text: &'a str,
    pub lets: &'a [Field],
    pub tables: &'a [TabularLet],
    pub names: &'a N,
}

// What expressions see of it.
pub(crate) fn expression_scope<'a, N: Names>(scope: &Scope<'a, N>) -> kq_bind_expressions::Scope<'a>
    ensures { names_of result ≡ the_names (scoping_of N.known scope.now) }
{
    kq_bind_expressions::Scope {
        text: scope.text,
        lets: scope.lets,
    }
}

pub fn tabular_let(tables: &[TabularLet], name: &str) -> Option<usize>
    ensures { result ≡ the_tabling_named (map tabling_of tables.now) name.now }
{
    for table in tables {
        if table.name.as_str() == name {
            return Some(table.input);
        }
    }
    None
}

fn leaf_kind(kind: NameKind) -> LeafKind
    ensures { result ≡ the_leaf_kind kind }
{
    match kind {
        NameKind::Table => LeafKind::Table,
        NameKind::View => LeafKind::View,
    }
}

fn leaf(
    alloc: Global,
    at: usize,
    progress: Progress,
    name: Text,
    found: Option<(NameKind, &Schema)>,
) -> Result<Flow, BindFault>
    ensures { AnswersVerdict flow_of (the_leaf_of at (progress_of progress) name (option_map known_of found.entry)) result }
{
    match found {
        Some((kind, schema)) => {
            let columns = copied(alloc, schema.as_slice())?;
            following(progress, Work::Leaf(leaf_kind(kind), name), columns)
        }
        None => Err(BindFault::Unknown { at }),
    }
}

/// The rows that a name stands for: those of a tabular let, or else of the catalogue, where no scalar let hides it.
pub fn source_named<N: Names>(
    alloc: Global,
    scope: &Scope<N>,
    progress: Progress,
    name: Name,
) -> Result<Flow, BindFault>
    ensures { AnswersVerdict flow_of (the_source_named (scoping_of N.known scope.now) (progress_of progress) name) result }
{
    let at = name_place(name);
    let name = name_text(alloc, scope.text, name)?;
    match tabular_let(scope.tables, name.as_str()) {
        Some(input) => again(progress, input),
        None => {
            if is_taken(scope.lets, name.as_str()) {
                Err(BindFault::Unknown { at })
            } else {
                let found = scope.names.find(&name);
                leaf(alloc, at, progress, name, found)
            }
        }
    }
}

fn part(
    alloc: Global,
    at: usize,
    progress: Progress,
    name: Text,
    found: Option<(NameKind, &Schema)>,
) -> Result<Flow, BindFault>
    ensures { AnswersVerdict flow_of (the_part_of at (progress_of progress) name (option_map known_of found.entry)) result }
{
    match found {
        Some((NameKind::View, schema)) => {
            let columns = copied(alloc, schema.as_slice())?;
            following(progress, Work::Leaf(LeafKind::Part, name), columns)
        }
        Some((NameKind::Table, _)) => Err(BindFault::Unknown { at }),
        None => Err(BindFault::Unknown { at }),
    }
}

/// The materialized rows of the view that a string names; nothing hides it.
pub fn part_named<N: Names>(
    alloc: Global,
    scope: &Scope<N>,
    progress: Progress,
    string: Symbol,
) -> Result<Flow, BindFault>
    ensures { AnswersVerdict flow_of (the_part_named (scoping_of N.known scope.now) (progress_of progress) string) result }
{
    let name = string_text(alloc, piece(scope.text, string))?;
    let found = scope.names.find(&name);
    part(alloc, string.from, progress, name, found)
}
