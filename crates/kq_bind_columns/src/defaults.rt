// The names that expressions have of themselves.
ghost use Rattle.std.specs.Prelude.{◌≡◌, IfOk, map};
ghost use Rattle.kq_bind_columns.specs.Defaults.{if_column as the_if_column, column_of as the_column_of, path_name as the_path_name, name_kept as the_name_kept, default_name as the_default_name, keeps_column as the_keeps_column, keeps_path as the_keeps_path, joined_names as the_joined_names};
ghost use Rattle.kq_read_grammar.specs.Trees.{path, member};
ghost use Rattle.kq_read_grammar.specs.Views.{tree_of, step_of, steps_of};
ghost use Rattle.kq_bind_expressions.specs.kq_read_meanings.Names.{name_said};

use crate::naming::is_taken;
use kq_bind_expressions::{Function, find, name_text, piece};
use kq_read_grammar::{Expression, Name, Step, Symbol};
use kq_value::{Field, Memory, Text};
use std::alloc::Global;

// What the name says, where a column has it.
fn if_column(
    alloc: Global,
    text: &str,
    columns: &[Field],
    name: Name,
) -> Result<Option<Text>, Memory>
    ensures { IfOk result (λ o. o ≡ the_if_column columns.now (name_said text.now name)) }
{
    let said = name_text(alloc, text, name)?;
    if is_taken(columns, said.as_str()) {
        Ok(Some(said))
    } else {
        Ok(None)
    }
}

/// The name of the column that an expression is, also in parentheses.
pub fn column_of(
    alloc: Global,
    text: &str,
    columns: &[Field],
    tree: &Expression,
) -> Result<Option<Text>, Memory>
    ensures { IfOk result (λ o. o ≡ the_column_of text.now columns.now (tree_of tree.now)) }
{
    match tree {
        Expression::Name(name) => if_column(alloc, text, columns, *name),
        Expression::Group(_, inner) => column_of(alloc, text, columns, inner),
        _ => Ok(None),
    }
}

fn joined_names(
    alloc: Global,
    text: &str,
    column: Option<Text>,
    member: Name,
) -> Result<Option<Text>, Memory>
    ensures { IfOk result (λ o. o ≡ the_joined_names column (name_said text.now member)) }
{
    match column {
        None => Ok(None),
        Some(column) => {
            let member = name_text(alloc, text, member)?;
            let mut name = String::from_str(alloc, column.as_str())?;
            name.push_str("_")?;
            name.push_str(member.as_str())?;
            Ok(Some(Text::from_string(alloc, name)?))
        }
    }
}

// The column and the member, where no step follows.
fn member_name(
    alloc: Global,
    text: &str,
    columns: &[Field],
    first: &Expression,
    dot: Symbol,
    name: Name,
    others: &[Step],
) -> Result<Option<Text>, Memory>
    ensures { IfOk result (λ o. o ≡ the_path_name text.now columns.now (path (tree_of first.now) (member dot name) (steps_of (map step_of others.now)))) }
{
    match others {
        [] => {
            let column = column_of(alloc, text, columns, first)?;
            joined_names(alloc, text, column, name)
        }
        [_, ..] => Ok(None),
    }
}

fn steps_name(
    alloc: Global,
    text: &str,
    columns: &[Field],
    first: &Expression,
    step: &Step,
    others: &[Step],
) -> Result<Option<Text>, Memory>
    ensures { IfOk result (λ o. o ≡ the_path_name text.now columns.now (path (tree_of first.now) (step_of step.now) (steps_of (map step_of others.now)))) }
{
    match step {
        Step::Index(_, _) => Ok(None),
        Step::Member(dot, name) => member_name(alloc, text, columns, first, *dot, *name, others),
    }
}

// The column that an expression is, or the column and its member.
fn path_name(
    alloc: Global,
    text: &str,
    columns: &[Field],
    tree: &Expression,
) -> Result<Option<Text>, Memory>
    ensures { IfOk result (λ o. o ≡ the_path_name text.now columns.now (tree_of tree.now)) }
{
    match tree {
        Expression::Name(name) => if_column(alloc, text, columns, *name),
        Expression::Group(_, inner) => path_name(alloc, text, columns, inner),
        Expression::Path(first, step, others) => {
            steps_name(alloc, text, columns, first, step, others)
        }
        _ => Ok(None),
    }
}

fn keeps_column(function: Function) -> bool
    ensures { result ≡ the_keeps_column function }
{
    matches!(
        function,
        Function::Bin
            | Function::StartOfDay
            | Function::StartOfWeek
            | Function::StartOfMonth
            | Function::StartOfYear
    )
}

fn keeps_path(function: Function) -> bool
    ensures { result ≡ the_keeps_path function }
{
    matches!(
        function,
        Function::ToText
            | Function::ToLong
            | Function::ToInt
            | Function::ToBool
            | Function::ToMoment
            | Function::ToSpan
    )
}

// The name that a call of this function has by its first argument.
fn name_kept(
    alloc: Global,
    text: &str,
    columns: &[Field],
    tree: &Expression,
    function: Option<Function>,
) -> Result<Option<Text>, Memory>
    ensures { IfOk result (λ o. o ≡ the_name_kept text.now columns.now (tree_of tree.now) function) }
{
    let Some(function) = function else {
        return Ok(None);
    };
    if keeps_column(function) {
        return column_of(alloc, text, columns, tree);
    }
    if keeps_path(function) {
        return path_name(alloc, text, columns, tree);
    }
    Ok(None)
}

/// The name that an expression has of itself: that of the column that it is; of a column's member, both joined by `_`; and of a call that leaves a
/// name, as `bin` and `tolong`, its first argument's. Parentheses change nothing.
pub fn default_name(
    alloc: Global,
    text: &str,
    columns: &[Field],
    tree: &Expression,
) -> Result<Option<Text>, Memory>
    ensures { IfOk result (λ o. o ≡ the_default_name text.now columns.now (tree_of tree.now)) }
{
    match tree {
        Expression::Name(name) => if_column(alloc, text, columns, *name),
        Expression::Group(_, inner) => default_name(alloc, text, columns, inner),
        Expression::Path(first, step, others) => {
            steps_name(alloc, text, columns, first, step, others)
        }
        Expression::Call(word, arguments) => match arguments.as_slice() {
            [] => Ok(None),
            [first, ..] => name_kept(alloc, text, columns, first, find(piece(text, *word))),
        },
        _ => Ok(None),
    }
}
