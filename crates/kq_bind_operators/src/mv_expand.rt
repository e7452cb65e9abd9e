// `mv-expand`: the parts of a dynamic.
ghost use Rattle.std.specs.Prelude.{◌≡◌, IfOk, Ok, slice_set};
ghost use Rattle.kq_bind_operators.specs.Clauses as the;
ghost use Rattle.kq_bind_operators.specs.Seen.{flow_of, scoping_of};
ghost use Rattle.kq_bind_expressions.specs.Verdicts.{AnswersVerdict};
ghost use Rattle.kq_plan_expressions.specs.Terms.{typed_of};
ghost use Rattle.kq_read_grammar.specs.Views.{tree_of, item_view};

use crate::flow::{Flow, columns, copied, following};
use crate::scope::{Scope, expression_scope};
use kq_bind_clauses::word_type;
use kq_bind_columns::{column_of, default_name, first_token, free_name};
use kq_bind_expressions::{BindFault, bind_expression, first_named};
use kq_plan::{Names, Work};
use kq_plan_expressions::Typed;
use kq_read_grammar::{Expression, Item};
use kq_read_meanings::name_text;
use kq_read_symbols::Symbol;
use kq_value::{Field, Memory, Text, Ty};
use std::alloc::Global;

fn part_type<N: Names>(scope: &Scope<N>, word: Option<Symbol>) -> Result<Option<Ty>, BindFault>
    ensures { AnswersVerdict (λ t. t) (the.part_type (scoping_of N.known scope.now) word) result }
{
    match word {
        None => Ok(None),
        Some(word) => Ok(Some(word_type(scope.text, word)?)),
    }
}

fn or_dynamic(ty: Option<Ty>) -> Ty
    ensures { result ≡ the.or_dynamic ty }
{
    match ty {
        Some(ty) => ty,
        None => Ty::Dynamic,
    }
}

fn or_first_column(alloc: Global, name: Option<Text>) -> Result<Text, Memory>
    ensures { IfOk result (λ t. t ≡ the.or_first_column name) }
{
    match name {
        Some(name) => Ok(name),
        None => Text::from_str(alloc, "Column1"),
    }
}

// The name of an item that is given none: its own column's, or else its default name, made free of all columns.
fn unnamed_item(
    alloc: Global,
    text: &str,
    columns: &[Field],
    tree: &Expression,
) -> Result<Text, Memory>
    ensures { IfOk result (λ t. t ≡ the.unnamed_item text.now columns.now (tree_of tree.now)) }
{
    if let Some(own) = column_of(alloc, text, columns, tree)? {
        return Ok(own);
    }
    let name = default_name(alloc, text, columns, tree)?;
    let name = or_first_column(alloc, name)?;
    free_name(alloc, columns, &[], name)
}

fn item_name<N: Names>(
    alloc: Global,
    scope: &Scope<N>,
    columns: &[Field],
    item: &Item,
) -> Result<Text, Memory>
    ensures { IfOk result (λ t. t ≡ the.item_name (scoping_of N.known scope.now) columns.now (item_view item.now)) }
{
    match item {
        Item::Plain(tree) => unnamed_item(alloc, scope.text, columns, tree),
        Item::Named(name, _) => name_text(alloc, scope.text, *name),
    }
}

fn item_value(item: &Item) -> &Expression
    ensures { tree_of result.now ≡ the.item_value (item_view item.now) }
{
    match item {
        Item::Plain(tree) => tree,
        Item::Named(_, tree) => tree,
    }
}

fn if_dynamic(at: usize, one: Typed) -> Result<Typed, BindFault>
    ensures { AnswersVerdict typed_of (the.if_dynamic at (typed_of one)) result }
{
    if one.ty.same(Ty::Dynamic) {
        Ok(one)
    } else {
        Err(BindFault::Mistyped { at })
    }
}

fn with_field(mut fields: Vec<Field>, at: usize, field: Field) -> Vec<Field>
    ensures { result.items ≡ slice_set fields.items at field }
{
    if at < fields.len() {
        fields[at] = field;
    }
    fields
}

// In place of the column of its name, or else last.
fn expanded_as(
    alloc: Global,
    flow: Flow,
    one: Typed,
    name: Text,
    ty: Option<Ty>,
) -> Result<Flow, BindFault>
    ensures { AnswersVerdict flow_of (Ok (the.expanded_as (flow_of flow) (typed_of one) name ty)) result }
{
    let mut fields = copied(alloc, columns(&flow))?;
    let place = first_named(&fields, name.as_str());
    let field = Field {
        name,
        ty: or_dynamic(ty),
    };
    match place {
        Some((place, _)) => {
            let fields = with_field(fields, place, field);
            following(
                flow.progress,
                Work::MvExpand(flow.input, one.expr, place, ty),
                fields,
            )
        }
        None => {
            let place = fields.len();
            fields.push(field)?;
            following(
                flow.progress,
                Work::MvExpand(flow.input, one.expr, place, ty),
                fields,
            )
        }
    }
}

/// `mv-expand`: the value is a dynamic.
pub fn bind_mv_expand<N: Names>(
    alloc: Global,
    scope: &Scope<N>,
    flow: Flow,
    item: &Item,
    word: Option<Symbol>,
) -> Result<Flow, BindFault>
    ensures { AnswersVerdict flow_of (the.bind_mv_expand (scoping_of N.known scope.now) (flow_of flow) (item_view item.now) word) result }
{
    let seen = expression_scope(scope);
    let tree = item_value(item);
    let one = bind_expression(alloc, &seen, columns(&flow), tree)?;
    let one = if_dynamic(first_token(tree), one)?;
    let ty = part_type(scope, word)?;
    let name = item_name(alloc, scope, columns(&flow), item)?;
    expanded_as(alloc, flow, one, name, ty)
}
