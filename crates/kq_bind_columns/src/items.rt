// Columns that an operator makes, one after another.
ghost use Rattle.std.specs.Prelude.{◌≡◌, ◌≤◌, ◌+◌, ◌^◌, ◌∷◌, IfOk, Ok, OnErr, map};
ghost use Rattle.kq_bind_columns.specs.Items.{nothing_made as made_nothing, put as the_put, put_default as the_put_default, put_own as the_put_own, put_given as the_put_given, as_key as the_as_key, operand as the_operand, item_made as the_item_made, items_made as the_items_made, unsupported_item as in_item, unsupported_items as in_items};
ghost use Rattle.kq_bind_columns.specs.Made.{made_of};
ghost use Rattle.kq_bind_expressions.specs.Names.{names_of};
ghost use Rattle.kq_bind_expressions.specs.Verdicts.{AnswersVerdict};
ghost use Rattle.kq_plan_expressions.specs.Terms.{typed_of};
ghost use Rattle.kq_read_grammar.specs.Views.{tree_of, item_view};

use crate::defaults::default_name;
use crate::naming::{free_name, is_taken, numbered};
use crate::places::first_token;
use kq_bind_expressions::{BindFault, Scope, bind_expression, name_place, name_text, unsupported};
use kq_plan_expressions::{Expr, Typed};
use kq_read_grammar::{Expression, Item, Name};
use kq_value::{Field, Memory, Text, Ty};
use std::alloc::{AllocError, Global};

/// What an operator has made so far: the expressions, the columns that they fill, one for each, and how many of these had no name.
#[derive(Drop)]
pub struct Made {
    pub exprs: Vec<Expr>,
    pub fields: Vec<Field>,
    pub unnamed: usize,
}

/// What an operator begins with.
pub fn nothing_made(alloc: Global) -> Made
    ensures { made_of result ≡ made_nothing }
{
    Made {
        exprs: Vec::new(alloc),
        fields: Vec::new(alloc),
        unnamed: 0,
    }
}

fn put(made: Made, unnamed: usize, one: Typed, name: Text) -> Result<Made, BindFault>
    ensures { AnswersVerdict made_of (Ok (the_put (made_of made) unnamed (typed_of one) name)) result }
{
    let mut exprs = made.exprs;
    let mut fields = made.fields;
    let Typed { expr, ty } = one;
    exprs.push(expr)?;
    fields.push(Field { name, ty })?;
    Ok(Made {
        exprs,
        fields,
        unnamed,
    })
}

/// One more under a default name; a suffix avoids these columns too.
pub fn put_default(
    alloc: Global,
    avoided: &[Field],
    made: Made,
    one: Typed,
    name: Text,
) -> Result<Made, BindFault>
    ensures { AnswersVerdict made_of (Ok (the_put_default avoided.now (made_of made) (typed_of one) name)) result }
{
    let name = free_name(alloc, &made.fields, avoided, name)?;
    let unnamed = made.unnamed;
    put(made, unnamed, one, name)
}

// One more under the name that it has of itself, or as one column more without a name: Column1, Column2 and so on.
fn put_own(
    alloc: Global,
    avoided: &[Field],
    made: Made,
    one: Typed,
    name: Option<Text>,
) -> Result<Made, BindFault>
    ensures { AnswersVerdict made_of (Ok (the_put_own avoided.now (made_of made) (typed_of one) name)) result }
{
    match name {
        Some(name) => put_default(alloc, avoided, made, one, name),
        None => {
            let unnamed = one_more(made.unnamed)?;
            let base = numbered(alloc, "Column", unnamed)?;
            let name = free_name(alloc, &made.fields, avoided, base)?;
            put(made, unnamed, one, name)
        }
    }
}

fn one_more(unnamed: usize) -> Result<usize, Memory>
    ensures ok { IfOk result (λ more. more ≡ unnamed + 1) }
    ensures err { OnErr result (2 ^ 64 ≤ unnamed + 1) }
{
    match unnamed.checked_add(1) {
        Some(more) => Ok(more),
        None => Err(AllocError),
    }
}

/// One more under the name that it is given, or Mistyped at that name where the operator has given it before.
pub fn put_given(
    alloc: Global,
    text: &str,
    made: Made,
    one: Typed,
    name: Name,
) -> Result<Made, BindFault>
    ensures { AnswersVerdict made_of (the_put_given text.now (made_of made) (typed_of one) name) result }
{
    let given = name_text(alloc, text, name)?;
    if is_taken(&made.fields, given.as_str()) {
        Err(BindFault::Mistyped {
            at: name_place(name),
        })
    } else {
        let unnamed = made.unnamed;
        put(made, unnamed, one, given)
    }
}

// A dynamic is no key.
fn as_key(keys: bool, at: usize, one: Typed) -> Result<Typed, BindFault>
    ensures { AnswersVerdict typed_of (the_as_key keys at (typed_of one)) result }
{
    if keys {
        if one.ty.same(Ty::Dynamic) {
            Err(BindFault::Mistyped { at })
        } else {
            Ok(one)
        }
    } else {
        Ok(one)
    }
}

/// What an expression is bound to over these columns; as a key a dynamic is Mistyped at the expression's first token.
pub fn operand(
    alloc: Global,
    scope: &Scope,
    columns: &[Field],
    keys: bool,
    tree: &Expression,
) -> Result<Typed, BindFault>
    ensures { AnswersVerdict typed_of (the_operand (names_of scope.now) columns.now keys (tree_of tree.now)) result }
{
    let one = bind_expression(alloc, scope, columns, tree)?;
    as_key(keys, first_token(tree), one)
}

fn item_made(
    alloc: Global,
    scope: &Scope,
    columns: &[Field],
    avoided: &[Field],
    keys: bool,
    made: Made,
    item: &Item,
) -> Result<Made, BindFault>
    ensures { AnswersVerdict made_of (the_item_made (names_of scope.now) columns.now avoided.now keys (made_of made) (item_view item.now)) result }
{
    match item {
        Item::Plain(tree) => {
            let one = operand(alloc, scope, columns, keys, tree)?;
            let name = default_name(alloc, scope.text, columns, tree)?;
            put_own(alloc, avoided, made, one, name)
        }
        Item::Named(name, tree) => {
            let one = operand(alloc, scope, columns, keys, tree)?;
            put_given(alloc, scope.text, made, one, *name)
        }
    }
}

/// The items, bound over the columns, behind what is made, or their first fault from left to right; an expression is bound before its given name is
/// tested. A suffix of a default name avoids the `avoided` columns too: for `extend`, the columns that come. As `keys` no item may be a dynamic.
pub fn items_made(
    alloc: Global,
    scope: &Scope,
    columns: &[Field],
    avoided: &[Field],
    keys: bool,
    before: Made,
    items: &[Item],
) -> Result<Made, BindFault>
    ensures { AnswersVerdict made_of (the_items_made (names_of scope.now) columns.now avoided.now keys (made_of before) (map item_view items.now)) result }
{
    let mut made = before;
    for item in items {
        made = item_made(alloc, scope, columns, avoided, keys, made, item)?;
    }
    Ok(made)
}

/// A first item and others, as `items_made` has them, where nothing is made before.
pub fn all_made(
    alloc: Global,
    scope: &Scope,
    columns: &[Field],
    avoided: &[Field],
    keys: bool,
    first: &Item,
    others: &[Item],
) -> Result<Made, BindFault>
    ensures { let items = item_view first.now ∷ map item_view others.now in
        AnswersVerdict made_of (the_items_made (names_of scope.now) columns.now avoided.now keys made_nothing items) result }
{
    let made = nothing_made(alloc);
    let made = item_made(alloc, scope, columns, avoided, keys, made, first)?;
    items_made(alloc, scope, columns, avoided, keys, made, others)
}

/// The place of the leftmost literal of the item that isn't supported.
pub fn unsupported_item(text: &str, item: &Item) -> Option<usize>
    ensures { result ≡ in_item text.now (item_view item.now) }
{
    match item {
        Item::Plain(tree) => unsupported(text, tree),
        Item::Named(_, tree) => unsupported(text, tree),
    }
}

/// The place of the leftmost literal of the items that isn't supported.
pub fn unsupported_items(text: &str, items: &[Item]) -> Option<usize>
    ensures { result ≡ in_items text.now (map item_view items.now) }
{
    for item in items {
        if let Some(place) = unsupported_item(text, item) {
            return Some(place);
        }
    }
    None
}
