// The source `print`.
ghost use Rattle.std.specs.Prelude.{◌≡◌, ◌∷◌, map};
ghost use Rattle.kq_bind_columns.specs.Made.{made_of};
ghost use Rattle.kq_bind_columns.specs.Printed.{item_printed, items_printed, printed as the_printed};
ghost use Rattle.kq_bind_expressions.specs.Names.{names_of};
ghost use Rattle.kq_bind_expressions.specs.Verdicts.{AnswersVerdict};
ghost use Rattle.kq_read_grammar.specs.Views.{item_view};

use crate::items::{Made, nothing_made, put_default, put_given};
use crate::naming::numbered;
use kq_bind_expressions::{BindFault, Scope, bind_expression};
use kq_read_grammar::Item;
use std::alloc::Global;

fn print_item(
    alloc: Global,
    scope: &Scope,
    position: usize,
    made: Made,
    item: &Item,
) -> Result<Made, BindFault>
    ensures { AnswersVerdict made_of (item_printed (names_of scope.now) position (made_of made) (item_view item.now)) result }
{
    match item {
        Item::Plain(tree) => {
            let one = bind_expression(alloc, scope, &[], tree)?;
            let name = numbered(alloc, "print_", position)?;
            put_default(alloc, &[], made, one, name)
        }
        Item::Named(name, tree) => {
            let one = bind_expression(alloc, scope, &[], tree)?;
            put_given(alloc, scope.text, made, one, *name)
        }
    }
}

// The items at the positions from 1.
fn print_others(
    alloc: Global,
    scope: &Scope,
    first: Made,
    items: &[Item],
) -> Result<Made, BindFault>
    ensures { AnswersVerdict made_of (items_printed (names_of scope.now) 1 (made_of first) (map item_view items.now)) result }
{
    let mut made = first;
    for i in 0..items.len() {
        made = print_item(alloc, scope, i + 1, made, &items[i])?;
    }
    Ok(made)
}

/// The one row that `print` makes, or its first fault from left to right; an expression is bound before its given name is tested. An expression
/// without a name is print_0, print_1 and so on by its position among all items, with the least free suffix 1, 2, 3 where that is taken.
pub fn printed(
    alloc: Global,
    scope: &Scope,
    first: &Item,
    others: &[Item],
) -> Result<Made, BindFault>
    ensures { AnswersVerdict made_of (the_printed (names_of scope.now) (item_view first.now ∷ map item_view others.now)) result }
{
    let made = print_item(alloc, scope, 0, nothing_made(alloc), first)?;
    print_others(alloc, scope, made, others)
}
