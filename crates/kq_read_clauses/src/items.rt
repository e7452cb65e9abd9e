// Items, keys, groupings and names in lists.
ghost use Rattle.std.specs.Prelude.{◌≡◌, map, true};
ghost use Rattle.std.specs.Option.{option_map};
ghost use Rattle.kq_read_clauses.specs.Reading as spec;
ghost use Rattle.kq_read_grammar.specs.Views.{item_view, key_view, grouping_view, tree_of};
ghost use Rattle.kq_read_symbols.specs.Classes as k;
ghost use Rattle.kq_read_symbols.specs.Classes.{of};
ghost use Rattle.kq_read_symbols.specs.Forms.{expect, maybe};
ghost use Rattle.kq_read_symbols.specs.Outcomes.{IsOutcome};
ghost use Rattle.kq_read_symbols.specs.Several.{first_and_others};
ghost use Rattle.kq_read_symbols.specs.declared.word.ClauseWord.TheVariants as w;

use kq_read_expressions::{AName, listed, read_expression};
use kq_read_grammar::{Expression, Grouping, Item, Key, Name, is_bare, item};
use kq_read_symbols::{Class, ClauseWord, Cursor, Part, ReservedWord, Stop, Symbol};
use kq_read_tokens::Operator;
use std::alloc::Global;

// What stands behind `=`, where it comes next.
fn given(alloc: Global, cursor: &mut Cursor<'_>, budget: usize) -> Result<Option<Expression>, Stop>
    ensures { IsOutcome (option_map tree_of) (spec.given true budget cursor.old) result cursor.new }
{
    if !cursor.sees(Class::Operator(Operator::Assign)) {
        return Ok(None);
    }
    cursor.expect(Class::Operator(Operator::Assign))?;
    Ok(Some(read_expression(alloc, cursor, budget)?))
}

/// The expression that comes next, with the name that it is given where there is one. The budget is at least the number of
/// symbols that are left.
#[tactic(auto, unfolding(crate::specs::Reading::item))]
pub fn read_item(alloc: Global, cursor: &mut Cursor<'_>, budget: usize) -> Result<Item, Stop>
    ensures { IsOutcome item_view (spec.item budget cursor.old) result cursor.new }
{
    let value = read_expression(alloc, cursor, budget)?;
    if !is_bare(&value) {
        return Ok(item(value, None));
    }
    let given = given(alloc, cursor, budget)?;
    Ok(item(value, given))
}

/// One item.
#[derive(Clone, Copy)]
pub struct AnItem {
    pub alloc: Global,
    /// At least the number of symbols that are left.
    pub budget: usize,
}

impl Part for AnItem {
    type Value = Item;

    ghost use Rattle.kq_read_grammar.specs.Trees.{ItemTree};

    ghost Shape = { ItemTree };

    ghost view = { item_view };

    ghost reader = { λ p. spec.item p.budget };

    ghost callable = { λ _. Unit {0} };

    fn read(&self, cursor: &mut Cursor<'_>) -> Result<Item, Stop> {
        read_item(self.alloc, cursor, self.budget)
    }
}

/// One item or more, with commas between them.
#[tactic(auto, unfolding(crate::specs::Reading::items))]
pub fn read_items(
    alloc: Global,
    cursor: &mut Cursor<'_>,
    budget: usize,
) -> Result<(Item, Vec<Item>), Stop>
    ensures { IsOutcome (first_and_others item_view) (spec.items budget cursor.old) result cursor.new }
{
    listed(alloc, cursor, budget, &AnItem { alloc, budget })
}

/// `by` and what rows are grouped by.
#[tactic(auto, unfolding(crate::specs::Reading::grouping))]
pub fn read_grouping(
    alloc: Global,
    cursor: &mut Cursor<'_>,
    budget: usize,
) -> Result<Grouping, Stop>
    ensures { IsOutcome grouping_view (spec.grouping budget cursor.old) result cursor.new }
{
    cursor.expect(Class::Reserved(ReservedWord::By))?;
    let (first, others) = read_items(alloc, cursor, budget)?;
    Ok(Grouping { first, others })
}

// `asc` or `desc` where it is said.
fn direction(cursor: &mut Cursor<'_>) -> Result<Option<Symbol>, Stop>
    ensures { IsOutcome (λ t. t) (maybe (of k.direction) (expect (of k.direction)) cursor.old) result cursor.new }
{
    if !cursor.sees(Class::Direction) {
        return Ok(None);
    }
    Ok(Some(cursor.expect(Class::Direction)?))
}

// `first` or `last` behind `nulls` where it is said.
#[tactic(auto, unfolding(crate::specs::Reading::nulls))]
fn nulls(cursor: &mut Cursor<'_>) -> Result<Option<Symbol>, Stop>
    ensures { IsOutcome (λ t. t) (maybe (of (k.clause w.Nulls)) spec.nulls cursor.old) result cursor.new }
{
    if !cursor.sees(Class::Clause(ClauseWord::Nulls)) {
        return Ok(None);
    }
    cursor.expect(Class::Clause(ClauseWord::Nulls))?;
    Ok(Some(cursor.expect(Class::Extreme)?))
}

// How a key of a sort orders, as far as it is said.
fn order(cursor: &mut Cursor<'_>) -> Result<(Option<Symbol>, Option<Symbol>), Stop>
    ensures { IsOutcome (λ p. p) (spec.order cursor.old) result cursor.new }
{
    let direction = direction(cursor)?;
    let nulls = nulls(cursor)?;
    Ok((direction, nulls))
}

/// The key of a sort that comes next.
#[tactic(auto, unfolding(crate::specs::Reading::key))]
pub fn read_key(alloc: Global, cursor: &mut Cursor<'_>, budget: usize) -> Result<Key, Stop>
    ensures { IsOutcome key_view (spec.key budget cursor.old) result cursor.new }
{
    let value = read_expression(alloc, cursor, budget)?;
    let (direction, nulls) = order(cursor)?;
    Ok(Key {
        value,
        direction,
        nulls,
    })
}

/// One key.
#[derive(Clone, Copy)]
pub struct AKey {
    pub alloc: Global,
    /// At least the number of symbols that are left.
    pub budget: usize,
}

impl Part for AKey {
    type Value = Key;

    ghost use Rattle.kq_read_grammar.specs.Trees.{KeyTree};

    ghost Shape = { KeyTree };

    ghost view = { key_view };

    ghost reader = { λ p. spec.key p.budget };

    ghost callable = { λ _. Unit {0} };

    fn read(&self, cursor: &mut Cursor<'_>) -> Result<Key, Stop> {
        read_key(self.alloc, cursor, self.budget)
    }
}

/// One key or more.
#[tactic(auto, unfolding(crate::specs::Reading::keys))]
pub fn read_keys(
    alloc: Global,
    cursor: &mut Cursor<'_>,
    budget: usize,
) -> Result<(Key, Vec<Key>), Stop>
    ensures { IsOutcome (first_and_others key_view) (spec.keys budget cursor.old) result cursor.new }
{
    listed(alloc, cursor, budget, &AKey { alloc, budget })
}

/// One name or more. The budget is at least the number of symbols that are left.
#[tactic(auto, unfolding(crate::specs::Reading::names))]
pub fn read_names(
    alloc: Global,
    cursor: &mut Cursor<'_>,
    budget: usize,
) -> Result<(Name, Vec<Name>), Stop>
    ensures { IsOutcome (λ p. (p.0, p.1.items)) (spec.names budget cursor.old) result cursor.new }
{
    listed(alloc, cursor, budget, &AName)
}
