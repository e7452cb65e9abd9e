// Trees made of their parts.
ghost use Rattle.std.specs.Prelude.{◌≡◌, IfOk, map};
ghost use Rattle.std.specs.Option.{option_map};
ghost use Rattle.kq_read_grammar.specs.Trees.{group as the_group, call as the_call, signed as the_signed, compare as the_compare, within as the_within, between as the_between, member as the_member, index as the_index};
ghost use Rattle.kq_read_grammar.specs.Views.{tree_of, link_of, interval_of, step_of, precedence_of, trees_of, chain_of, path_of, is_bare as bare, item_of, item_view};

use crate::clause::Item;
use crate::expression::{Expression, Interval, Level, Link, Name, Step};
use kq_read_symbols::Symbol;
use std::alloc::{AllocError, Global};

// Two parts of a tree in boxes. Neither type is known here, so that one proof serves all.
fn boxed<A: Drop, B: Drop>(
    alloc: Global,
    first: A,
    second: B,
) -> Result<(Box<A>, Box<B>), AllocError>
    ensures { IfOk result (λ p. (p.0.value ≡ first) × (p.1.value ≡ second)) }
{
    let first = Box::new(alloc, first)?;
    let second = Box::new(alloc, second)?;
    Ok((first, second))
}

pub fn group(alloc: Global, paren: Symbol, inner: Expression) -> Result<Expression, AllocError>
    ensures { IfOk result (λ e. tree_of e ≡ the_group paren (tree_of inner)) }
{
    Ok(Expression::Group(paren, Box::new(alloc, inner)?))
}

pub fn call(function: Symbol, arguments: Vec<Expression>) -> Expression
    ensures { tree_of result ≡ the_call function (trees_of (map tree_of arguments.items)) }
{
    Expression::Call(function, arguments)
}

pub fn link(operator: Symbol, operand: Expression) -> Link
    ensures { link_of result ≡ (operator, tree_of operand) }
{
    Link { operator, operand }
}

pub fn member(dot: Symbol, name: Name) -> Step
    ensures { step_of result ≡ the_member dot name }
{
    Step::Member(dot, name)
}

pub fn index(bracket: Symbol, inner: Expression) -> Step
    ensures { step_of result ≡ the_index bracket (tree_of inner) }
{
    Step::Index(bracket, inner)
}

/// The operand alone where there is no step.
pub fn path(
    alloc: Global,
    first: Expression,
    mut steps: Vec<Step>,
) -> Result<Expression, AllocError>
    ensures { IfOk result (λ e. tree_of e ≡ path_of (tree_of first) (map step_of steps.items)) }
{
    if steps.is_empty() {
        return Ok(first);
    }
    let (first, step) = boxed(alloc, first, steps.remove(0))?;
    Ok(Expression::Path(first, step, steps))
}

pub fn signed(alloc: Global, sign: Symbol, operand: Expression) -> Result<Expression, AllocError>
    ensures { IfOk result (λ e. tree_of e ≡ the_signed sign (tree_of operand)) }
{
    Ok(Expression::Signed(sign, Box::new(alloc, operand)?))
}

pub fn compare(alloc: Global, left: Expression, right: Link) -> Result<Expression, AllocError>
    ensures { IfOk result (λ e. tree_of e ≡ the_compare (tree_of left) (link_of right).0 (link_of right).1) }
{
    let (left, right) = boxed(alloc, left, right)?;
    Ok(Expression::Compare(left, right))
}

pub fn within(
    alloc: Global,
    left: Expression,
    first: Link,
    others: Vec<Expression>,
) -> Result<Expression, AllocError>
    ensures { IfOk result (λ e. tree_of e ≡ the_within (tree_of left) (link_of first).0 (link_of first).1 (trees_of (map tree_of others.items))) }
{
    let (left, first) = boxed(alloc, left, first)?;
    Ok(Expression::Within(left, first, others))
}

pub fn interval(operator: Symbol, low: Expression, high: Expression) -> Interval
    ensures { interval_of result ≡ record { operator = operator; low = tree_of low; high = tree_of high } }
{
    Interval {
        operator,
        low,
        high,
    }
}

pub fn between(alloc: Global, left: Expression, ends: Interval) -> Result<Expression, AllocError>
    ensures { IfOk result (λ e. tree_of e ≡ the_between (tree_of left) (interval_of ends).operator (interval_of ends).low (interval_of ends).high) }
{
    let (left, ends) = boxed(alloc, left, ends)?;
    Ok(Expression::Between(left, ends))
}

/// The operand alone where there is no link.
pub fn chain(
    alloc: Global,
    level: Level,
    first: Expression,
    mut links: Vec<Link>,
) -> Result<Expression, AllocError>
    ensures { IfOk result (λ e. tree_of e ≡ chain_of (precedence_of level) (tree_of first) (map link_of links.items)) }
{
    if links.is_empty() {
        return Ok(first);
    }
    let (first, link) = boxed(alloc, first, links.remove(0))?;
    Ok(Expression::Chain(level, first, link, links))
}

/// Whether it is a name alone, which may be given to what comes behind a `=`.
pub fn is_bare(value: &Expression) -> bool
    ensures { result ≡ bare (tree_of value.now) }
{
    matches!(value, Expression::Name(_))
}

/// `value` alone, or where `given` is there, that under the name which `value` is.
pub fn item(value: Expression, given: Option<Expression>) -> Item
    ensures { item_view result ≡ item_of (tree_of value) (option_map tree_of given) }
{
    match (value, given) {
        (Expression::Name(name), Some(given)) => Item::Named(name, given),
        (value, _) => Item::Plain(value),
    }
}
