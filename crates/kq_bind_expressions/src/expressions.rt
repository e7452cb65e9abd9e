// Expressions. Operands are walked before their operator, from left to right.
ghost use Rattle.std.specs.Prelude.{◌≡◌, [], ◌∷◌, Ok, map};
ghost use Rattle.kq_bind_expressions.specs.Apply.{applied, apply as the_apply};
ghost use Rattle.kq_bind_expressions.specs.Bound.{bound, bounds, chained, stepped, walked, constant_of, literal_of as the_literal_of, member_name as the_member_name, function_of as the_function_of};
ghost use Rattle.kq_bind_expressions.specs.Names.{names_of};
ghost use Rattle.kq_bind_expressions.specs.Operators as the;
ghost use Rattle.kq_bind_expressions.specs.Seen.{all_typed};
ghost use Rattle.kq_bind_expressions.specs.Verdicts.{AnswersVerdict};
ghost use Rattle.kq_plan_expressions.specs.Terms.{typed_of};
ghost use Rattle.kq_read_grammar.specs.Views.{tree_of, trees_of, link_of, links_of, interval_of, step_of, steps_of, precedence_of};

use crate::apply::{
    apply, apply_next, apply_to_one, apply_to_three, apply_to_two, with_two_before,
};
use crate::fault::BindFault;
use crate::lookup::named;
use crate::operators::{comparison, interval, membership, operation, sign};
use crate::scope::Scope;
use kq_plan_expressions::{Expr, Operation, Typed};
use kq_plan_functions::{Function, find};
use kq_read_grammar::{Expression, Interval, Level, Link, Name, Step};
use kq_read_meanings::{literal_value, name_text, piece};
use kq_read_symbols::Symbol;
use kq_value::{Field, Ty, Value};
use std::alloc::Global;

/// What an expression is bound to over these columns, or its first fault: operands come before their operator, from left to right, and a called name
/// before its arguments. A column hides a scalar let of its name. Where each literal of the tree has a value, as it has if `unsupported` finds none,
/// Unsupported is never answered.
#[cycle(bind)]
pub fn bind_expression(
    alloc: Global,
    scope: &Scope,
    columns: &[Field],
    tree: &Expression,
) -> Result<Typed, BindFault>
    ensures { AnswersVerdict typed_of (bound (names_of scope.now) columns.now (tree_of tree.now)) result }
{
    match tree {
        Expression::Name(name) => named(alloc, scope, columns, *name),
        Expression::Literal(symbol) => literal(alloc, scope, *symbol),
        Expression::Group(_, inner) => bind_expression(alloc, scope, columns, inner),
        Expression::Call(word, args) => {
            let function = function_of(scope, *word)?;
            let given = bind_all(alloc, scope, columns, args)?;
            apply(alloc, function, word.from, given)
        }
        Expression::Path(first, step, steps) => {
            let first = bind_expression(alloc, scope, columns, first)?;
            let second = bind_step(alloc, scope, columns, first, step)?;
            bind_steps(alloc, scope, columns, second, steps)
        }
        Expression::Signed(symbol, operand) => {
            let operand = bind_expression(alloc, scope, columns, operand)?;
            apply_to_one(alloc, sign(symbol.kind), symbol.from, operand)
        }
        Expression::Compare(left, right) => {
            let left = bind_expression(alloc, scope, columns, left)?;
            bind_comparison(alloc, scope, columns, left, right)
        }
        Expression::Within(left, first, others) => {
            let left = bind_expression(alloc, scope, columns, left)?;
            let second = bind_operand(alloc, scope, columns, first)?;
            let others = bind_all(alloc, scope, columns, others)?;
            let given = with_two_before(alloc, left, second, others)?;
            apply_within(alloc, first, given)
        }
        Expression::Between(operand, ends) => {
            let operand = bind_expression(alloc, scope, columns, operand)?;
            bind_between(alloc, scope, columns, operand, ends)
        }
        Expression::Chain(level, first, link, links) => {
            let first = bind_expression(alloc, scope, columns, first)?;
            let second = bind_link(alloc, scope, columns, *level, first, link)?;
            bind_links(alloc, scope, columns, *level, second, links)
        }
    }
}

#[cycle(bind)]
fn bind_all(
    alloc: Global,
    scope: &Scope,
    columns: &[Field],
    trees: &Vec<Expression>,
) -> Result<Vec<Typed>, BindFault>
    ensures { AnswersVerdict all_typed (bounds (names_of scope.now) columns.now (trees_of (map tree_of trees.now.items))) result }
{
    let mut given = Vec::new(alloc);
    for tree in trees {
        given.push(bind_expression(alloc, scope, columns, tree)?)?;
    }
    Ok(given)
}

#[cycle(bind)]
fn bind_comparison(
    alloc: Global,
    scope: &Scope,
    columns: &[Field],
    left: Typed,
    right: &Link,
) -> Result<Typed, BindFault>
    ensures { let r = link_of right.now in
        AnswersVerdict typed_of (the_apply (the.comparison r.0.kind) r.0.from (Ok (typed_of left) ∷ bound (names_of scope.now) columns.now r.1 ∷ [])) result }
{
    let operand = bind_expression(alloc, scope, columns, &right.operand)?;
    apply_to_two(
        alloc,
        comparison(right.operator.kind),
        right.operator.from,
        left,
        operand,
    )
}

#[cycle(bind)]
fn bind_operand(
    alloc: Global,
    scope: &Scope,
    columns: &[Field],
    link: &Link,
) -> Result<Typed, BindFault>
    ensures { AnswersVerdict typed_of (bound (names_of scope.now) columns.now (link_of link.now).1) result }
{
    bind_expression(alloc, scope, columns, &link.operand)
}

#[cycle(bind)]
fn bind_between(
    alloc: Global,
    scope: &Scope,
    columns: &[Field],
    operand: Typed,
    ends: &Interval,
) -> Result<Typed, BindFault>
    ensures { let e = interval_of ends.now in
        let low = bound (names_of scope.now) columns.now e.low in
        let high = bound (names_of scope.now) columns.now e.high in
        AnswersVerdict typed_of (the_apply (the.interval e.operator.kind) e.operator.from (Ok (typed_of operand) ∷ low ∷ high ∷ [])) result }
{
    let low = bind_expression(alloc, scope, columns, &ends.low)?;
    let high = bind_expression(alloc, scope, columns, &ends.high)?;
    apply_to_three(
        alloc,
        interval(ends.operator.kind),
        ends.operator.from,
        operand,
        low,
        high,
    )
}

#[cycle(bind)]
fn bind_link(
    alloc: Global,
    scope: &Scope,
    columns: &[Field],
    level: Level,
    left: Typed,
    link: &Link,
) -> Result<Typed, BindFault>
    ensures { let r = link_of link.now in
        let operands = Ok (typed_of left) ∷ bound (names_of scope.now) columns.now r.1 ∷ [] in
        AnswersVerdict typed_of (the_apply (the.operation (precedence_of level) r.0.kind) r.0.from operands) result }
{
    let operand = bind_expression(alloc, scope, columns, &link.operand)?;
    apply_to_two(
        alloc,
        operation(level, link.operator.kind).function(),
        link.operator.from,
        left,
        operand,
    )
}

// A link more of a chain.
#[cycle(bind)]
fn bind_next(
    alloc: Global,
    scope: &Scope,
    columns: &[Field],
    level: Level,
    left: Typed,
    link: &Link,
) -> Result<Typed, BindFault>
    ensures { let r = link_of link.now in
        let operands = Ok (typed_of left) ∷ bound (names_of scope.now) columns.now r.1 ∷ [] in
        AnswersVerdict typed_of (the_apply (the.operation (precedence_of level) r.0.kind) r.0.from operands) result }
{
    let operand = bind_expression(alloc, scope, columns, &link.operand)?;
    apply_next(
        alloc,
        operation(level, link.operator.kind),
        link.operator.from,
        left,
        operand,
    )
}

#[cycle(bind)]
fn bind_links(
    alloc: Global,
    scope: &Scope,
    columns: &[Field],
    level: Level,
    first: Typed,
    links: &Vec<Link>,
) -> Result<Typed, BindFault>
    ensures { AnswersVerdict typed_of (chained (names_of scope.now) columns.now (precedence_of level) (typed_of first) (links_of (map link_of links.now.items))) result }
{
    let mut left = first;
    for link in links {
        left = bind_next(alloc, scope, columns, level, left, link)?;
    }
    Ok(left)
}

#[cycle(bind)]
fn bind_step(
    alloc: Global,
    scope: &Scope,
    columns: &[Field],
    first: Typed,
    step: &Step,
) -> Result<Typed, BindFault>
    ensures { AnswersVerdict typed_of (stepped (names_of scope.now) columns.now (typed_of first) (step_of step.now)) result }
{
    match step {
        Step::Member(dot, name) => {
            let name = member_name(alloc, scope, *name)?;
            apply_to_two(alloc, Function::Member, dot.from, first, name)
        }
        Step::Index(bracket, index) => {
            let index = bind_expression(alloc, scope, columns, index)?;
            apply_to_two(alloc, Function::Member, bracket.from, first, index)
        }
    }
}

// A step more of a path.
#[cycle(bind)]
fn bind_next_step(
    alloc: Global,
    scope: &Scope,
    columns: &[Field],
    first: Typed,
    step: &Step,
) -> Result<Typed, BindFault>
    ensures { AnswersVerdict typed_of (stepped (names_of scope.now) columns.now (typed_of first) (step_of step.now)) result }
{
    match step {
        Step::Member(dot, name) => {
            let name = member_name(alloc, scope, *name)?;
            apply_next(alloc, Operation::Member, dot.from, first, name)
        }
        Step::Index(bracket, index) => {
            let index = bind_expression(alloc, scope, columns, index)?;
            apply_next(alloc, Operation::Member, bracket.from, first, index)
        }
    }
}

#[cycle(bind)]
fn bind_steps(
    alloc: Global,
    scope: &Scope,
    columns: &[Field],
    first: Typed,
    steps: &Vec<Step>,
) -> Result<Typed, BindFault>
    ensures { AnswersVerdict typed_of (walked (names_of scope.now) columns.now (typed_of first) (steps_of (map step_of steps.now.items))) result }
{
    let mut from = first;
    for step in steps {
        from = bind_next_step(alloc, scope, columns, from, step)?;
    }
    Ok(from)
}

fn apply_within(alloc: Global, link: &Link, given: Vec<Typed>) -> Result<Typed, BindFault>
    ensures { let t = (link_of link.now).0 in
        AnswersVerdict typed_of (applied (the.membership t.kind) t.from (map typed_of given.items)) result }
{
    let operator = link.operator;
    apply(alloc, membership(operator.kind), operator.from, given)
}

fn literal(alloc: Global, scope: &Scope, symbol: Symbol) -> Result<Typed, BindFault>
    ensures { AnswersVerdict typed_of (the_literal_of (names_of scope.now) symbol) result }
{
    match literal_value(alloc, scope.text, symbol)? {
        Some(value) => Ok(constant(value)),
        None => Err(BindFault::Unsupported { at: symbol.from }),
    }
}

fn constant(value: Value) -> Typed
    ensures { typed_of result ≡ constant_of value }
{
    let ty = value.ty();
    Typed {
        expr: Expr::Literal(value),
        ty,
    }
}

// The name of a member, as a string.
fn member_name(alloc: Global, scope: &Scope, name: Name) -> Result<Typed, BindFault>
    ensures { AnswersVerdict typed_of (Ok (the_member_name (names_of scope.now) name)) result }
{
    let name = name_text(alloc, scope.text, name)?;
    Ok(Typed {
        expr: Expr::Literal(Value::Text(name)),
        ty: Ty::Text,
    })
}

fn function_of(scope: &Scope, word: Symbol) -> Result<Function, BindFault>
    ensures { AnswersVerdict (λ f. f) (the_function_of (names_of scope.now) word) result }
{
    match find(piece(scope.text, word)) {
        Some(function) => Ok(function),
        None => Err(BindFault::Unknown { at: word.from }),
    }
}
