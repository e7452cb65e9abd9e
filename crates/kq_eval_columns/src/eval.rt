// Expressions over the rows of a piece.
ghost use Rattle.std.specs.Prelude.{◌≡◌, ◌≤◌, ◌+◌, ◌∷◌, [], IfOk, IfSome, map, drop, length};
ghost use Rattle.kq_value.specs.Computed.{Is, and_then, AnswersAs, each};
ghost use Rattle.kq_eval_row.specs.Applied.{applied};
ghost use Rattle.kq_value_arithmetic.specs.Logic.{is_yes};
ghost use Rattle.kq_eval_row.specs.Val.{val, surroundings, cell_of};
ghost use Rattle.kq_plan_expressions.specs.declared.expr.Expr.TheVariants.{Literal};
ghost use Rattle.kq_plan_expressions.specs.Terms.{mapped};
ghost use Rattle.kq_plan_functions.specs.declared.function.Function.TheVariants.{Member, Split};
ghost use Rattle.kq_eval_columns.specs.Over.{over, called_over, chosen_over, present_over, given, linked_over, chained_over, bare};
ghost use Rattle.kq_store_column_view.specs.Vectors.{cells_of};
ghost use Rattle.kq_eval_columns.specs.Vectors.{rows_at};
ghost use Rattle.kq_eval_columns.specs.Choices.{picked};
ghost use Rattle.kq_eval_columns.specs.Seen.{seen, rows_in, all_over, fronted, members_at, merged_by};

use crate::calls::{apply_over, apply_pair, literal_over};
use crate::choices::{Branch, merged_all, picked_places, present_branch, put_branch, truths};
use crate::gather::column_over;
use crate::piece::Piece;
use crate::splits::split_members;
use kq_plan_expressions::{Expr, Link};
use kq_plan_functions::Function;
use kq_store_column_view::{Vector, cell_at};
use kq_value::{EvalFault, Ty, Value};
use std::alloc::Global;

/// The value of an expression over each of the rows at these places, with the cells of the scalar lets and the ticks of the command's moment. A
/// column, a place or a let past the end is a null, which can't come up for an expression that was bound over such rows.
#[tactic(auto, using(crate::proofs::OverIs::over_is_each))]
pub fn eval_column<'a>(
    alloc: Global,
    expr: &Expr,
    columns: &'a [Vector],
    places: &[usize],
    lets: &'a [Value],
    now: i64,
) -> Result<Vector<'a>, EvalFault>
    ensures { AnswersAs cells_of (each (val expr.now (surroundings now lets.now)) (rows_at columns.now places.now)) result }
{
    eval_over(alloc, expr, Piece { columns, lets, now }, places)
}

#[cycle(eval)]
fn eval_over<'a>(
    alloc: Global,
    expr: &Expr,
    piece: Piece<'a, '_>,
    places: &[usize],
) -> Result<Vector<'a>, EvalFault>
    ensures { AnswersAs cells_of (over expr.now (seen piece.entry) (rows_in piece.entry places.now)) result }
{
    match expr {
        Expr::Literal(value) => literal_over(value, piece, places),
        Expr::Column(j) => cells_over(alloc, *j, piece, places),
        Expr::Cell(i) => let_over(*i, piece, places),
        Expr::Call(function, args) => eval_call(alloc, *function, args, piece, places),
        Expr::Chain(first, links) => {
            let values = eval_over(alloc, first, piece, places)?;
            eval_links(alloc, values, links, piece, places)
        }
    }
}

// What a call gives. Some functions choose which of their arguments are evaluated.
#[cycle(eval)]
fn eval_call<'a>(
    alloc: Global,
    function: Function,
    args: &Vec<Expr>,
    piece: Piece<'a, '_>,
    places: &[usize],
) -> Result<Vector<'a>, EvalFault>
    ensures { AnswersAs cells_of (called_over function (map over args.now.items) (seen piece.entry) (rows_in piece.entry places.now)) result }
{
    match function {
        Function::Iff | Function::Case => eval_chosen(alloc, args, piece, places),
        Function::Coalesce => eval_present(alloc, args, piece, places),
        Function::Member => eval_member(alloc, args, piece, places),
        _ => eval_applied(alloc, function, args, piece, places),
    }
}

// What a function gives of all its arguments.
#[cycle(eval)]
fn eval_applied<'a>(
    alloc: Global,
    function: Function,
    args: &Vec<Expr>,
    piece: Piece<'a, '_>,
    places: &[usize],
) -> Result<Vector<'a>, EvalFault>
    ensures { AnswersAs cells_of (and_then (all_over args.now.items piece.entry places.now) (each (applied function piece.entry.now))) result }
{
    let vectors = eval_all(alloc, args, piece, places)?;
    apply_over(alloc, function, &vectors, piece, places)
}

// What the links of a chain make of its first values.
#[cycle(eval)]
#[tactic(auto, using(crate::proofs::Chains::link_stops, crate::proofs::Chains::chained_stops))]
fn eval_links<'a>(
    alloc: Global,
    first: Vector<'a>,
    links: &Vec<Link<Expr>>,
    piece: Piece<'a, '_>,
    places: &[usize],
) -> Result<Vector<'a>, EvalFault>
    ensures { AnswersAs cells_of (chained_over (given (cells_of first.entry)) (map (mapped over) links.now.items) (seen piece.entry) (rows_in piece.entry places.now)) result }
{
    let mut values = first;
    for link in links {
        values = eval_link(alloc, values, link, piece, places)?;
    }
    Ok(values)
}

#[cycle(eval)]
fn eval_link<'a>(
    alloc: Global,
    values: Vector<'a>,
    link: &Link<Expr>,
    piece: Piece<'a, '_>,
    places: &[usize],
) -> Result<Vector<'a>, EvalFault>
    ensures { AnswersAs cells_of (linked_over (given (cells_of values.entry)) (mapped over link.now) (seen piece.entry) (rows_in piece.entry places.now)) result }
{
    match link {
        Link::ToLong => apply_over(alloc, Function::ToLong, &[values], piece, places),
        Link::With(operation, operand) => {
            let others = eval_over(alloc, operand, piece, places);
            apply_pair(alloc, operation.function(), values, others, piece, places)
        }
    }
}

// The member of what stands first: of a split at a literal place without the array.
#[cycle(eval)]
fn eval_member<'a>(
    alloc: Global,
    exprs: &Vec<Expr>,
    piece: Piece<'a, '_>,
    places: &[usize],
) -> Result<Vector<'a>, EvalFault>
    ensures { AnswersAs cells_of (called_over Member (map over exprs.now.items) (seen piece.entry) (rows_in piece.entry places.now)) result }
{
    if let Some(place) = literal_place(exprs.as_slice()) {
        if let Expr::Call(function, texts) = &exprs[0] {
            if let Function::Split = function {
                return eval_split(alloc, texts, place, piece, places);
            }
        }
    }
    eval_applied(alloc, Function::Member, exprs, piece, places)
}

// The members at a place of what a split of these gives.
#[cycle(eval)]
fn eval_split<'a>(
    alloc: Global,
    texts: &Vec<Expr>,
    place: &Value,
    piece: Piece<'a, '_>,
    places: &[usize],
) -> Result<Vector<'a>, EvalFault>
    ensures { AnswersAs cells_of (members_at place.now (called_over Split (map over texts.now.items)) (seen piece.entry) (rows_in piece.entry places.now)) result }
{
    let vectors = eval_all(alloc, texts, piece, places)?;
    split_members(alloc, &vectors, place, piece, places)
}

// The literal that stands second of two.
fn literal_place(exprs: &[Expr]) -> Option<&Value>
    ensures { IfSome result (λ place. drop 1 exprs.now ≡ Literal place.now ∷ []) }
{
    match exprs {
        [_, Expr::Literal(place)] => Some(place),
        _ => None,
    }
}

// The column's cell of each row.
fn cells_over<'a>(
    alloc: Global,
    j: usize,
    piece: Piece<'a, '_>,
    places: &[usize],
) -> Result<Vector<'a>, EvalFault>
    ensures { AnswersAs cells_of (Is (map (λ r. cell_of r j) (rows_in piece.entry places.now))) result }
{
    Ok(column_over(alloc, j, piece.columns, places)?)
}

// The scalar let's cell for each row.
fn let_over<'a>(i: usize, piece: Piece<'a, '_>, places: &[usize]) -> Result<Vector<'a>, EvalFault>
    ensures { AnswersAs cells_of (Is (map (λ r. cell_of piece.entry.lets.now i) (rows_in piece.entry places.now))) result }
{
    let value = cell_at(piece.lets, i)?;
    literal_over(&value, piece, places)
}

#[cycle(eval)]
fn eval_all<'a>(
    alloc: Global,
    exprs: &Vec<Expr>,
    piece: Piece<'a, '_>,
    places: &[usize],
) -> Result<Vec<Vector<'a>>, EvalFault>
    ensures { AnswersAs (λ vs. fronted vs.items (bare (rows_in piece.entry places.now))) (all_over exprs.now.items piece.entry places.now) result }
{
    let mut vectors = Vec::new(alloc);
    for expr in exprs {
        vectors.push(eval_over(alloc, expr, piece, places)?)?;
    }
    Ok(vectors)
}

// The values behind the first test that is true, or else the last values.
#[cycle(eval)]
fn eval_chosen<'a>(
    alloc: Global,
    exprs: &Vec<Expr>,
    piece: Piece<'a, '_>,
    places: &[usize],
) -> Result<Vector<'a>, EvalFault>
    ensures { AnswersAs cells_of (chosen_over (map over exprs.now.items) (seen piece.entry) (rows_in piece.entry places.now)) result }
{
    let mut left = places.to_vec(alloc)?;
    let mut branches = Vec::new(alloc);
    let mut i = 0;
    while i + 1 < exprs.len() {
        let tests = eval_tests(alloc, &exprs[i], piece, &left)?;
        let branch = eval_branch(alloc, tests, &exprs[i + 1], piece, &left)?;
        left = put_branch(alloc, &mut branches, branch, piece.columns, &left)?;
        i += 2;
    }
    eval_rest(alloc, branches, exprs, i, piece, &left)
}

// Whether the expression is true.
#[cycle(eval)]
fn eval_tests(
    alloc: Global,
    expr: &Expr,
    piece: Piece,
    places: &[usize],
) -> Result<Vec<bool>, EvalFault>
    ensures { AnswersAs (λ ts. ts.items) (and_then (over expr.now (seen piece.entry) (rows_in piece.entry places.now)) (λ vs. Is (map is_yes vs))) result }
{
    let values = eval_over(alloc, expr, piece, places)?;
    Ok(truths(alloc, values)?)
}

// The tests, and the expression's values where they are true.
#[cycle(eval)]
fn eval_branch<'a>(
    alloc: Global,
    tests: Vec<bool>,
    expr: &Expr,
    piece: Piece<'a, '_>,
    places: &[usize],
) -> Result<Branch<'a>, EvalFault>
    ensures tests { IfOk result (λ b. b.tests ≡ tests) }
    ensures values { AnswersAs (λ b. cells_of b.values) (over expr.now (seen piece.entry) (picked tests.items (rows_in piece.entry places.now))) result }
{
    let chosen = picked_places(alloc, &tests, piece.columns, places)?;
    let values = eval_over(alloc, expr, piece, &chosen)?;
    Ok(Branch { tests, values })
}

// The branches, with the last values behind them.
#[cycle(eval)]
fn eval_rest<'a>(
    alloc: Global,
    branches: Vec<Branch<'a>>,
    exprs: &Vec<Expr>,
    i: usize,
    piece: Piece<'a, '_>,
    places: &[usize],
) -> Result<Vector<'a>, EvalFault>
    requires { length exprs.now.items ≤ i + 1 }
    ensures chosen { AnswersAs cells_of (and_then (chosen_over (map over (drop i exprs.now.items)) (seen piece.entry) (rows_in piece.entry places.now)) (λ zs. Is (merged_by branches.entry.items zs))) result }
    ensures present { AnswersAs cells_of (and_then (present_over (map over (drop i exprs.now.items)) (seen piece.entry) (rows_in piece.entry places.now)) (λ zs. Is (merged_by branches.entry.items zs))) result }
{
    let last = eval_last(alloc, exprs, i, piece, places)?;
    Ok(merged_all(alloc, branches, last)?)
}

// The values that are left where all tests are past.
#[cycle(eval)]
fn eval_last<'a>(
    alloc: Global,
    exprs: &Vec<Expr>,
    i: usize,
    piece: Piece<'a, '_>,
    places: &[usize],
) -> Result<Vector<'a>, EvalFault>
    requires { length exprs.now.items ≤ i + 1 }
    ensures chosen { AnswersAs cells_of (chosen_over (map over (drop i exprs.now.items)) (seen piece.entry) (rows_in piece.entry places.now)) result }
    ensures present { AnswersAs cells_of (present_over (map over (drop i exprs.now.items)) (seen piece.entry) (rows_in piece.entry places.now)) result }
{
    if i < exprs.len() {
        eval_over(alloc, &exprs[i], piece, places)
    } else {
        literal_over(&Value::Null(Ty::Long), piece, places)
    }
}

// The first values that are neither null nor empty, or else the last values.
#[cycle(eval)]
fn eval_present<'a>(
    alloc: Global,
    exprs: &Vec<Expr>,
    piece: Piece<'a, '_>,
    places: &[usize],
) -> Result<Vector<'a>, EvalFault>
    ensures { AnswersAs cells_of (present_over (map over exprs.now.items) (seen piece.entry) (rows_in piece.entry places.now)) result }
{
    let mut left = places.to_vec(alloc)?;
    let mut branches = Vec::new(alloc);
    let mut i = 0;
    while i + 1 < exprs.len() {
        let values = eval_over(alloc, &exprs[i], piece, &left)?;
        let branch = present_branch(alloc, values)?;
        left = put_branch(alloc, &mut branches, branch, piece.columns, &left)?;
        i += 1;
    }
    eval_rest(alloc, branches, exprs, i, piece, &left)
}
