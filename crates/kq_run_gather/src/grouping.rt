// Groups of rows, and what aggregates make of them.
ghost use Rattle.std.specs.Prelude.{◌≡◌, ◌+◌, ◌++◌, ◌∷◌, [], IfOk, IfSome, drop, length, map};
ghost use Rattle.kq_value.specs.Computed.{AnswersAs, Is, each};
ghost use Rattle.kq_plan_expressions.specs.Terms.{Term, column, term_of};
ghost use Rattle.kq_run_groups.specs.Arguments.{rows_given, rows_in};
ghost use Rattle.kq_run_groups.specs.Groups.{HasAllGroups, Starts};
ghost use Rattle.kq_plan.specs.Fits.{ty_of};
ghost use Rattle.kq_plan.specs.Plans.{aggregating_of};
ghost use Rattle.kq_run_scan.specs.kq_eval_row.Val.{meaning, surroundings};
ghost use Rattle.kq_store_column_view.specs.Vectors.{cells_of};
ghost use Rattle.kq_run_gather.specs.Grouping.{ComeTo, TakesAlone, all_made, arguments_over, column_over, columns_made, columns_taken, one_argument, terms_read, terms_taken, under};

use kq_plan::Aggregate;
use kq_plan_expressions::Expr;
use kq_run_aggregates::Kind;
use kq_run_groups::{Aggregated, Argument, Groups};
use kq_run_scan::{Relation, Vector, vector_over};
use kq_value::{EvalFault, Field, Memory, Ty, Value};
use std::alloc::Global;
use std::slice::from_ref;

// ---- a piece of rows

/// Takes in a piece of rows, where no key and no argument overflows on one of them. After a refusal the groups are to be dropped.
pub fn add_piece<R: Relation>(
    alloc: Global,
    groups: &mut Groups,
    piece: &R,
    keys: &[Expr],
    aggregates: &[Aggregate],
    lets: &[Value],
    now: i64,
) -> Result<(), EvalFault>
    requires whole { HasAllGroups groups.old }
    requires width { groups.old.width ≡ length keys.now }
    requires each { length groups.old.states ≡ length aggregates.now }
    ensures { ComeTo (map term_of keys.now) (map aggregating_of aggregates.now) (surroundings now lets.now) (R.rows piece.now) groups.old groups.new result }
{
    match keys {
        [] => add_without_keys(alloc, groups, piece, aggregates, lets, now),
        [key] => add_by_column(alloc, groups, piece, key, aggregates, lets, now),
        _ => add_by_columns(alloc, groups, piece, keys, aggregates, lets, now),
    }
}

// By no key, so that all rows come to one group.
fn add_without_keys<R: Relation>(
    alloc: Global,
    groups: &mut Groups,
    piece: &R,
    aggregates: &[Aggregate],
    lets: &[Value],
    now: i64,
) -> Result<(), EvalFault>
    requires whole { HasAllGroups groups.old }
    requires width { groups.old.width ≡ 0 }
    requires each { length groups.old.states ≡ length aggregates.now }
    ensures { ComeTo [] (map aggregating_of aggregates.now) (surroundings now lets.now) (R.rows piece.now) groups.old groups.new result }
{
    match all_arguments(alloc, piece, aggregates, lets, now) {
        Ok(args) => Ok(groups.add_without_keys(alloc, piece.len(), args.as_slice())?),
        Err(fault) => Err(fault),
    }
}

// By one key, whose values are a column.
fn add_by_column<R: Relation>(
    alloc: Global,
    groups: &mut Groups,
    piece: &R,
    key: &Expr,
    aggregates: &[Aggregate],
    lets: &[Value],
    now: i64,
) -> Result<(), EvalFault>
    requires whole { HasAllGroups groups.old }
    requires width { groups.old.width ≡ 1 }
    requires each { length groups.old.states ≡ length aggregates.now }
    ensures { ComeTo (term_of key.now ∷ []) (map aggregating_of aggregates.now) (surroundings now lets.now) (R.rows piece.now) groups.old groups.new result }
{
    match vector_over(alloc, piece, key, lets, now) {
        Ok(values) => add_by_values(alloc, groups, piece, &values, aggregates, lets, now),
        Err(fault) => Err(fault),
    }
}

// The same, with the values of the key at hand.
fn add_by_values<R: Relation>(
    alloc: Global,
    groups: &mut Groups,
    piece: &R,
    values: &Vector,
    aggregates: &[Aggregate],
    lets: &[Value],
    now: i64,
) -> Result<(), EvalFault>
    requires whole { HasAllGroups groups.old }
    requires width { groups.old.width ≡ 1 }
    requires each { length groups.old.states ≡ length aggregates.now }
    requires along { length (cells_of values.now) ≡ length (R.rows piece.now) }
    ensures { (e : Term) → each (meaning e (surroundings now lets.now)) (R.rows piece.now) ≡ Is (cells_of values.now) → ComeTo (e ∷ []) (map aggregating_of aggregates.now) (surroundings now lets.now) (R.rows piece.now) groups.old groups.new result }
{
    match all_arguments(alloc, piece, aggregates, lets, now) {
        Ok(args) => Ok(groups.add_column(alloc, values, args.as_slice())?),
        Err(fault) => Err(fault),
    }
}

// By several keys, whose values are a column each.
fn add_by_columns<R: Relation>(
    alloc: Global,
    groups: &mut Groups,
    piece: &R,
    keys: &[Expr],
    aggregates: &[Aggregate],
    lets: &[Value],
    now: i64,
) -> Result<(), EvalFault>
    requires whole { HasAllGroups groups.old }
    requires width { groups.old.width ≡ length keys.now }
    requires each { length groups.old.states ≡ length aggregates.now }
    ensures { ComeTo (map term_of keys.now) (map aggregating_of aggregates.now) (surroundings now lets.now) (R.rows piece.now) groups.old groups.new result }
{
    match all_values(alloc, piece, keys, lets, now) {
        Ok(columns) => match all_arguments(alloc, piece, aggregates, lets, now) {
            Ok(args) => {
                let columns = columns.as_slice();
                Ok(groups.add_columns(alloc, columns, piece.len(), args.as_slice())?)
            }
            Err(fault) => Err(fault),
        },
        Err(fault) => Err(fault),
    }
}

// For each expression its values over the rows.
fn all_values<'a, R: Relation>(
    alloc: Global,
    rows: &'a R,
    exprs: &[Expr],
    lets: &[Value],
    now: i64,
) -> Result<Vec<Vector<'a>>, EvalFault>
    ensures { AnswersAs (λ columns. map cells_of columns.items) (each (column_over (surroundings now lets.now) (R.rows rows.now)) (map term_of exprs.now)) result }
{
    let mut columns = Vec::with_capacity(alloc, exprs.len())?;
    for expr in exprs {
        columns.push(vector_over(alloc, rows, expr, lets, now)?)?;
    }
    Ok(columns)
}

// ---- the arguments of aggregates

// For each aggregate its arguments over the rows.
fn all_arguments<'a, R: Relation>(
    alloc: Global,
    rows: &'a R,
    aggregates: &[Aggregate],
    lets: &[Value],
    now: i64,
) -> Result<Vec<Argument<'a>>, EvalFault>
    ensures { AnswersAs (λ args. rows_given (length (R.rows rows.now)) args.items) (each (arguments_over (surroundings now lets.now) (R.rows rows.now)) (map aggregating_of aggregates.now)) result }
{
    let mut args = Vec::with_capacity(alloc, aggregates.len())?;
    for aggregate in aggregates {
        args.push(argument(alloc, rows, aggregate, lets, now)?)?;
    }
    Ok(args)
}

fn argument<'a, R: Relation>(
    alloc: Global,
    rows: &'a R,
    aggregate: &Aggregate,
    lets: &[Value],
    now: i64,
) -> Result<Argument<'a>, EvalFault>
    ensures { AnswersAs (rows_in (length (R.rows rows.now))) (arguments_over (surroundings now lets.now) (R.rows rows.now) (aggregating_of aggregate.now)) result }
{
    match value_in(aggregate) {
        Some(expr) => column_argument(alloc, rows, expr, lets, now),
        None => other_argument(alloc, rows, aggregate, lets, now),
    }
}

// The expression of an aggregate that takes its value and nothing else.
fn value_in(aggregate: &Aggregate) -> Option<&Expr>
    ensures { IfSome result (λ expr. TakesAlone (term_of expr.now) (aggregating_of aggregate.now)) }
{
    match aggregate {
        Aggregate::Sum(expr)
        | Aggregate::Min(expr)
        | Aggregate::Max(expr)
        | Aggregate::MakeSet(expr, _) => Some(expr),
        _ => None,
    }
}

fn column_argument<'a, R: Relation>(
    alloc: Global,
    rows: &'a R,
    expr: &Expr,
    lets: &[Value],
    now: i64,
) -> Result<Argument<'a>, EvalFault>
    ensures { AnswersAs (rows_in (length (R.rows rows.now))) (one_argument (term_of expr.now) (surroundings now lets.now) (R.rows rows.now)) result }
{
    match vector_over(alloc, rows, expr, lets, now) {
        Ok(values) => Ok(Argument::Column(values)),
        Err(fault) => Err(fault),
    }
}

fn other_argument<'a, R: Relation>(
    alloc: Global,
    rows: &'a R,
    aggregate: &Aggregate,
    lets: &[Value],
    now: i64,
) -> Result<Argument<'a>, EvalFault>
    ensures { AnswersAs (rows_in (length (R.rows rows.now))) (arguments_over (surroundings now lets.now) (R.rows rows.now) (aggregating_of aggregate.now)) result }
{
    match aggregate {
        Aggregate::Count => Ok(Argument::Nothing),
        _ => row_argument(alloc, rows, aggregate, lets, now),
    }
}

fn row_argument<'a, R: Relation>(
    alloc: Global,
    rows: &'a R,
    aggregate: &Aggregate,
    lets: &[Value],
    now: i64,
) -> Result<Argument<'a>, EvalFault>
    ensures { AnswersAs (rows_in (length (R.rows rows.now))) (arguments_over (surroundings now lets.now) (R.rows rows.now) (aggregating_of aggregate.now)) result }
{
    match arguments(alloc, rows, aggregate, lets, now) {
        Ok(columns) => Ok(Argument::Columns(columns)),
        Err(fault) => Err(fault),
    }
}

// The values of an aggregate's expressions over the rows, and behind them the columns whose cells it takes.
fn arguments<'a, R: Relation>(
    alloc: Global,
    rows: &'a R,
    aggregate: &Aggregate,
    lets: &[Value],
    now: i64,
) -> Result<Vec<Vector<'a>>, EvalFault>
    ensures { AnswersAs (λ columns. map cells_of columns.items) (each (column_over (surroundings now lets.now) (R.rows rows.now)) (terms_read (aggregating_of aggregate.now))) result }
{
    match all_values(alloc, rows, exprs_in(aggregate), lets, now) {
        Ok(values) => match all_columns(alloc, rows, columns_in(aggregate), lets, now) {
            Ok(columns) => Ok(joined(values, columns)?),
            Err(fault) => Err(fault),
        },
        Err(fault) => Err(fault),
    }
}

fn joined<'a>(columns: Vec<Vector<'a>>, more: Vec<Vector<'a>>) -> Result<Vec<Vector<'a>>, Memory>
    ensures { IfOk result (λ all. map cells_of all.items ≡ map cells_of columns.entry.items ++ map cells_of more.entry.items) }
{
    let mut all = columns;
    let mut more = more;
    all.append(&mut more)?;
    Ok(all)
}

// The expressions whose values an aggregate takes.
fn exprs_in(aggregate: &Aggregate) -> &[Expr]
    ensures { map term_of result.now ≡ terms_taken (aggregating_of aggregate.now) }
{
    match aggregate {
        Aggregate::Sum(expr)
        | Aggregate::Min(expr)
        | Aggregate::Max(expr)
        | Aggregate::ArgMax(expr, _)
        | Aggregate::ArgMin(expr, _)
        | Aggregate::MakeSet(expr, _) => from_ref(expr),
        Aggregate::Count | Aggregate::TakeAny(_) => &[],
    }
}

// The columns whose cells it takes.
fn columns_in(aggregate: &Aggregate) -> &[usize]
    ensures { result.now ≡ columns_taken (aggregating_of aggregate.now) }
{
    match aggregate {
        Aggregate::ArgMax(_, columns)
        | Aggregate::ArgMin(_, columns)
        | Aggregate::TakeAny(columns) => columns.as_slice(),
        Aggregate::Count
        | Aggregate::Sum(_)
        | Aggregate::Min(_)
        | Aggregate::Max(_)
        | Aggregate::MakeSet(_, _) => &[],
    }
}

// These columns of the rows.
fn all_columns<'a, R: Relation>(
    alloc: Global,
    rows: &'a R,
    numbers: &[usize],
    lets: &[Value],
    now: i64,
) -> Result<Vec<Vector<'a>>, EvalFault>
    ensures { AnswersAs (λ columns. map cells_of columns.items) (each (column_over (surroundings now lets.now) (R.rows rows.now)) (map column numbers.now)) result }
{
    let mut columns = Vec::with_capacity(alloc, numbers.len())?;
    for number in numbers {
        columns.push(one_column(alloc, rows, *number, lets, now)?)?;
    }
    Ok(columns)
}

fn one_column<'a, R: Relation>(
    alloc: Global,
    rows: &'a R,
    number: usize,
    lets: &[Value],
    now: i64,
) -> Result<Vector<'a>, EvalFault>
    ensures { AnswersAs cells_of (column_over (surroundings now lets.now) (R.rows rows.now) (column number)) result }
{
    let expr = Expr::Column(number);
    vector_over(alloc, rows, &expr, lets, now)
}

// ---- the columns of aggregates

// Groups of no rows, by so many keys. The columns of the aggregates stand behind those of the keys.
pub(crate) fn fresh(
    alloc: Global,
    width: usize,
    aggregates: &[Aggregate],
    columns: &[Field],
) -> Result<Groups, Memory>
    requires { length columns.now ≡ width + all_made (map aggregating_of aggregates.now) }
    ensures { IfOk result (Starts width (under (map aggregating_of aggregates.now) (map ty_of (drop width columns.now)))) }
{
    let made = typed(alloc, aggregates, &columns[width..])?;
    Groups::new(alloc, width, made.as_slice())
}

/// The aggregates beside the types of their columns.
pub fn typed(
    alloc: Global,
    aggregates: &[Aggregate],
    columns: &[Field],
) -> Result<Vec<Aggregated>, Memory>
    requires { length columns.now ≡ all_made (map aggregating_of aggregates.now) }
    ensures { IfOk result (λ made. made.items ≡ under (map aggregating_of aggregates.now) (map ty_of columns.now)) }
{
    let mut made = Vec::with_capacity(alloc, aggregates.len())?;
    let mut rest = columns;
    for aggregate in aggregates {
        let (own, others) = rest.split_at(columns_made(aggregate));
        made.push(Aggregated {
            kind: Kind::of(aggregate),
            types: types_of(alloc, own)?,
        })?;
        rest = others;
    }
    Ok(made)
}

// How many columns an aggregate has.
fn columns_made(aggregate: &Aggregate) -> usize
    ensures { result ≡ columns_made (aggregating_of aggregate.now) }
{
    match aggregate {
        Aggregate::ArgMax(_, columns) | Aggregate::ArgMin(_, columns) => columns.len() + 1,
        Aggregate::TakeAny(columns) => columns.len(),
        Aggregate::Count
        | Aggregate::Sum(_)
        | Aggregate::Min(_)
        | Aggregate::Max(_)
        | Aggregate::MakeSet(_, _) => 1,
    }
}

fn types_of(alloc: Global, columns: &[Field]) -> Result<Vec<Ty>, Memory>
    ensures { IfOk result (λ types. types.items ≡ map ty_of columns.now) }
{
    let mut types = Vec::with_capacity(alloc, columns.len())?;
    for column in columns {
        types.push(column.ty)?;
    }
    Ok(types)
}
