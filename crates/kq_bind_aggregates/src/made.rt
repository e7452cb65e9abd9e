// What an aggregate makes of its arguments.
ghost use Rattle.std.specs.Prelude.{◌≡◌, ◌∷◌, [], map, IfOk, Ok};
ghost use Rattle.std.specs.Option.{option_map, option_and_then};
ghost use Rattle.kq_bind_aggregates.specs.Arguments.{only as the_only};
ghost use Rattle.kq_bind_aggregates.specs.declared.function.AggregateFunction.TheVariants as aggregate;
ghost use Rattle.kq_bind_aggregates.specs.Made as the;
ghost use Rattle.kq_bind_aggregates.specs.Seen.{argued_of, given_of, aggregated_of};

use crate::arguments::{Given, only, with_argument, with_arguments};
use crate::columns::{behind, column_name, one_column};
use crate::extremes::{Extreme, extreme_row, extreme_value};
use crate::function::AggregateFunction;
use crate::sets::most_given;
use kq_bind_columns::columns_at;
use kq_bind_expressions::taken;
use kq_plan::Aggregate;
use kq_value::{Field, Memory, Text, Ty};
use std::alloc::Global;

/// What an aggregate does, and the columns that it makes, before their names are made free.
#[derive(Drop)]
pub struct Aggregated {
    pub aggregate: Aggregate,
    pub columns: Vec<Field>,
}

/// What a function makes of its arguments, where it takes them; `*` stands for the starred columns.
pub fn made(
    alloc: Global,
    function: AggregateFunction,
    columns: &[Field],
    starred: &[usize],
    given: Given,
) -> Result<Option<Aggregated>, Memory>
    ensures { IfOk result (λ m. option_map aggregated_of m ≡ the.made function columns.now starred.now (given_of given)) }
{
    match function {
        AggregateFunction::Count => count(alloc, columns, starred, given),
        AggregateFunction::Sum => sum(alloc, columns, given),
        AggregateFunction::Min => extreme_value(alloc, Extreme::Least, columns, given),
        AggregateFunction::Max => extreme_value(alloc, Extreme::Greatest, columns, given),
        AggregateFunction::ArgMax => {
            extreme_row(alloc, Extreme::Greatest, columns, starred, given)
        }
        AggregateFunction::ArgMin => extreme_row(alloc, Extreme::Least, columns, starred, given),
        AggregateFunction::TakeAny => any(alloc, columns, starred, given),
        AggregateFunction::MakeSet => set(alloc, columns, starred, given),
    }
}

fn count(
    alloc: Global,
    columns: &[Field],
    starred: &[usize],
    given: Given,
) -> Result<Option<Aggregated>, Memory>
    ensures { IfOk result (λ m. option_map aggregated_of m ≡ the.made aggregate.Count columns.now starred.now (given_of given)) }
{
    match given {
        Given::Nothing => {
            let name = Text::from_str(alloc, "count_")?;
            Ok(Some(Aggregated {
                aggregate: Aggregate::Count,
                columns: one_column(alloc, name, Ty::Long)?,
            }))
        }
        Given::From(_, _) => Ok(None),
    }
}

fn sum_type(ty: Ty) -> Option<Ty>
    ensures { result ≡ the.sum_type ty }
{
    match ty {
        Ty::Long | Ty::Int => Some(Ty::Long),
        Ty::Span => Some(Ty::Span),
        _ => None,
    }
}

// An int is added as the long of its value.
fn sum(alloc: Global, columns: &[Field], given: Given) -> Result<Option<Aggregated>, Memory>
    ensures { IfOk result (λ m. option_map aggregated_of m ≡ option_and_then (the.sum_made columns.now) (the_only (given_of given))) }
{
    let Some(value) = only(given) else {
        return Ok(None);
    };
    let Some(ty) = sum_type(value.ty) else {
        return Ok(None);
    };
    let name = behind(alloc, "sum_", column_name(columns, &value.expr))?;
    Ok(Some(Aggregated {
        aggregate: Aggregate::Sum(taken(alloc, value, true)?),
        columns: one_column(alloc, name, ty)?,
    }))
}

fn any(
    alloc: Global,
    columns: &[Field],
    starred: &[usize],
    given: Given,
) -> Result<Option<Aggregated>, Memory>
    ensures { IfOk result (λ m. option_map aggregated_of m ≡ the.made aggregate.TakeAny columns.now starred.now (given_of given)) }
{
    match given {
        Given::Nothing => Ok(None),
        Given::From(first, others) => {
            let Some(numbers) = with_argument(starred, None, Vec::new(alloc), &first)? else {
                return Ok(None);
            };
            let Some(numbers) = with_arguments(starred, None, numbers, &others)? else {
                return Ok(None);
            };
            let made = columns_at(alloc, columns, &numbers)?;
            Ok(Some(Aggregated {
                aggregate: Aggregate::TakeAny(numbers),
                columns: made,
            }))
        }
    }
}

fn set(
    alloc: Global,
    columns: &[Field],
    starred: &[usize],
    given: Given,
) -> Result<Option<Aggregated>, Memory>
    ensures { IfOk result (λ m. option_map aggregated_of m ≡ the.made aggregate.MakeSet columns.now starred.now (given_of given)) }
{
    match given {
        Given::From(first, others) => {
            let Some(value) = first else {
                return Ok(None);
            };
            let Some(most) = most_given(&others) else {
                return Ok(None);
            };
            let name = behind(alloc, "set_", column_name(columns, &value.expr))?;
            Ok(Some(Aggregated {
                aggregate: Aggregate::MakeSet(value.expr, most),
                columns: one_column(alloc, name, Ty::Dynamic)?,
            }))
        }
        Given::Nothing => Ok(None),
    }
}
