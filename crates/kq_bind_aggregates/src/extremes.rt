// The least and the greatest.
ghost use Rattle.std.specs.Prelude.{◌≡◌, [], map, IfOk};
ghost use Rattle.std.specs.Option.{option_map, option_and_then};
ghost use Rattle.kq_bind_aggregates.specs.Arguments.{only as the_only, several as the_several};
ghost use Rattle.kq_bind_aggregates.specs.Made as the;
ghost use Rattle.kq_bind_aggregates.specs.Seen.{given_of, aggregated_of};
ghost use Rattle.kq_plan_expressions.specs.Terms.{term_of};
ghost use Rattle.kq_plan.specs.Plans.{aggregating_of};

use crate::arguments::{Given, column_number, only, several, with_arguments};
use crate::columns::{behind, column_name, one_column, own_name};
use crate::made::Aggregated;
use kq_bind_columns::columns_at;
use kq_plan::Aggregate;
use kq_plan_expressions::Expr;
use kq_value::{Field, Memory, Ty};
use std::alloc::Global;

/// An end of an order.
#[derive(Clone, Copy)]
pub enum Extreme {
    Least,
    Greatest,
}

fn base_of(end: Extreme) -> &'static str
    ensures { result.now ≡ the.base_of end }
{
    match end {
        Extreme::Least => "min_",
        Extreme::Greatest => "max_",
    }
}

fn unless_dynamic(ty: Ty) -> Option<Ty>
    ensures { result ≡ the.unless_dynamic ty }
{
    match ty {
        Ty::Dynamic => None,
        _ => Some(ty),
    }
}

fn value_at(end: Extreme, value: Expr) -> Aggregate
    ensures { aggregating_of result ≡ the.value_at end (term_of value) }
{
    match end {
        Extreme::Least => Aggregate::Min(value),
        Extreme::Greatest => Aggregate::Max(value),
    }
}

fn row_at(end: Extreme, value: Expr, beside: Vec<usize>) -> Aggregate
    ensures { aggregating_of result ≡ the.row_at end (term_of value) beside.items }
{
    match end {
        Extreme::Least => Aggregate::ArgMin(value, beside),
        Extreme::Greatest => Aggregate::ArgMax(value, beside),
    }
}

/// `min` and `max`: of anything but a dynamic.
pub fn extreme_value(
    alloc: Global,
    end: Extreme,
    columns: &[Field],
    given: Given,
) -> Result<Option<Aggregated>, Memory>
    ensures { IfOk result (λ m. option_map aggregated_of m ≡ option_and_then (the.value_made end columns.now) (the_only (given_of given))) }
{
    let Some(value) = only(given) else {
        return Ok(None);
    };
    let Some(ty) = unless_dynamic(value.ty) else {
        return Ok(None);
    };
    let name = behind(alloc, base_of(end), column_name(columns, &value.expr))?;
    Ok(Some(Aggregated {
        aggregate: value_at(end, value.expr),
        columns: one_column(alloc, name, ty)?,
    }))
}

/// `arg_max` and `arg_min`: the value is anything but a dynamic, and what stands beside it are columns.
pub fn extreme_row(
    alloc: Global,
    end: Extreme,
    columns: &[Field],
    starred: &[usize],
    given: Given,
) -> Result<Option<Aggregated>, Memory>
    ensures { IfOk result (λ m. option_map aggregated_of m ≡ option_and_then (the.row_made end columns.now starred.now) (the_several (given_of given))) }
{
    let Some((value, others)) = several(given) else {
        return Ok(None);
    };
    let Some(ty) = unless_dynamic(value.ty) else {
        return Ok(None);
    };
    let own = column_number(&value.expr);
    let Some(beside) = with_arguments(starred, own, Vec::new(alloc), &others)? else {
        return Ok(None);
    };
    let name = own_name(alloc, base_of(end), column_name(columns, &value.expr))?;
    let mut made = columns_at(alloc, columns, &beside)?;
    made.insert(0, Field { name, ty })?;
    Ok(Some(Aggregated {
        aggregate: row_at(end, value.expr, beside),
        columns: made,
    }))
}
