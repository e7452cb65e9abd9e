// Columns laid over others.
ghost use Rattle.std.specs.Prelude.{◌≡◌, IfOk, map, slice_set};
ghost use Rattle.std.specs.List.{zip};
ghost use Rattle.kq_bind_columns.specs.Laying.{as_they_are as the_as_they_are, laid as the_laid, all_laid as the_all_laid, over as the_over};
ghost use Rattle.kq_bind_columns.specs.Made.{made_of, columns_of};
ghost use Rattle.kq_plan_expressions.specs.Terms.{term_of, column as the_column};

use crate::items::Made;
use kq_bind_expressions::first_named;
use kq_plan_expressions::Expr;
use kq_value::{Field, Memory};
use std::alloc::Global;

/// What each column is, over the columns that came, and the columns, one for each.
#[derive(Drop)]
pub struct Laid {
    pub exprs: Vec<Expr>,
    pub fields: Vec<Field>,
}

pub(crate) fn column(number: usize) -> Expr
    ensures { term_of result ≡ the_column number }
{
    Expr::Column(number)
}

/// Each column as it is.
pub fn as_they_are(alloc: Global, columns: &[Field]) -> Result<Vec<Expr>, Memory>
    ensures { IfOk result (λ v. map term_of v.items ≡ the_as_they_are 0 columns.now) }
{
    let mut exprs = Vec::new(alloc);
    for i in 0..columns.len() {
        exprs.push(column(i))?;
    }
    Ok(exprs)
}

fn with_expr(mut exprs: Vec<Expr>, number: usize, expr: Expr) -> Vec<Expr>
    ensures { map term_of result.items ≡ slice_set (map term_of exprs.items) number (term_of expr) }
{
    if number < exprs.len() {
        exprs[number] = expr;
        exprs
    } else {
        exprs
    }
}

fn with_field(mut fields: Vec<Field>, number: usize, field: Field) -> Vec<Field>
    ensures { result.items ≡ slice_set fields.items number field }
{
    if number < fields.len() {
        fields[number] = field;
    }
    fields
}

// In the place of the column of its name, or else last.
fn lay(columns: Laid, expr: Expr, field: Field) -> Result<Laid, Memory>
    ensures { IfOk result (λ l. columns_of l ≡ the_laid (columns_of columns) (term_of expr, field)) }
{
    let mut exprs = columns.exprs;
    let mut fields = columns.fields;
    match first_named(&fields, field.name.as_str()) {
        Some((number, _)) => Ok(Laid {
            exprs: with_expr(exprs, number, expr),
            fields: with_field(fields, number, field),
        }),
        None => {
            exprs.push(expr)?;
            fields.push(field)?;
            Ok(Laid { exprs, fields })
        }
    }
}

fn all_laid(before: Laid, exprs: Vec<Expr>, fields: Vec<Field>) -> Result<Laid, Memory>
    ensures { IfOk result (λ l. columns_of l ≡ the_all_laid (columns_of before) (zip (map term_of exprs.items) fields.items)) }
{
    let mut columns = before;
    for (expr, field) in exprs.into_iter().zip(fields) {
        columns = lay(columns, expr, field)?;
    }
    Ok(columns)
}

/// The columns with those that are made laid over them: one of a column's name takes its place, and another stands behind them all.
pub fn over(alloc: Global, columns: Vec<Field>, made: Made) -> Result<Laid, Memory>
    ensures { IfOk result (λ l. columns_of l ≡ the_over columns.items (made_of made)) }
{
    let columns = Laid {
        exprs: as_they_are(alloc, &columns)?,
        fields: columns,
    };
    all_laid(columns, made.exprs, made.fields)
}
