// Columns that an aggregate makes, and their names.
ghost use Rattle.std.specs.Prelude.{◌≡◌, IfOk};
ghost use Rattle.std.specs.Option.{option_map};
ghost use Rattle.kq_bind_aggregates.specs.Made as the;
ghost use Rattle.kq_bind_aggregates.specs.Seen.{text_of};
ghost use Rattle.kq_plan_expressions.specs.Terms.{term_of};

use crate::arguments::column_number;
use kq_plan_expressions::Expr;
use kq_value::{Field, Memory, Text, Ty};
use std::alloc::Global;

/// The name of the column that an expression is.
pub fn column_name<'a>(columns: &'a [Field], expr: &Expr) -> Option<&'a str>
    ensures { option_map text_of result ≡ the.column_name columns.now (term_of expr.now) }
{
    match column_number(expr) {
        Some(number) => match columns.get(number) {
            Some(column) => Some(column.name.as_str()),
            None => None,
        },
        None => None,
    }
}

/// The base, and behind it the column's name.
pub fn behind(alloc: Global, base: &str, column: Option<&str>) -> Result<Text, Memory>
    ensures { IfOk result (λ t. t ≡ the.behind base.now (option_map text_of column.entry)) }
{
    match column {
        Some(column) => {
            let mut name = String::from_str(alloc, base)?;
            name.push_str(column)?;
            Text::from_string(alloc, name)
        }
        None => Text::from_str(alloc, base),
    }
}

/// The column's own name, or else this.
pub fn own_name(alloc: Global, base: &str, column: Option<&str>) -> Result<Text, Memory>
    ensures { IfOk result (λ t. t ≡ the.own_name base.now (option_map text_of column.entry)) }
{
    match column {
        Some(column) => Text::from_str(alloc, column),
        None => Text::from_str(alloc, base),
    }
}

pub fn one_column(alloc: Global, name: Text, ty: Ty) -> Result<Vec<Field>, Memory>
    ensures { IfOk result (λ v. v.items ≡ the.one_column name ty) }
{
    let mut made = Vec::new(alloc);
    made.push(Field { name, ty })?;
    Ok(made)
}
