// Finding names.
ghost use Rattle.std.specs.Prelude.{◌≡◌};
ghost use Rattle.std.specs.Option.{option_map};
ghost use Rattle.kq_bind_expressions.specs.Lookup.{first_named as the_first_named, meant as the_meant, named as the_named};
ghost use Rattle.kq_bind_expressions.specs.Names.{names_of};
ghost use Rattle.kq_bind_expressions.specs.Verdicts.{AnswersVerdict};
ghost use Rattle.kq_plan_expressions.specs.Terms.{typed_of};

use crate::fault::BindFault;
use crate::scope::Scope;
use kq_plan_expressions::{Expr, Typed};
use kq_read_grammar::Name;
use kq_read_meanings::{name_place, name_text, piece};
use kq_value::{Field, Ty};
use std::alloc::Global;

/// What a name stands for: a column, else a scalar let. Only a name in brackets takes memory.
pub fn named(
    alloc: Global,
    scope: &Scope,
    columns: &[Field],
    name: Name,
) -> Result<Typed, BindFault>
    ensures { AnswersVerdict typed_of (the_named (names_of scope.now) columns.now name) result }
{
    let found = match name {
        Name::Word(symbol) => meant(scope, columns, piece(scope.text, symbol)),
        Name::Bracketed { .. } => {
            let text = name_text(alloc, scope.text, name)?;
            meant(scope, columns, text.as_str())
        }
    };
    match found {
        Some(found) => Ok(found),
        None => Err(BindFault::Unknown {
            at: name_place(name),
        }),
    }
}

fn meant(scope: &Scope, columns: &[Field], name: &str) -> Option<Typed>
    ensures { option_map typed_of result ≡ the_meant (names_of scope.now) columns.now name.now }
{
    match first_named(columns, name) {
        Some((number, ty)) => Some(Typed {
            expr: Expr::Column(number),
            ty,
        }),
        None => match first_named(scope.lets, name) {
            Some((number, ty)) => Some(Typed {
                expr: Expr::Cell(number),
                ty,
            }),
            None => None,
        },
    }
}

/// The number, from 0, and the type of the first of these that has this name.
pub fn first_named(fields: &[Field], name: &str) -> Option<(usize, Ty)>
    ensures { result ≡ the_first_named 0 fields.now name.now }
{
    for i in 0..fields.len() {
        let field = &fields[i];
        if field.name.as_str() == name {
            return Some((i, field.ty));
        }
    }
    None
}
