// Columns that are chosen by their names.
ghost use Rattle.std.specs.Prelude.{◌≡◌, false, [], ◌∷◌, IfOk, map, slice_get};
ghost use Rattle.kq_bind_columns.specs.Chosen.{has_number as the_has_number, choose as the_choose, place_in as the_place_in, chosen as the_chosen, all_chosen as the_all_chosen, columns_at as the_columns_at, without as the_without};
ghost use Rattle.kq_bind_columns.specs.Made.{columns_of};
ghost use Rattle.kq_bind_expressions.specs.Verdicts.{AnswersVerdict, and_then};
ghost use Rattle.kq_bind_expressions.specs.kq_read_meanings.Names.{name_place as place_of};

use crate::laying::{Laid, column};
use kq_bind_expressions::{BindFault, first_named, name_place, name_text};
use kq_read_grammar::Name;
use kq_value::{Field, Memory, Ty};
use std::alloc::Global;

fn has_number(numbers: &[usize], number: usize) -> bool
    ensures { result ≡ the_has_number numbers.now number }
{
    numbers.contains(&number)
}

/// The number, from 0, and the type of the column that the name names, or Unknown at the name.
pub fn place_in(
    alloc: Global,
    text: &str,
    columns: &[Field],
    name: Name,
) -> Result<(usize, Ty), BindFault>
    ensures { AnswersVerdict (λ p. p) (the_place_in text.now columns.now name) result }
{
    let said = name_text(alloc, text, name)?;
    match first_named(columns, said.as_str()) {
        Some(found) => Ok(found),
        None => Err(BindFault::Unknown {
            at: name_place(name),
        }),
    }
}

fn choose(
    before: Vec<usize>,
    keys: bool,
    at: usize,
    number: usize,
    ty: Ty,
) -> Result<Vec<usize>, BindFault>
    ensures { AnswersVerdict (λ v. v.items) (the_choose keys at before.items (number, ty)) result }
{
    if has_number(&before, number) || (keys && ty.same(Ty::Dynamic)) {
        return Err(BindFault::Mistyped { at });
    }
    let mut numbers = before;
    numbers.push(number)?;
    Ok(numbers)
}

fn also_chosen(
    alloc: Global,
    text: &str,
    columns: &[Field],
    keys: bool,
    before: Vec<usize>,
    name: Name,
) -> Result<Vec<usize>, BindFault>
    ensures { AnswersVerdict (λ v. v.items) (and_then (the_place_in text.now columns.now name) (the_choose keys (place_of name) before.items)) result }
{
    let (number, ty) = place_in(alloc, text, columns, name)?;
    choose(before, keys, name_place(name), number, ty)
}

/// The numbers, from 0, of the columns that the names name, in the order of the names: for `distinct`, with `keys`, and for `project-away`. A name of
/// no column is Unknown; one of a column that is chosen before, or with `keys` of a dynamic, is Mistyped, each at the name.
pub fn chosen(
    alloc: Global,
    text: &str,
    columns: &[Field],
    keys: bool,
    first: Name,
    others: &[Name],
) -> Result<Vec<usize>, BindFault>
    ensures { AnswersVerdict (λ v. v.items) (the_chosen text.now columns.now keys [] (first ∷ others.now)) result }
{
    let mut numbers = also_chosen(alloc, text, columns, keys, Vec::new(alloc), first)?;
    for name in others {
        numbers = also_chosen(alloc, text, columns, keys, numbers, *name)?;
    }
    Ok(numbers)
}

/// The same of the second name of each pair: for `project-rename`, whose first names are the new ones.
pub fn chosen_by_second(
    alloc: Global,
    text: &str,
    columns: &[Field],
    first: (Name, Name),
    others: &[(Name, Name)],
) -> Result<Vec<usize>, BindFault>
    ensures { AnswersVerdict (λ v. v.items) (the_chosen text.now columns.now false [] (first.1 ∷ map (λ p. p.1) others.now)) result }
{
    let mut numbers = also_chosen(alloc, text, columns, false, Vec::new(alloc), first.1)?;
    for pair in others {
        numbers = also_chosen(alloc, text, columns, false, numbers, pair.1)?;
    }
    Ok(numbers)
}

/// The numbers of all columns, from 0, for `distinct *`. Where one is a dynamic, Mistyped at this place.
pub fn all_chosen(alloc: Global, at: usize, columns: &[Field]) -> Result<Vec<usize>, BindFault>
    ensures { AnswersVerdict (λ v. v.items) (the_all_chosen at 0 columns.now) result }
{
    let mut numbers = Vec::new(alloc);
    for i in 0..columns.len() {
        if columns[i].ty.same(Ty::Dynamic) {
            return Err(BindFault::Mistyped { at });
        }
        numbers.push(i)?;
    }
    Ok(numbers)
}

fn column_at(alloc: Global, columns: &[Field], number: usize) -> Result<Option<Field>, Memory>
    ensures { IfOk result (λ o. o ≡ slice_get columns.now number) }
{
    match columns.get(number) {
        Some(column) => Ok(Some(column.clone_in()?)),
        None => Ok(None),
    }
}

/// The columns of these numbers, in their order; a number past the last has none.
pub fn columns_at(alloc: Global, columns: &[Field], numbers: &[usize]) -> Result<Vec<Field>, Memory>
    ensures { IfOk result (λ v. v.items ≡ the_columns_at columns.now numbers.now) }
{
    let mut fields = Vec::new(alloc);
    for number in numbers {
        let Some(column) = column_at(alloc, columns, *number)? else {
            continue;
        };
        fields.push(column)?;
    }
    Ok(fields)
}

/// The columns but those of these numbers.
pub fn without(alloc: Global, columns: &[Field], numbers: &[usize]) -> Result<Laid, Memory>
    ensures { IfOk result (λ l. columns_of l ≡ the_without 0 columns.now numbers.now) }
{
    let mut exprs = Vec::new(alloc);
    let mut fields = Vec::new(alloc);
    for i in 0..columns.len() {
        if has_number(numbers, i) {
            continue;
        }
        exprs.push(column(i))?;
        fields.push(columns[i].clone_in()?)?;
    }
    Ok(Laid { exprs, fields })
}
