// New names of columns.
ghost use Rattle.std.specs.Prelude.{◌≡◌, ◌∷◌, IfOk, map};
ghost use Rattle.kq_bind_columns.specs.Chosen.{names_given as the_names_given, new_name as the_new_name, renamed as the_renamed};
ghost use Rattle.kq_bind_expressions.specs.Verdicts.{AnswersVerdict};

use crate::naming::is_taken;
use kq_bind_expressions::{BindFault, name_place, name_text};
use kq_read_grammar::Name;
use kq_value::{Field, Memory, Text, Ty};
use std::alloc::Global;

fn first_names(
    alloc: Global,
    first: (Name, Name),
    others: &[(Name, Name)],
) -> Result<Vec<Name>, Memory>
    ensures { IfOk result (λ v. v.items ≡ first.0 ∷ map (λ p. p.0) others.now) }
{
    let mut names = Vec::new(alloc);
    names.push(first.0)?;
    for pair in others {
        names.push(pair.0)?;
    }
    Ok(names)
}

fn all_given(
    alloc: Global,
    text: &str,
    kept: Vec<Field>,
    names: &[Name],
) -> Result<Vec<Text>, BindFault>
    ensures { AnswersVerdict (λ v. v.items) (the_names_given text.now kept.items names.now) result }
{
    let mut taken = kept;
    let mut given = Vec::new(alloc);
    for name in names {
        let said = name_text(alloc, text, *name)?;
        if is_taken(&taken, said.as_str()) {
            return Err(BindFault::Mistyped {
                at: name_place(*name),
            });
        }
        taken.push(Field {
            name: said.clone_in()?,
            ty: Ty::Long,
        })?;
        given.push(said)?;
    }
    Ok(given)
}

/// What the first name of each pair says, beside the columns that keep their names: for `project-rename`. The first of them that is such a column's
/// name, or that of a pair before it, is Mistyped.
pub fn names_given(
    alloc: Global,
    text: &str,
    kept: Vec<Field>,
    first: (Name, Name),
    others: &[(Name, Name)],
) -> Result<Vec<Text>, BindFault>
    ensures { AnswersVerdict (λ v. v.items) (the_names_given text.now kept.items (first.0 ∷ map (λ p. p.0) others.now)) result }
{
    let names = first_names(alloc, first, others)?;
    all_given(alloc, text, kept, &names)
}

fn new_name(numbers: &[usize], names: &[Text], number: usize, old: &Text) -> Result<Text, Memory>
    ensures { IfOk result (λ t. t ≡ the_new_name numbers.now names.now number old.now) }
{
    for i in 0..numbers.len() {
        if i >= names.len() {
            return old.clone_in();
        }
        if numbers[i] == number {
            return names[i].clone_in();
        }
    }
    old.clone_in()
}

/// The columns, where each of these numbers has the name of its place, and another keeps its own.
pub fn renamed(
    alloc: Global,
    columns: &[Field],
    numbers: &[usize],
    names: &[Text],
) -> Result<Vec<Field>, Memory>
    ensures { IfOk result (λ v. v.items ≡ the_renamed 0 columns.now numbers.now names.now) }
{
    let mut fields = Vec::new(alloc);
    for i in 0..columns.len() {
        let column = &columns[i];
        fields.push(Field {
            name: new_name(numbers, names, i, &column.name)?,
            ty: column.ty,
        })?;
    }
    Ok(fields)
}
