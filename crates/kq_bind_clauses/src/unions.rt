// The columns of unions, and which of an arm's columns fill them.
ghost use Rattle.std.specs.Prelude.{◌≡◌, ◌≤◌, [], IfOk, length, map};
ghost use Rattle.std.specs.List.{filter};
ghost use Rattle.kq_bind_clauses.specs.Seen.{arm_of};
ghost use Rattle.kq_bind_clauses.specs.Unions.{is_inner_word as the_is_inner_word, is_inner as the_is_inner, has_column as the_has_column, place_behind as the_place_behind, with_column as the_with_column, with_columns as the_with_columns, all_columns as the_all_columns, in_all as the_in_all, common_columns as the_common_columns, union_sources as the_union_sources, type_word as the_type_word, is_mixed as the_is_mixed, keep_names as the_keep_names, typed_name as the_typed_name, names_made as the_names_made, union_columns as the_union_columns, of_type as the_of_type, filling as the_filling, arms_filled as the_arms_filled, columns_in};
ghost use Rattle.kq_plan.specs.Plans.{filling_of};

use kq_bind_columns::free_name;
use kq_bind_expressions::first_named;
use kq_plan::Arm;
use kq_read_symbols::{JoinKind, Kind, Symbol, Word};
use kq_value::{Field, Memory, Text, Ty};
use std::alloc::Global;

/// An arm of a union: the number of the step of its rows, and their columns.
#[derive(Drop)]
pub struct ArmColumns {
    pub input: usize,
    pub columns: Vec<Field>,
}

fn is_inner_word(kind: Kind) -> bool
    ensures { result ≡ the_is_inner_word kind }
{
    matches!(kind, Kind::Word(Word::Join(JoinKind::Inner)))
}

/// Whether a union is inner: it is outer where no kind is said.
pub fn is_inner(kind: Option<Symbol>) -> bool
    ensures { result ≡ the_is_inner kind }
{
    match kind {
        None => false,
        Some(symbol) => is_inner_word(symbol.kind),
    }
}

fn has_column(columns: &[Field], field: &Field) -> bool
    ensures { result ≡ the_has_column columns.now field.now }
{
    for column in columns {
        if field.same(column) {
            return true;
        }
    }
    false
}

// The number of the column behind the last of this name, or else behind all.
fn place_behind(columns: &[Field], name: &str) -> usize
    ensures place { result ≡ the_place_behind columns.now name.now }
    ensures within { result ≤ length columns.now }
{
    let mut place = columns.len();
    for i in 0..columns.len() {
        if columns[i].name.as_str() == name {
            place = i + 1;
        }
    }
    place
}

fn with_column(before: Vec<Field>, field: &Field) -> Result<Vec<Field>, Memory>
    ensures { IfOk result (λ v. v.items ≡ the_with_column before.items field.now) }
{
    let mut columns = before;
    if has_column(&columns, field) {
        return Ok(columns);
    }
    let place = place_behind(&columns, field.name.as_str());
    columns.insert(place, field.clone_in()?)?;
    Ok(columns)
}

fn with_columns(before: Vec<Field>, fields: &[Field]) -> Result<Vec<Field>, Memory>
    ensures { IfOk result (λ v. v.items ≡ the_with_columns before.items fields.now) }
{
    let mut columns = before;
    for field in fields {
        columns = with_column(columns, field)?;
    }
    Ok(columns)
}

// All columns by name and type, of each name those of several types behind each other.
fn all_columns(alloc: Global, arms: &[ArmColumns]) -> Result<Vec<Field>, Memory>
    ensures { IfOk result (λ v. v.items ≡ the_all_columns [] (map columns_in (map arm_of arms.now))) }
{
    let mut columns = Vec::new(alloc);
    for arm in arms {
        columns = with_columns(columns, &arm.columns)?;
    }
    Ok(columns)
}

fn in_all(arms: &[ArmColumns], field: &Field) -> bool
    ensures { result ≡ the_in_all (map columns_in (map arm_of arms.now)) field.now }
{
    for arm in arms {
        if !has_column(&arm.columns, field) {
            return false;
        }
    }
    true
}

fn kept_in_all(alloc: Global, first: &[Field], others: &[ArmColumns]) -> Result<Vec<Field>, Memory>
    ensures { IfOk result (λ v. v.items ≡ filter (the_in_all (map columns_in (map arm_of others.now))) first.now) }
{
    let mut columns = Vec::new(alloc);
    for field in first {
        if in_all(others, field) {
            columns.push(field.clone_in()?)?;
        }
    }
    Ok(columns)
}

// Those that all arms have with one type, in the order of the first arm.
fn common_columns(alloc: Global, arms: &[ArmColumns]) -> Result<Vec<Field>, Memory>
    ensures { IfOk result (λ v. v.items ≡ the_common_columns (map columns_in (map arm_of arms.now))) }
{
    match arms {
        [] => Ok(Vec::new(alloc)),
        [first, others @ ..] => kept_in_all(alloc, &first.columns, others),
    }
}

/// The columns of the arms by name and type, from which those of the union are made and filled. An inner union has those that all arms have with one
/// type, in the order of the first arm. An outer one has all: the names in the order of first appearance, and the types of a name likewise.
pub fn union_sources(alloc: Global, inner: bool, arms: &[ArmColumns]) -> Result<Vec<Field>, Memory>
    ensures { IfOk result (λ v. v.items ≡ the_union_sources inner (map columns_in (map arm_of arms.now))) }
{
    if inner {
        common_columns(alloc, arms)
    } else {
        all_columns(alloc, arms)
    }
}

fn type_word(ty: Ty) -> &'static str
    ensures { result.now ≡ the_type_word ty }
{
    match ty {
        Ty::Long => "long",
        Ty::Int => "int",
        Ty::Text => "string",
        Ty::Bool => "bool",
        Ty::Moment => "datetime",
        Ty::Span => "timespan",
        Ty::Dynamic => "dynamic",
    }
}

// Whether there is a column of the same name and another type.
fn is_mixed(columns: &[Field], field: &Field) -> bool
    ensures { result ≡ the_is_mixed columns.now field.now }
{
    for column in columns {
        if column.name.as_str() == field.name.as_str() && !column.ty.same(field.ty) {
            return true;
        }
    }
    false
}

fn keep_names(alloc: Global, columns: &[Field]) -> Result<Vec<Field>, Memory>
    ensures { IfOk result (λ v. v.items ≡ the_keep_names columns.now) }
{
    let mut kept = Vec::new(alloc);
    for field in columns {
        if !is_mixed(columns, field) {
            kept.push(field.clone_in()?)?;
        }
    }
    Ok(kept)
}

fn typed_name(alloc: Global, taken: &[Field], field: &Field) -> Result<Text, Memory>
    ensures { IfOk result (λ t. t ≡ the_typed_name taken.now field.now) }
{
    let mut name = String::from_str(alloc, field.name.as_str())?;
    name.push_str("_")?;
    name.push_str(type_word(field.ty))?;
    free_name(alloc, taken, &[], Text::from_string(alloc, name)?)
}

// The columns in order, where a name of several types becomes one for each of them, beside those that are kept.
fn names_made(alloc: Global, columns: &[Field], kept: Vec<Field>) -> Result<Vec<Field>, Memory>
    ensures { IfOk result (λ v. v.items ≡ the_names_made columns.now kept.items columns.now) }
{
    let mut taken = kept;
    let mut made = Vec::new(alloc);
    for field in columns {
        if is_mixed(columns, field) {
            let name = typed_name(alloc, &taken, field)?;
            let ty = field.ty;
            taken.push(Field {
                name: name.clone_in()?,
                ty,
            })?;
            made.push(Field { name, ty })?;
        } else {
            made.push(field.clone_in()?)?;
        }
    }
    Ok(made)
}

/// The columns of a union, of `union_sources` in their order. A name of one type is kept; one of several becomes, for each type, the name with `_`
/// and the word of the type, as `x_long`, with the least suffix 1, 2, 3 that is free where a column of the union has it already.
pub fn union_columns(alloc: Global, sources: &[Field]) -> Result<Vec<Field>, Memory>
    ensures { IfOk result (λ v. v.items ≡ the_union_columns sources.now) }
{
    let kept = keep_names(alloc, sources)?;
    names_made(alloc, sources, kept)
}

fn of_type(ty: Ty, found: Option<(usize, Ty)>) -> Option<usize>
    ensures { result ≡ the_of_type ty found }
{
    match found {
        Some((number, found)) if found.same(ty) => Some(number),
        _ => None,
    }
}

/// For each of `union_sources` the number, from 0, of the arm's column of its name and type.
pub fn filling(
    alloc: Global,
    arm: &[Field],
    sources: &[Field],
) -> Result<Vec<Option<usize>>, Memory>
    ensures { IfOk result (λ v. v.items ≡ the_filling arm.now sources.now) }
{
    let mut cells = Vec::new(alloc);
    for field in sources {
        cells.push(of_type(field.ty, first_named(arm, field.name.as_str())))?;
    }
    Ok(cells)
}

/// The arms of the plan, as `filling` has the cells of each.
pub fn arms_filled(
    alloc: Global,
    arms: &[ArmColumns],
    sources: &[Field],
) -> Result<Vec<Arm>, Memory>
    ensures { IfOk result (λ v. map filling_of v.items ≡ the_arms_filled (map arm_of arms.now) sources.now) }
{
    let mut filled = Vec::new(alloc);
    for arm in arms {
        filled.push(Arm {
            input: arm.input,
            cells: filling(alloc, &arm.columns, sources)?,
        })?;
    }
    Ok(filled)
}
