// The columns and the rows of datatables.
ghost use Rattle.std.specs.Prelude.{◌≡◌, [], ◌∷◌, ◌++◌, Ok, map};
ghost use Rattle.kq_bind_clauses.specs.Seen.{tabled_of};
ghost use Rattle.kq_bind_clauses.specs.Tables.{word_type as the_word_type, put_column as the_put_column, table_columns as the_table_columns, takes_sign as the_takes_sign, with_sign as the_with_sign, if_int as the_if_int, as_int as the_as_int, of_column as the_of_column, place_of as the_place_of, signed_in as the_signed_in, cell_made as the_cell_made, rows_made as the_rows_made, none_left, tabled as the_tabled, typeless as the_typeless, unsupported_columns as the_unsupported_columns, unsupported_cells as the_unsupported_cells};
ghost use Rattle.kq_bind_expressions.specs.Verdicts.{AnswersVerdict, and_then};
ghost use Rattle.kq_plan.specs.Plans.{cells_seen};

use kq_bind_columns::{is_taken, literal_value, name_place, name_text, piece, ty_of};
use kq_bind_expressions::{BindFault, valueless};
use kq_read_grammar::{Cell, Column};
use kq_read_symbols::{Kind, Symbol};
use kq_value::{Field, Ty, Value};
use kq_value_arithmetic::negated;
use std::alloc::Global;

/// What a datatable is bound to: its columns, and rows of a value for each.
#[derive(Drop)]
pub struct Tabling {
    pub columns: Vec<Field>,
    pub rows: Vec<Vec<Value>>,
}

/// The type of a word; one that is no type's is Unsupported.
pub fn word_type(text: &str, word: Symbol) -> Result<Ty, BindFault>
    ensures { AnswersVerdict (λ t. t) (the_word_type text.now word) result }
{
    match ty_of(piece(text, word).as_bytes()) {
        Some(ty) => Ok(ty),
        None => Err(BindFault::Unsupported { at: word.from }),
    }
}

fn put_column(
    alloc: Global,
    text: &str,
    before: Vec<Field>,
    column: Column,
) -> Result<Vec<Field>, BindFault>
    ensures { AnswersVerdict (λ v. v.items) (the_put_column text.now before.items column) result }
{
    let mut columns = before;
    let name = name_text(alloc, text, column.name)?;
    if is_taken(&columns, name.as_str()) {
        return Err(BindFault::Mistyped {
            at: name_place(column.name),
        });
    }
    let ty = word_type(text, column.ty)?;
    columns.push(Field { name, ty })?;
    Ok(columns)
}

fn table_columns(
    alloc: Global,
    text: &str,
    first: Column,
    others: &[Column],
) -> Result<Vec<Field>, BindFault>
    ensures { AnswersVerdict (λ v. v.items) (the_table_columns text.now [] (first ∷ others.now)) result }
{
    let mut columns = put_column(alloc, text, Vec::new(alloc), first)?;
    for column in others {
        columns = put_column(alloc, text, columns, *column)?;
    }
    Ok(columns)
}

fn takes_sign(ty: Ty) -> bool
    ensures { result ≡ the_takes_sign ty }
{
    matches!(ty, Ty::Long | Ty::Int | Ty::Span)
}

fn with_sign(minus: Option<Symbol>, value: Value) -> Option<Value>
    ensures { result ≡ the_with_sign minus value }
{
    if minus.is_none() {
        return Some(value);
    }
    if !takes_sign(value.ty()) {
        return None;
    }
    match negated(&value) {
        Ok(value) => Some(value),
        Err(_) => None,
    }
}

fn if_int(number: i64) -> Option<Value>
    ensures { result ≡ the_if_int number }
{
    if -2_147_483_648 <= number && number <= 2_147_483_647 {
        Some(Value::Int(number as i32))
    } else {
        None
    }
}

// A whole number that is written without its type, for a column of ints.
fn as_int(kind: Kind, ty: Ty, value: Value) -> Option<Value>
    ensures { result ≡ the_as_int kind ty value }
{
    match (kind, ty, value) {
        (Kind::WholeNumber, Ty::Int, Value::Long(number)) => if_int(number),
        _ => None,
    }
}

fn of_column(kind: Kind, ty: Ty, value: Value) -> Option<Value>
    ensures { result ≡ the_of_column kind ty value }
{
    if value.ty().same(ty) {
        Some(value)
    } else {
        as_int(kind, ty, value)
    }
}

// Where a cell begins.
fn place_of(minus: Option<Symbol>, literal: Symbol) -> usize
    ensures { result ≡ the_place_of minus literal }
{
    match minus {
        Some(minus) => minus.from,
        None => literal.from,
    }
}

fn signed_in(ty: Ty, cell: Cell, value: Value) -> Option<Value>
    ensures { result ≡ the_signed_in ty cell value }
{
    match with_sign(cell.minus, value) {
        Some(value) => of_column(cell.literal.kind, ty, value),
        None => None,
    }
}

fn cell_made(alloc: Global, text: &str, ty: Ty, cell: Cell) -> Result<Value, BindFault>
    ensures { AnswersVerdict (λ v. v) (the_cell_made text.now ty cell) result }
{
    let Some(value) = literal_value(alloc, text, cell.literal)? else {
        return Err(BindFault::Unsupported {
            at: cell.literal.from,
        });
    };
    match signed_in(ty, cell, value) {
        Some(value) => Ok(value),
        None => Err(BindFault::Mistyped {
            at: place_of(cell.minus, cell.literal),
        }),
    }
}

fn rows_made(
    alloc: Global,
    text: &str,
    at: usize,
    columns: &[Field],
    cells: &[Cell],
) -> Result<Vec<Vec<Value>>, BindFault>
    ensures { AnswersVerdict (λ v. map cells_seen v.items) (the_rows_made text.now at columns.now [] columns.now cells.now) result }
{
    let mut rows = Vec::new(alloc);
    let mut row = Vec::new(alloc);
    let mut left = columns;
    for cell in cells {
        match left {
            [] => return Err(BindFault::Mistyped { at }),
            [column] => {
                row.push(cell_made(alloc, text, column.ty, *cell)?)?;
                rows.push(row)?;
                row = Vec::new(alloc);
                left = columns;
            }
            [column, others @ ..] => {
                row.push(cell_made(alloc, text, column.ty, *cell)?)?;
                left = others;
            }
        }
    }
    if_whole(at, rows, &row)
}

fn if_whole(at: usize, rows: Vec<Vec<Value>>, row: &[Value]) -> Result<Vec<Vec<Value>>, BindFault>
    ensures { AnswersVerdict (λ v. map cells_seen v.items) (and_then (none_left at row.now) (λ more. Ok (map cells_seen rows.items ++ more))) result }
{
    match row {
        [] => Ok(rows),
        [_, ..] => Err(BindFault::Mistyped { at }),
    }
}

/// The columns and the rows of a datatable whose word stands at this place, or its first fault: of the columns and then of the cells, from left to
/// right, and then Mistyped at the word where the last row isn't whole. A name that is given twice is Mistyped, as is a cell of another type than its
/// column's, at its minus or literal; a minus goes before a long, an int or a timespan alone, and a whole number in a column of ints stands for an
/// int.
pub fn tabled(
    alloc: Global,
    text: &str,
    at: usize,
    first: Column,
    others: &[Column],
    cells: &[Cell],
) -> Result<Tabling, BindFault>
    ensures { AnswersVerdict tabled_of (the_tabled text.now at (first ∷ others.now) cells.now) result }
{
    let columns = table_columns(alloc, text, first, others)?;
    let rows = rows_made(alloc, text, at, &columns, cells)?;
    Ok(Tabling { columns, rows })
}

/// The place of a word that is no type's.
pub fn typeless(text: &str, word: Symbol) -> Option<usize>
    ensures { result ≡ the_typeless text.now word }
{
    match ty_of(piece(text, word).as_bytes()) {
        Some(_) => None,
        None => Some(word.from),
    }
}

/// The place of the leftmost word of a column that is no type's.
pub fn unsupported_columns(text: &str, first: Column, others: &[Column]) -> Option<usize>
    ensures { result ≡ the_unsupported_columns text.now (first ∷ others.now) }
{
    if let Some(place) = typeless(text, first.ty) {
        return Some(place);
    }
    for column in others {
        if let Some(place) = typeless(text, column.ty) {
            return Some(place);
        }
    }
    None
}

/// The place of the leftmost literal of the cells that isn't supported.
pub fn unsupported_cells(text: &str, cells: &[Cell]) -> Option<usize>
    ensures { result ≡ the_unsupported_cells text.now cells.now }
{
    for cell in cells {
        if let Some(place) = valueless(text, cell.literal) {
            return Some(place);
        }
    }
    None
}
