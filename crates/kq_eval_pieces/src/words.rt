// Expressions that read one column of words: they are evaluated once for each word.
ghost use Rattle.std.specs.Prelude.{◌≡◌, ◌<◌, [], IfOk, IfSome, Some, get_or, length, map, slice_get};
ghost use Rattle.std.specs.List.{All};
ghost use Rattle.kq_value.specs.Computed.{Is, each};
ghost use Rattle.kq_eval_columns.specs.Vectors.{rows_at};
ghost use Rattle.kq_eval_columns.specs.kq_eval_row.Val.{surroundings, val};
ghost use Rattle.kq_store_column_view.specs.Vectors.{cell_of, cells_of};
ghost use Rattle.kq_eval_pieces.specs.Pieces.{columns_read};
ghost use Rattle.kq_eval_pieces.specs.Words.{AreByCodes, AreByWord, AreCodesAt, ReadsWords};

use crate::piece::places_below;
use crate::reads::columns_of;
use crate::worded::Worded;
use kq_eval_columns::{Vector, eval_column, owned};
use kq_plan_expressions::Expr;
use kq_value::{EvalFault, Memory, Value};
use std::alloc::{AllocError, Global};
use std::slice::from_ref;

// The values of an expression over the rows of the columns at these places, where it reads one column alone, which has at most half as many
// words as there are places, and overflows at none of them.
pub(crate) fn eval_by_word<'v>(
    alloc: Global,
    expr: &Expr,
    columns: &[Vector],
    places: &[usize],
    lets: &[Value],
    now: i64,
) -> Result<Option<Vector<'v>>, Memory>
    ensures { IfOk result (λ o. IfSome o (λ v. each (val expr.now (surroundings now lets.now)) (rows_at columns.now places.now) ≡ Is (cells_of v))) }
{
    if is_plain_call(expr) {
        return Ok(None);
    }
    let Some(read) = worded(alloc, expr, columns)? else {
        return Ok(None);
    };
    if read.words.len() > places.len() / 2 {
        return Ok(None);
    }
    match codes_at(alloc, read.codes, places, read.words.len())? {
        Some(codes) => values_by(alloc, expr, read.column, read.words, &codes, lets, now),
        None => Ok(None),
    }
}

// The values of the expression at the words with these codes, unless it overflows at a word.
fn values_by<'v>(
    alloc: Global,
    expr: &Expr,
    column: usize,
    words: &[Value],
    codes: &[usize],
    lets: &[Value],
    now: i64,
) -> Result<Option<Vector<'v>>, Memory>
    requires { All (λ n. n ≡ column) (columns_read expr.now) }
    ensures { IfOk result (λ o. IfSome o (λ v. AreByCodes expr.now (surroundings now lets.now) column words.now codes.now (cells_of v))) }
{
    match word_values(alloc, expr, column, words, lets, now)? {
        Some(values) => Ok(Some(values.picked(alloc, codes)?)),
        None => Ok(None),
    }
}

// Whether it is a call of a column and a literal alone. Tests of these are made once for each word anyway, at less cost.
fn is_plain_call(expr: &Expr) -> bool {
    match expr {
        Expr::Call(_, args) => matches!(args.as_slice(), [Expr::Column(_), Expr::Literal(_)]),
        _ => false,
    }
}

// The column of words that an expression reads, if it reads no other.
fn worded<'a>(
    alloc: Global,
    expr: &Expr,
    columns: &'a [Vector],
) -> Result<Option<Worded<'a>>, Memory>
    ensures { IfOk result (λ o. IfSome o (λ w. ReadsWords expr.now columns.now w)) }
{
    let reads = columns_of(alloc, from_ref(expr))?;
    let Some(column) = the_only(&reads) else {
        return Ok(None);
    };
    if column >= columns.len() {
        return Ok(None);
    }
    match columns[column].words() {
        Some((words, codes)) => Ok(Some(Worded {
            column,
            words,
            codes,
        })),
        None => Ok(None),
    }
}

// The number that all of these are.
fn the_only(numbers: &[usize]) -> Option<usize>
    ensures { IfSome result (λ only. All (λ n. n ≡ only) numbers.now) }
{
    if numbers.is_empty() {
        return None;
    }
    let only = numbers[0];
    for number in numbers {
        if *number != only {
            return None;
        }
    }
    Some(only)
}

// The codes at these places, each of them one of so many.
fn codes_at(
    alloc: Global,
    codes: &[u32],
    places: &[usize],
    count: usize,
) -> Result<Option<Vec<usize>>, Memory>
    ensures { IfOk result (λ o. IfSome o (λ v. AreCodesAt codes.now places.now count v.items)) }
{
    let mut found = Vec::with_capacity(alloc, places.len())?;
    for place in places {
        match code_at(codes, *place, count) {
            Some(code) => found.push(code)?,
            None => return Ok(None),
        }
    }
    Ok(Some(found))
}

fn code_at(codes: &[u32], place: usize, count: usize) -> Option<usize>
    ensures { IfSome result (λ code. (code < count) × (slice_get codes.now place ≡ Some code)) }
{
    if place >= codes.len() {
        return None;
    }
    let code = codes[place] as usize;
    if code < count { Some(code) } else { None }
}

// The value of the expression for each word in this column, unless it overflows at one.
fn word_values<'v>(
    alloc: Global,
    expr: &Expr,
    column: usize,
    words: &[Value],
    lets: &[Value],
    now: i64,
) -> Result<Option<Vector<'v>>, Memory>
    requires { All (λ n. n ≡ column) (columns_read expr.now) }
    ensures { IfOk result (λ o. IfSome o (λ v. AreByWord expr.now (surroundings now lets.now) column words.now (cells_of v))) }
{
    let columns = word_columns(alloc, column, words)?;
    let places = places_below(alloc, words.len())?;
    match eval_column(alloc, expr, &columns, &places, lets, now) {
        Ok(values) => Ok(Some(owned(alloc, values)?)),
        Err(EvalFault::Overflow) => Ok(None),
        Err(EvalFault::Memory) => Err(AllocError),
    }
}

// The words as the column of this number, behind others that are empty.
fn word_columns<'a>(
    alloc: Global,
    column: usize,
    words: &'a [Value],
) -> Result<Vec<Vector<'a>>, Memory>
    ensures { IfOk result (λ columns. get_or (map cells_of columns.items) column [] ≡ words.now) }
{
    let mut columns = Vec::new(alloc);
    for _before in 0..column {
        columns.push(Vector::Cells(Vec::new(alloc)))?;
    }
    columns.push(Vector::LentCells(words))?;
    Ok(columns)
}
