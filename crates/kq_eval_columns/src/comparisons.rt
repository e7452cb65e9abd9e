// Tests of the cells of a column against one value, where they lie.
ghost use Rattle.std.specs.Prelude.{◌≡◌, map, slice_get, Some, IfOk, IfSome};
ghost use Rattle.kq_eval_row.specs.Val.{cell_of};
ghost use Rattle.kq_store_column_view.specs.Vectors.{cells_of};
ghost use Rattle.kq_eval_columns.specs.Seen.{beside_one, cells_in_parts, truths_of};

use crate::comparison::test_of;
use crate::numbers::{number_of, number_tests, numbers_of};
use crate::parts::{parts_in, test_of_part};
use kq_plan_functions::Function;
use kq_store_column_view::Vector;
use kq_value::{Dyn, Memory, Value};
use std::alloc::Global;

/// The truths that a function gives of each cell and a value, where it gives truths alone.
pub fn tests_beside(
    alloc: Global,
    function: Function,
    column: &Vector,
    value: &Value,
) -> Result<Option<Vec<bool>>, Memory>
    ensures { IfOk result (λ o. IfSome o (λ ts. beside_one function value.now (cells_of column.now) ≡ truths_of ts.items)) }
{
    if let Some(cells) = column.cells() {
        return tests_of_cells(alloc, function, cells, value);
    }
    if let Some((words, codes)) = column.words() {
        return tests_of_words(alloc, function, words, codes, value);
    }
    if let Some(parts) = parts_in(column) {
        return tests_of_parts(alloc, function, parts, value);
    }
    tests_of_numbers(alloc, function, column, value)
}

#[tactic(auto, using(crate::proofs::Rows::map_more))]
fn tests_of_cells(
    alloc: Global,
    function: Function,
    cells: &[Value],
    value: &Value,
) -> Result<Option<Vec<bool>>, Memory>
    ensures { IfOk result (λ o. IfSome o (λ ts. beside_one function value.now cells.now ≡ truths_of ts.items)) }
{
    let mut truths = Vec::with_capacity(alloc, cells.len())?;
    for cell in cells {
        match test_of(function, cell, value) {
            Some(truth) => truths.push(truth)?,
            None => return Ok(None),
        }
    }
    Ok(Some(truths))
}

#[tactic(auto, using(crate::proofs::Rows::map_more))]
fn tests_of_parts(
    alloc: Global,
    function: Function,
    parts: &[Option<&Dyn>],
    value: &Value,
) -> Result<Option<Vec<bool>>, Memory>
    ensures { IfOk result (λ o. IfSome o (λ ts. beside_one function value.now (cells_in_parts parts.now) ≡ truths_of ts.items)) }
{
    let mut truths = Vec::with_capacity(alloc, parts.len())?;
    for i in 0..parts.len() {
        match test_of_part(function, parts[i], value) {
            Some(truth) => truths.push(truth)?,
            None => return Ok(None),
        }
    }
    Ok(Some(truths))
}

// Once for each word, where there are no more words than cells.
fn tests_of_words(
    alloc: Global,
    function: Function,
    words: &[Value],
    codes: &[u32],
    value: &Value,
) -> Result<Option<Vec<bool>>, Memory>
    ensures { IfOk result (λ o. IfSome o (λ ts. beside_one function value.now (map (cell_of words.now) codes.now) ≡ truths_of ts.items)) }
{
    if words.len() > codes.len() {
        return tests_of_codes(alloc, function, words, codes, value);
    }
    match tests_of_cells(alloc, function, words, value)? {
        Some(truths) => truths_by_code(alloc, &truths, codes),
        None => Ok(None),
    }
}

#[tactic(auto, using(crate::proofs::Rows::map_more))]
fn tests_of_codes(
    alloc: Global,
    function: Function,
    words: &[Value],
    codes: &[u32],
    value: &Value,
) -> Result<Option<Vec<bool>>, Memory>
    ensures { IfOk result (λ o. IfSome o (λ ts. beside_one function value.now (map (cell_of words.now) codes.now) ≡ truths_of ts.items)) }
{
    let mut truths = Vec::with_capacity(alloc, codes.len())?;
    for code in codes {
        let code = *code as usize;
        if code >= words.len() {
            return Ok(None);
        }
        match test_of(function, &words[code], value) {
            Some(truth) => truths.push(truth)?,
            None => return Ok(None),
        }
    }
    Ok(Some(truths))
}

// The truths by their numbers, where each is one of theirs.
fn truths_by_code(
    alloc: Global,
    truths: &[bool],
    codes: &[u32],
) -> Result<Option<Vec<bool>>, Memory>
    ensures { IfOk result (λ o. IfSome o (λ us. map Some us.items ≡ map (slice_get truths.now) codes.now)) }
{
    let mut found = Vec::with_capacity(alloc, codes.len())?;
    for code in codes {
        let code = *code as usize;
        if code >= truths.len() {
            return Ok(None);
        }
        found.push(truths[code])?;
    }
    Ok(Some(found))
}

fn tests_of_numbers(
    alloc: Global,
    function: Function,
    column: &Vector,
    value: &Value,
) -> Result<Option<Vec<bool>>, Memory>
    ensures { IfOk result (λ o. IfSome o (λ ts. beside_one function value.now (cells_of column.now) ≡ truths_of ts.items)) }
{
    let Some((kind, numbers)) = numbers_of(column) else {
        return Ok(None);
    };
    match number_of(kind, value) {
        Some(other) => number_tests(alloc, function, kind, numbers, other),
        None => Ok(None),
    }
}
