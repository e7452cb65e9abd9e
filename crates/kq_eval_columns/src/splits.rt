// Members of splits, for which no array is made.
ghost use Rattle.std.specs.Prelude.{◌≡◌, List, length, map, IfOk, IfSome};
ghost use Rattle.kq_value.specs.declared.value.Value.{Value as Cell};
ghost use Rattle.kq_value.specs.Computed.{AnswersAs, Is};
ghost use Rattle.kq_plan_functions.specs.declared.function.Function.TheVariants.{Split};
ghost use Rattle.kq_eval_row.specs.Val.{Surroundings, cell_of};
ghost use Rattle.kq_eval_row.specs.kq_value_conversions.Parts.{member_of};
ghost use Rattle.kq_eval_row.specs.kq_value_string_functions.Texts.{pieces};
ghost use Rattle.kq_store_column_view.specs.Vectors.{cells_of};
ghost use Rattle.kq_eval_columns.specs.Seen.{at_columns, members_at, rows_in, seen};

use crate::calls::{apply_over, apply_pair, literal_over};
use crate::piece::Piece;
use kq_eval_row::piece_at;
use kq_plan_functions::Function;
use kq_store_column_view::Vector;
use kq_value::{EvalFault, Memory, Value};
use std::alloc::Global;

/// The members at a place of the pieces into which the first column's texts are split.
#[tactic(auto, using(crate::proofs::SplitMembers::length_rows))]
pub fn split_members<'a>(
    alloc: Global,
    vectors: &[Vector<'a>],
    place: &Value,
    piece: Piece<'a, '_>,
    places: &[usize],
) -> Result<Vector<'a>, EvalFault>
    ensures { AnswersAs cells_of (members_at place.now (at_columns Split vectors.now) (seen piece.entry) (rows_in piece.entry places.now)) result }
{
    match pieces_found(alloc, vectors, place, places.len())? {
        Some(members) => Ok(Vector::Cells(members)),
        None => members_of_arrays(alloc, vectors, place, piece, places),
    }
}

#[tactic(auto, using(crate::proofs::SplitMembers::members_stop))]
fn members_of_arrays<'a>(
    alloc: Global,
    vectors: &[Vector<'a>],
    place: &Value,
    piece: Piece<'a, '_>,
    places: &[usize],
) -> Result<Vector<'a>, EvalFault>
    ensures { AnswersAs cells_of (members_at place.now (at_columns Split vectors.now) (seen piece.entry) (rows_in piece.entry places.now)) result }
{
    let arrays = apply_over(alloc, Function::Split, vectors, piece, places)?;
    let others = literal_over(place, piece, places);
    apply_pair(alloc, Function::Member, arrays, others, piece, places)
}

// The members, where one text splits all the others, which lie where they can be lent.
fn pieces_found(
    alloc: Global,
    vectors: &[Vector],
    place: &Value,
    count: usize,
) -> Result<Option<Vec<Value>>, Memory>
    ensures { IfOk result (λ o. IfSome o (λ vs. (s : Surroundings) (rows : List (List Cell)) → length rows ≡ count → members_at place.now (at_columns Split vectors.now) s rows ≡ Is vs.items)) }
{
    match vectors {
        [texts, parts] if texts.len() == count && parts.len() == count => match parts.same() {
            Some((part, _)) => pieces_by(alloc, texts, part, place),
            None => Ok(None),
        },
        _ => Ok(None),
    }
}

#[tactic(auto, using(crate::proofs::SplitMembers::cells_more))]
fn pieces_by(
    alloc: Global,
    texts: &Vector,
    part: &Value,
    place: &Value,
) -> Result<Option<Vec<Value>>, Memory>
    ensures { IfOk result (λ o. IfSome o (λ vs. vs.items ≡ map (λ x. member_of (pieces x part.now) place.now) (cells_of texts.now))) }
{
    let mut members = Vec::with_capacity(alloc, texts.len())?;
    for i in 0..texts.len() {
        match cell_in(texts, i) {
            Some(text) => members.push(piece_at(alloc, text, part, place)?)?,
            None => return Ok(None),
        }
    }
    Ok(Some(members))
}

// A cell where it lies.
fn cell_in<'a>(column: &'a Vector, i: usize) -> Option<&'a Value>
    ensures { IfSome result (λ cell. cell.now ≡ cell_of (cells_of column.now) i) }
{
    if let Some(cells) = column.cells() {
        return value_in(cells, i);
    }
    if let Some((words, codes)) = column.words() {
        return word_in(words, codes, i);
    }
    match column {
        Vector::Placed(cells, places) => placed_in(cells, places, i),
        _ => None,
    }
}

fn value_in(cells: &[Value], i: usize) -> Option<&Value>
    ensures { IfSome result (λ cell. cell.now ≡ cell_of cells.now i) }
{
    if i < cells.len() {
        Some(&cells[i])
    } else {
        None
    }
}

fn word_in<'a>(words: &'a [Value], codes: &[u32], i: usize) -> Option<&'a Value>
    ensures { IfSome result (λ cell. cell.now ≡ cell_of (map (cell_of words.now) codes.now) i) }
{
    if i < codes.len() {
        value_in(words, codes[i] as usize)
    } else {
        None
    }
}

fn placed_in<'a>(cells: &'a [Value], places: &[usize], i: usize) -> Option<&'a Value>
    ensures { IfSome result (λ cell. cell.now ≡ cell_of (map (cell_of cells.now) places.now) i) }
{
    if i < places.len() {
        value_in(cells, places[i])
    } else {
        None
    }
}
