// The places of the rows for which a condition is true.
ghost use Rattle.std.specs.Prelude.{◌≡◌, ◌++◌, ◌+◌, ◌<◌, ◌^◌, [], ◌∷◌, if◌then◌else◌, OnOk, length, map};
ghost use Rattle.kq_value.specs.declared.value.Value.TheVariants.{Bool as Truth};
ghost use Rattle.kq_value.specs.Computed.{AnswersAs};
ghost use Rattle.kq_plan_expressions.specs.Terms.{term_of};
ghost use Rattle.kq_store_column_view.specs.Vectors.{cells_of};
ghost use Rattle.kq_eval_columns.specs.kq_eval_row.Val.{meaning, surroundings};
ghost use Rattle.kq_eval_pieces.specs.Pieces.{places_true, places_where};

use crate::piece::{PIECE, eval_piece};
use crate::relation::Relation;
use kq_eval_columns::{Vector, is_yes};
use kq_plan_expressions::Expr;
use kq_value::{EvalFault, Memory, Value};
use std::alloc::Global;

/// The places of the rows for which the condition is true, in order, with the cells of the scalar lets and the ticks of the command's moment.
pub fn places_kept<R: Relation>(
    alloc: Global,
    relation: &R,
    condition: &Expr,
    lets: &[Value],
    now: i64,
) -> Result<Vec<usize>, EvalFault>
    ensures { AnswersAs (λ ps. ps.items) (places_where (meaning (term_of condition.now) (surroundings now lets.now)) (R.rows relation.now)) result }
{
    let mut places = Vec::new(alloc);
    let mut from = 0;
    while from < relation.len() {
        let to = relation.len().min(from + PIECE);
        let truths = eval_piece(alloc, relation, from, to, condition, lets, now)?;
        push_places(&mut places, truths, from)?;
        from = to;
    }
    Ok(places)
}

// Puts the places of the true values last, of which the first has the place `from`.
fn push_places(places: &mut Vec<usize>, values: Vector, from: usize) -> Result<(), Memory>
    requires { from + length (cells_of values) < 2 ^ 63 }
    ensures { OnOk result (places.new.items ≡ places.old.items ++ places_true from (cells_of values.entry)) }
{
    match values.truths() {
        Some(truths) => push_truths(places, truths, from),
        None => push_true(places, &values, from),
    }
}

fn push_truths(places: &mut Vec<usize>, truths: &[bool], from: usize) -> Result<(), Memory>
    requires { from + length truths.now < 2 ^ 63 }
    ensures { OnOk result (places.new.items ≡ places.old.items ++ places_true from (map Truth truths.now)) }
{
    for i in 0..truths.len() {
        push_if(places, truths[i], from + i)?;
    }
    Ok(())
}

fn push_true(places: &mut Vec<usize>, values: &Vector, from: usize) -> Result<(), Memory>
    requires { from + length (cells_of values.now) < 2 ^ 63 }
    ensures { OnOk result (places.new.items ≡ places.old.items ++ places_true from (cells_of values.now)) }
{
    for i in 0..values.len() {
        push_if(places, is_yes(&values.cell(i)?), from + i)?;
    }
    Ok(())
}

fn push_if(places: &mut Vec<usize>, kept: bool, place: usize) -> Result<(), Memory>
    ensures { OnOk result (places.new.items ≡ places.old.items ++ (if kept then place ∷ [] else [])) }
{
    if kept {
        places.push(place)?;
    }
    Ok(())
}
