// Functions at the values of their arguments, row by row.
ghost use Rattle.std.specs.Prelude.{◌≡◌, List, map, OnOk};
ghost use Rattle.kq_value.specs.Computed.{Answers, AnswersAs, Computed, Is, and_then, each};
ghost use Rattle.kq_eval_row.specs.Applied.{applied};
ghost use Rattle.kq_value.specs.declared.value.Value.{Value as Cell};
ghost use Rattle.kq_eval_columns.specs.Over.{bare};
ghost use Rattle.kq_store_column_view.specs.Vectors.{cells_of};
ghost use Rattle.kq_eval_columns.specs.Vectors.{row_at};
ghost use Rattle.kq_eval_columns.specs.Seen.{applied_beside, fronted, rows_in, rows_of, shortest as the_shortest};

use crate::gather::value_over;
use crate::kernels::of_two;
use crate::parts::converted;
use crate::piece::Piece;
use kq_eval_row::apply::apply;
use kq_plan_functions::Function;
use kq_store_column_view::Vector;
use kq_value::{EvalFault, Memory, Value};
use std::alloc::Global;

/// What a function gives of the values of its arguments at these places.
pub fn apply_over<'a>(
    alloc: Global,
    function: Function,
    vectors: &[Vector<'a>],
    piece: Piece,
    places: &[usize],
) -> Result<Vector<'a>, EvalFault>
    ensures { AnswersAs cells_of (each (applied function piece.entry.now) (fronted vectors.now (bare (rows_in piece.entry places.now)))) result }
{
    apply_all(alloc, function, vectors, places.len(), piece)
}

/// What a function of two arguments gives of their values at these places, or why there are no values of the second.
pub fn apply_pair<'a>(
    alloc: Global,
    function: Function,
    firsts: Vector<'a>,
    seconds: Result<Vector<'a>, EvalFault>,
    piece: Piece,
    places: &[usize],
) -> Result<Vector<'a>, EvalFault>
    ensures { (c : Computed (List Cell)) → AnswersAs cells_of c seconds.entry → AnswersAs cells_of (and_then c (applied_beside function (cells_of firsts.entry) piece.entry places.now)) result }
{
    match seconds {
        Ok(others) => apply_over(alloc, function, &[firsts, others], piece, places),
        Err(fault) => Err(fault),
    }
}

/// A value for each of the rows at these places.
pub fn literal_over<'a>(
    value: &Value,
    piece: Piece<'a, '_>,
    places: &[usize],
) -> Result<Vector<'a>, EvalFault>
    ensures { AnswersAs cells_of (Is (map (λ r. value.now) (rows_in piece.entry places.now))) result }
{
    Ok(value_over(value, piece.columns, places)?)
}

// By a kernel where one decides all rows, and else row by row.
fn apply_all<'a>(
    alloc: Global,
    function: Function,
    vectors: &[Vector<'a>],
    count: usize,
    piece: Piece,
) -> Result<Vector<'a>, EvalFault>
    ensures { AnswersAs cells_of (each (applied function piece.entry.now) (rows_of vectors.now count)) result }
{
    match vectors {
        [a] if a.len() == count => match converted(alloc, function, a, piece.now)? {
            Some(values) => Ok(values),
            None => apply_each(alloc, function, vectors, count, piece),
        },
        [a, b] if a.len() == count && b.len() == count => {
            match of_two(alloc, function, a, b)? {
                Some(values) => Ok(values),
                None => apply_each(alloc, function, vectors, count, piece),
            }
        }
        _ => apply_each(alloc, function, vectors, count, piece),
    }
}

#[tactic(auto, using(crate::proofs::Arguments::next_row, crate::proofs::Arguments::no_row, crate::proofs::Loops::breaks_off))]
fn apply_each<'v>(
    alloc: Global,
    function: Function,
    vectors: &[Vector],
    count: usize,
    piece: Piece,
) -> Result<Vector<'v>, EvalFault>
    ensures { AnswersAs cells_of (each (applied function piece.entry.now) (rows_of vectors.now count)) result }
{
    let n = shortest(vectors, count);
    let mut cells = Vec::with_capacity(alloc, n)?;
    let mut args = Vec::with_capacity(alloc, vectors.len())?;
    for i in 0..n {
        cells.push(apply_at(alloc, function, vectors, i, piece, &mut args)?)?;
    }
    Ok(Vector::Cells(cells))
}

// What it gives of one row, whose cells are put into `args`.
fn apply_at(
    alloc: Global,
    function: Function,
    vectors: &[Vector],
    i: usize,
    piece: Piece,
    args: &mut Vec<Value>,
) -> Result<Value, EvalFault>
    ensures { Answers (applied function piece.entry.now (row_at vectors.now i)) result }
{
    fill_row(args, vectors, i)?;
    apply(alloc, function, args.as_slice(), piece.now)
}

fn shortest(vectors: &[Vector], count: usize) -> usize
    ensures { result ≡ the_shortest vectors.now count }
{
    let mut least = count;
    for vector in vectors {
        least = least.min(vector.len());
    }
    least
}

// Puts the cells of a row into `row`, in place of what is there.
fn fill_row(row: &mut Vec<Value>, vectors: &[Vector], i: usize) -> Result<(), Memory>
    ensures { OnOk result (row.new.items ≡ row_at vectors.now i) }
{
    row.clear();
    for vector in vectors {
        row.push(vector.cell(i)?)?;
    }
    Ok(())
}
