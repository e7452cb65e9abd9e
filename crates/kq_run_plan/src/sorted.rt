// Rows in an order. Where the one key's values are numbers, and the rows lie in columns, no row is made: their columns are.
ghost use Rattle.std.specs.Prelude.{◌≡◌, ◌∷◌, ℕ, List, [], IfOk, IfSome, flat_map, length, map};
ghost use Rattle.std.specs.List.{All, range_with_len};
ghost use Rattle.kq_value.specs.declared.value.Value.{Value as Cell};
ghost use Rattle.kq_plan.specs.Plans.{sorting_of};
ghost use Rattle.kq_store_rows.specs.Chunks.{HasWidth};
ghost use Rattle.kq_run_gather.specs.kq_eval_row.Val.{surroundings};
ghost use Rattle.kq_run_gather.specs.kq_run_row_operators.Ran.{came};
ghost use Rattle.kq_store_column_view.specs.Vectors.{cell_of, cells_of};
ghost use Rattle.kq_run_sort.specs.Answered.{AnswersOne};
ghost use Rattle.kq_run_sort.specs.Orders.{Sorted};
ghost use Rattle.kq_run_sort.specs.Parts.{part_rows};
ghost use Rattle.kq_run_plan.specs.Sorting.{IsPartOf, SortsIf};

use kq_plan::SortKey;
use kq_run_scan::{Flow, Held, Next, Relation, Vector, copy_row, vector_over};
use kq_run_sort::{Part, sort_parts, sort_rows};
use kq_store_frame::Frame;
use kq_value::{EvalFault, Memory, Value};
use std::alloc::Global;

// The rows in an order of the keys.
pub(crate) fn sort_held(
    alloc: Global,
    rows: &Held,
    keys: &[SortKey],
    lets: &[Value],
    now: i64,
) -> Result<Held, EvalFault>
    ensures { AnswersOne (Sorted (map sorting_of keys.now) (surroundings now lets.now) rows.now) result }
{
    match sort_by_one(alloc, rows, keys, lets, now) {
        Ok(Some(sorted)) => Ok(Held::framed(sorted)),
        Ok(None) => sort_gathered(alloc, rows, keys, lets, now),
        Err(fault) => Err(fault),
    }
}

// The same of rows side by side.
fn sort_gathered(
    alloc: Global,
    rows: &Held,
    keys: &[SortKey],
    lets: &[Value],
    now: i64,
) -> Result<Held, EvalFault>
    ensures { AnswersOne (Sorted (map sorting_of keys.now) (surroundings now lets.now) rows.now) result }
{
    let gathered = rows.gather(alloc)?;
    match sort_rows(alloc, gathered.rows(), keys, lets, now) {
        Ok(sorted) => Ok(Held::own(sorted)),
        Err(fault) => Err(fault),
    }
}

// The same by one key, where it can be made so.
fn sort_by_one(
    alloc: Global,
    rows: &Held,
    keys: &[SortKey],
    lets: &[Value],
    now: i64,
) -> Result<Option<Frame>, EvalFault>
    ensures { SortsIf (map sorting_of keys.now) (surroundings now lets.now) rows.now result }
{
    if keys.len() != 1 {
        return Ok(None);
    }
    let mut flow = rows.flow(alloc, &[], lets, now);
    sort_flow(alloc, &mut flow, &keys[0], lets, now)
}

// The same of rows that come through operators of which none fails.
fn sort_flow(
    alloc: Global,
    flow: &mut Flow,
    key: &SortKey,
    lets: &[Value],
    now: i64,
) -> Result<Option<Frame>, EvalFault>
    ensures { (rows : List (List Cell)) → flow.old.to_come ≡ came rows → SortsIf (sorting_of key.now ∷ []) (surroundings now lets.now) rows result }
{
    let mut pieces = Vec::new(alloc);
    loop {
        match flow.next()? {
            Next::Piece(piece) => pieces.push(piece)?,
            Next::End => return sort_pieces(alloc, &pieces, key, lets, now),
            Next::Failed(_) => return Err(EvalFault::Overflow),
        }
    }
}

fn sort_pieces<R: Relation>(
    alloc: Global,
    pieces: &[R],
    key: &SortKey,
    lets: &[Value],
    now: i64,
) -> Result<Option<Frame>, EvalFault>
    requires { (w : ℕ) × All (HasWidth w) (flat_map R.rows pieces.now) }
    ensures { SortsIf (sorting_of key.now ∷ []) (surroundings now lets.now) (flat_map R.rows pieces.now) result }
{
    let width = first_width(alloc, pieces)?;
    let mut parts = Vec::with_capacity(alloc, pieces.len())?;
    for piece in pieces {
        match part_of(alloc, piece, width, key, lets, now) {
            Ok(Some(part)) => parts.push(part)?,
            Ok(None) => return Ok(None),
            Err(fault) => return Err(fault),
        }
    }
    Ok(sort_parts(alloc, key, &parts)?)
}

// The number of cells of the first row of the first piece.
fn first_width<R: Relation>(alloc: Global, pieces: &[R]) -> Result<usize, Memory> {
    match pieces.first() {
        Some(piece) => width_of(alloc, piece),
        None => Ok(0),
    }
}

// The number of cells of the first row.
fn width_of<R: Relation>(alloc: Global, relation: &R) -> Result<usize, Memory>
    ensures { IfOk result (λ width. (w : ℕ) → All (HasWidth w) (R.rows relation.now) → All (HasWidth width) (R.rows relation.now)) }
{
    let mut row = Vec::new(alloc);
    if relation.len() > 0 {
        copy_row(&mut row, relation, 0)?;
    }
    Ok(row.len())
}

// A piece by so many columns, with the values of the key beside it. None where it doesn't lie in these.
fn part_of<'a, R: Relation>(
    alloc: Global,
    piece: &'a R,
    width: usize,
    key: &SortKey,
    lets: &[Value],
    now: i64,
) -> Result<Option<Part<'a>>, EvalFault>
    requires { (w : ℕ) × All (HasWidth w) (R.rows piece.now) }
    ensures part { IsPartOf (sorting_of key.now) (surroundings now lets.now) (R.rows piece.now) result }
    ensures wide { IfOk result (λ o. IfSome o (λ p. length p.columns.items ≡ width)) }
{
    if width_of(alloc, piece)? != width {
        return Ok(None);
    }
    match columns_of(alloc, piece, width)? {
        Some(columns) => match vector_over(alloc, piece, &key.value, lets, now) {
            Ok(keys) => Ok(Some(Part { keys, columns })),
            Err(fault) => Err(fault),
        },
        None => Ok(None),
    }
}

// So many columns of the rows. None where one can't be lent.
fn columns_of<'a, R: Relation>(
    alloc: Global,
    piece: &'a R,
    width: usize,
) -> Result<Option<Vec<Vector<'a>>>, Memory>
    ensures { IfOk result (λ o. IfSome o (λ cs. map cells_of cs.items ≡ map (λ j. map (λ r. cell_of r j) (R.rows piece.now)) (range_with_len 0 width))) }
{
    let mut columns = Vec::with_capacity(alloc, width)?;
    for j in 0..width {
        match piece.lend(alloc, j, 0, piece.len())? {
            Some(column) => columns.push(column)?,
            None => return Ok(None),
        }
    }
    Ok(Some(columns))
}
