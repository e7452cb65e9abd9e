// The rows that expressions make of each row.
ghost use Rattle.std.specs.Prelude.{◌≡◌, ◌<◌, ◌≤◌, ◌++◌, ◌-◌, ◌∷◌, [], IfOk, OnOk, length, map};
ghost use Rattle.std.specs.List.{All, concat, range_with_len};
ghost use Rattle.kq_value.specs.Computed.{Answers, AnswersAs, each};
ghost use Rattle.kq_plan_expressions.specs.Terms.{term_of};
ghost use Rattle.kq_store_rows.specs.Chunks.{HasWidth, row_at};
ghost use Rattle.kq_eval_columns.specs.kq_eval_row.Val.{surroundings};
ghost use Rattle.kq_eval_pieces.specs.Operators.{values_at};
ghost use Rattle.kq_eval_pieces.specs.Pieces.{Hold, columns_copied, piece_of};
ghost use Rattle.kq_eval_pieces.specs.Sources.{GiveBehind, MakeRows, cells_from, row_from, rows_from};

use crate::columns::columns_in;
use crate::piece::{PIECE, places_below};
use crate::reads::copied_of;
use crate::relation::Relation;
use crate::sources::{Source, source_of, take_cell};
use kq_eval_columns::Vector;
use kq_plan_expressions::Expr;
use kq_store_rows::Rows;
use kq_value::{EvalFault, Memory, Value};
use std::alloc::Global;

/// The values of the expressions over each row, with the cells of the scalar lets and the ticks of the command's moment.
pub fn map_rows<R: Relation>(
    alloc: Global,
    relation: &R,
    exprs: &[Expr],
    lets: &[Value],
    now: i64,
) -> Result<Rows, EvalFault>
    ensures { Answers (each (values_at (map term_of exprs.now) (surroundings now lets.now)) (R.rows relation.now)) result }
{
    let mut mapped = Rows::new(alloc);
    let mut from = 0;
    while from < relation.len() {
        let to = relation.len().min(from + PIECE);
        let sources = sources_of(alloc, relation, from, to, exprs, lets, now)?;
        push_rows(alloc, &mut mapped, sources, relation, from, to)?;
        from = to;
    }
    Ok(mapped)
}

// A source for each expression, with its values over the rows from a place on, up to another.
fn sources_of<'v, R: Relation>(
    alloc: Global,
    relation: &'v R,
    from: usize,
    to: usize,
    exprs: &[Expr],
    lets: &[Value],
    now: i64,
) -> Result<Vec<Source<'v>>, EvalFault>
    requires { (from ≤ to) × (to ≤ length (R.rows relation.now)) }
    ensures rows { MakeRows (map term_of exprs.now) (surroundings now lets.now) (piece_of (R.rows relation.now) from to) result }
    ensures wide { IfOk result (λ xs. length xs.items ≡ length exprs.now) }
{
    let copied = copied_of(alloc, exprs)?;
    let columns = columns_in(alloc, relation, from, to, &copied)?;
    let places = places_below(alloc, to - from)?;
    sources_over(
        alloc, relation, from, to, exprs, &columns, &places, lets, now,
    )
}

// The same over the columns that were copied of these rows, and the places of the rows in them.
fn sources_over<'v, R: Relation>(
    alloc: Global,
    relation: &'v R,
    from: usize,
    to: usize,
    exprs: &[Expr],
    columns: &[Vector],
    places: &[usize],
    lets: &[Value],
    now: i64,
) -> Result<Vec<Source<'v>>, EvalFault>
    requires piece { (from ≤ to) × (to ≤ length (R.rows relation.now)) }
    requires columns { Hold columns.now (piece_of (R.rows relation.now) from to) (concat (map columns_copied exprs.now)) }
    requires places { places.now ≡ range_with_len 0 (to - from) }
    ensures rows { MakeRows (map term_of exprs.now) (surroundings now lets.now) (piece_of (R.rows relation.now) from to) result }
    ensures wide { IfOk result (λ xs. length xs.items ≡ length exprs.now) }
{
    let mut sources = Vec::new(alloc);
    for expr in exprs {
        let source = source_of(alloc, expr, columns, places, lets, now)?;
        sources.push(lent_source(alloc, relation, from, to, source)?)?;
    }
    Ok(sources)
}

// The same source; a column that the relation lends is read where it lies.
fn lent_source<'v, R: Relation>(
    alloc: Global,
    relation: &'v R,
    from: usize,
    to: usize,
    source: Source<'v>,
) -> Result<Source<'v>, Memory>
    requires { (from ≤ to) × (to ≤ length (R.rows relation.now)) }
    ensures { IfOk result (λ x. cells_from x 0 (piece_of (R.rows relation.now) from to) ≡ cells_from source.entry 0 (piece_of (R.rows relation.now) from to)) }
{
    match source {
        Source::Column(j) => match relation.lend(alloc, j, from, to)? {
            Some(column) => Ok(Source::Made(column)),
            None => Ok(Source::Column(j)),
        },
        made => Ok(made),
    }
}

// Puts the rows last that the sources give of the rows from a place on, up to another.
fn push_rows<R: Relation>(
    alloc: Global,
    mapped: &mut Rows,
    sources: Vec<Source>,
    relation: &R,
    from: usize,
    to: usize,
) -> Result<(), Memory>
    requires piece { (from ≤ to) × (to ≤ length (R.rows relation.now)) }
    requires wide { All (HasWidth (length sources.items)) mapped.old }
    ensures ok { OnOk result (mapped.new ≡ mapped.old ++ rows_from sources.entry.items 0 (piece_of (R.rows relation.now) from to)) }
    ensures wide { OnOk result (All (HasWidth (length sources.entry.items)) mapped.new) }
{
    let mut left = sources;
    let width = left.len();
    let mut row = Vec::with_capacity(alloc, width)?;
    for i in from..to {
        fill_row(&mut row, &mut left, relation, i, i - from)?;
        push_row(mapped, &mut row, width)?;
    }
    Ok(())
}

// Puts a cell from each source into the row, which is empty, for the row at a place, which has the place `i` in its piece.
fn fill_row<R: Relation>(
    row: &mut Vec<Value>,
    sources: &mut Vec<Source>,
    relation: &R,
    at: usize,
    i: usize,
) -> Result<(), Memory>
    requires place { at < length (R.rows relation.now) }
    requires empty { row.old.items ≡ [] }
    ensures row { OnOk result (row.new.items ≡ row_from sources.old.items i (row_at (R.rows relation.now) at)) }
    ensures behind { OnOk result (GiveBehind i sources.old.items sources.new.items) }
    ensures wide { length sources.new.items ≡ length sources.old.items }
{
    for n in 0..sources.len() {
        row.push(take_cell(&mut sources[n], relation, at, i)?)?;
    }
    Ok(())
}

// Puts a row last, which is empty then.
fn push_row(mapped: &mut Rows, row: &mut Vec<Value>, width: usize) -> Result<(), Memory>
    requires rows { All (HasWidth width) mapped.old }
    requires row { length row.old.items ≡ width }
    ensures ok { OnOk result (mapped.new ≡ mapped.old ++ row.old.items ∷ []) }
    ensures wide { OnOk result (All (HasWidth width) mapped.new) }
    ensures left { OnOk result (row.new.items ≡ []) }
{
    mapped.push_from(row)
}
