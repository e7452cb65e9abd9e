// Sources that hold no pipe.
ghost use Rattle.std.specs.Prelude.{◌≡◌, ◌∷◌};
ghost use Rattle.kq_bind_operators.specs.Clauses.{table_rows as the_table_rows};
ghost use Rattle.kq_bind_operators.specs.Seen.{flow_of, progress_of, range_flow, scoping_of};
ghost use Rattle.kq_bind_expressions.specs.Verdicts.{AnswersVerdict};

use crate::flow::{Flow, Progress, following};
use crate::scope::{Scope, expression_scope};
use kq_bind_clauses::{range_column, ranged, tabled};
use kq_bind_expressions::BindFault;
use kq_plan::{Names, Work};
use kq_read_grammar::{Cell, Column, Expression, Name};
use std::alloc::Global;

/// `range`: one column.
pub fn bind_range<N: Names>(
    alloc: Global,
    scope: &Scope<N>,
    progress: Progress,
    name: Name,
    first: &Expression,
    last: &Expression,
    step: &Expression,
) -> Result<Flow, BindFault>
    ensures { AnswersVerdict flow_of (range_flow (scoping_of N.known scope.now) (progress_of progress) name first.now last.now step.now) result }
{
    let seen = expression_scope(scope);
    let range = ranged(alloc, &seen, first, last, step)?;
    let columns = range_column(alloc, scope.text, name, range.ty)?;
    following(
        progress,
        Work::Range(range.first, range.last, range.step),
        columns,
    )
}

/// `datatable`, whose word stands at a place.
pub fn table_rows<N: Names>(
    alloc: Global,
    scope: &Scope<N>,
    progress: Progress,
    at: usize,
    first: Column,
    others: &[Column],
    cells: &[Cell],
) -> Result<Flow, BindFault>
    ensures { AnswersVerdict flow_of (the_table_rows (scoping_of N.known scope.now) (progress_of progress) at (first ∷ others.now) cells.now) result }
{
    let table = tabled(alloc, scope.text, at, first, others, cells)?;
    following(progress, Work::Table(table.rows), table.columns)
}
