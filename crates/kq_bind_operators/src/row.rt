// `print`: one row.
ghost use Rattle.std.specs.Prelude.{◌≡◌, ◌∷◌, map};
ghost use Rattle.kq_bind_operators.specs.Operators.{printed_row as the_printed_row};
ghost use Rattle.kq_bind_operators.specs.Seen.{flow_of, progress_of, scoping_of};
ghost use Rattle.kq_bind_expressions.specs.Verdicts.{AnswersVerdict};
ghost use Rattle.kq_read_grammar.specs.Views.{item_view};

use crate::flow::{Flow, Progress, following};
use crate::scope::{Scope, expression_scope};
use kq_bind_columns::printed;
use kq_bind_expressions::BindFault;
use kq_plan::{Names, Work};
use kq_read_grammar::Item;
use std::alloc::Global;

/// `print`: one row.
pub fn printed_row<N: Names>(
    alloc: Global,
    scope: &Scope<N>,
    progress: Progress,
    first: &Item,
    others: &[Item],
) -> Result<Flow, BindFault>
    ensures { AnswersVerdict flow_of (the_printed_row (scoping_of N.known scope.now) (progress_of progress) (item_view first.now ∷ map item_view others.now)) result }
{
    let seen = expression_scope(scope);
    let made = printed(alloc, &seen, first, others)?;
    following(progress, Work::Row(made.exprs), made.fields)
}
