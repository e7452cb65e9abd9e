// `sort` and `top`.
ghost use Rattle.std.specs.Prelude.{◌≡◌, ◌∷◌, map};
ghost use Rattle.kq_bind_operators.specs.Clauses as the;
ghost use Rattle.kq_bind_operators.specs.Seen.{flow_of, scoping_of};
ghost use Rattle.kq_bind_expressions.specs.Verdicts.{AnswersVerdict};
ghost use Rattle.kq_read_grammar.specs.Views.{key_view};

use crate::flow::{Flow, columns, copied, following};
use crate::operators::row_number;
use crate::scope::{Scope, expression_scope};
use kq_bind_clauses::{sort_key, sort_keys};
use kq_bind_expressions::BindFault;
use kq_plan::{Names, Work};
use kq_read_grammar::Key;
use kq_read_symbols::Symbol;
use std::alloc::Global;

/// `sort`.
pub fn sorted_by<N: Names>(
    alloc: Global,
    scope: &Scope<N>,
    flow: Flow,
    first: &Key,
    others: &[Key],
) -> Result<Flow, BindFault>
    ensures { AnswersVerdict flow_of (the.sorted_by (scoping_of N.known scope.now) (flow_of flow) (key_view first.now ∷ map key_view others.now)) result }
{
    let seen = expression_scope(scope);
    let keys = sort_keys(alloc, &seen, columns(&flow), first, others)?;
    let kept = copied(alloc, columns(&flow))?;
    following(flow.progress, Work::Sort(flow.input, keys), kept)
}

/// `top`.
pub fn topped_by<N: Names>(
    alloc: Global,
    scope: &Scope<N>,
    flow: Flow,
    number: Symbol,
    key: &Key,
) -> Result<Flow, BindFault>
    ensures { AnswersVerdict flow_of (the.topped_by (scoping_of N.known scope.now) (flow_of flow) number (key_view key.now)) result }
{
    let rows = row_number(alloc, scope, number)?;
    let seen = expression_scope(scope);
    let key = sort_key(alloc, &seen, columns(&flow), key)?;
    let kept = copied(alloc, columns(&flow))?;
    following(flow.progress, Work::Top(flow.input, rows, key), kept)
}
