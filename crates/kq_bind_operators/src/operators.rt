// Operators that hold no pipe.
ghost use Rattle.std.specs.Prelude.{◌≡◌, ◌∷◌, [], map, Ok, IfOk};
ghost use Rattle.std.specs.Option.{option_and_then};
ghost use Rattle.kq_bind_operators.specs.Flows.{after as the_after};
ghost use Rattle.kq_bind_operators.specs.Operators as the;
ghost use Rattle.kq_bind_operators.specs.Seen.{flow_of, scoping_of};
ghost use Rattle.kq_bind_columns.specs.Made.{columns_of};
ghost use Rattle.kq_bind_expressions.specs.Verdicts.{AnswersVerdict};
ghost use Rattle.kq_plan_expressions.specs.Terms.{typed_of};
ghost use Rattle.kq_read_grammar.specs.Views.{tree_of, item_view};
ghost use Rattle.kq_plan.specs.Plans.{counted};

use crate::flow::{Flow, columns, copied, following};
use crate::scope::{Scope, expression_scope};
use kq_bind_columns::{
    Laid, all_chosen, all_made, as_they_are, chosen, chosen_by_second, columns_at, first_token,
    names_given, over, renamed as fields_renamed, without,
};
use kq_bind_expressions::{BindFault, bind_expression};
use kq_plan::{Names, Work};
use kq_plan_expressions::Typed;
use kq_read_grammar::{Expression, Item, Name};
use kq_read_meanings::literal_value;
use kq_read_symbols::Symbol;
use kq_value::{Field, Memory, Text, Ty, Value};
use std::alloc::Global;

// ---- conditions and numbers

/// `where`: the type of the condition is bool.
pub fn filtered<N: Names>(
    alloc: Global,
    scope: &Scope<N>,
    flow: Flow,
    tree: &Expression,
) -> Result<Flow, BindFault>
    ensures { AnswersVerdict flow_of (the.filtered (scoping_of N.known scope.now) (flow_of flow) (tree_of tree.now)) result }
{
    let seen = expression_scope(scope);
    let one = bind_expression(alloc, &seen, columns(&flow), tree)?;
    where_true(alloc, flow, first_token(tree), one)
}

fn where_true(alloc: Global, flow: Flow, at: usize, one: Typed) -> Result<Flow, BindFault>
    ensures { AnswersVerdict flow_of (the.where_true (flow_of flow) at (typed_of one)) result }
{
    if one.ty.same(Ty::Bool) {
        let kept = copied(alloc, columns(&flow))?;
        following(flow.progress, Work::Where(flow.input, one.expr), kept)
    } else {
        Err(BindFault::Mistyped { at })
    }
}

fn natural(value: Option<Value>) -> Option<u64>
    ensures { result ≡ option_and_then the.natural value }
{
    match value {
        Some(Value::Long(number)) => u64::try_from(number).ok(),
        _ => None,
    }
}

// How many rows, as a whole number says.
pub(crate) fn row_number<N: Names>(
    alloc: Global,
    scope: &Scope<N>,
    number: Symbol,
) -> Result<u64, BindFault>
    ensures { AnswersVerdict (λ n. n) (the.row_number (scoping_of N.known scope.now) number) result }
{
    let value = literal_value(alloc, scope.text, number)?;
    match natural(value) {
        Some(rows) => Ok(rows),
        None => Err(BindFault::Unsupported { at: number.from }),
    }
}

/// `take`.
pub fn taken<N: Names>(
    alloc: Global,
    scope: &Scope<N>,
    flow: Flow,
    number: Symbol,
) -> Result<Flow, BindFault>
    ensures { AnswersVerdict flow_of (the.taken (scoping_of N.known scope.now) (flow_of flow) number) result }
{
    let rows = row_number(alloc, scope, number)?;
    let kept = copied(alloc, columns(&flow))?;
    following(flow.progress, Work::Take(flow.input, rows), kept)
}

fn count_column(alloc: Global) -> Result<Vec<Field>, Memory>
    ensures { IfOk result (λ v. v.items ≡ the.count_column) }
{
    let name = Text::from_str(alloc, "Count")?;
    let mut columns = Vec::new(alloc);
    columns.push(Field { name, ty: Ty::Long })?;
    Ok(columns)
}

/// `count`.
pub fn counted_rows(alloc: Global, flow: Flow) -> Result<Flow, BindFault>
    ensures { AnswersVerdict flow_of (Ok (the_after (flow_of flow) counted the.count_column)) result }
{
    let columns = count_column(alloc)?;
    following(flow.progress, Work::Count(flow.input), columns)
}

// ---- columns

/// `project`.
pub fn projected<N: Names>(
    alloc: Global,
    scope: &Scope<N>,
    flow: Flow,
    first: &Item,
    others: &[Item],
) -> Result<Flow, BindFault>
    ensures { AnswersVerdict flow_of (the.projected (scoping_of N.known scope.now) (flow_of flow) (item_view first.now ∷ map item_view others.now)) result }
{
    let seen = expression_scope(scope);
    let made = all_made(alloc, &seen, columns(&flow), &[], false, first, others)?;
    following(
        flow.progress,
        Work::Project(flow.input, made.exprs),
        made.fields,
    )
}

fn laid_after(flow: Flow, laid: Laid) -> Result<Flow, BindFault>
    ensures { AnswersVerdict flow_of (Ok (the.laid_after (flow_of flow) (columns_of laid))) result }
{
    following(
        flow.progress,
        Work::Project(flow.input, laid.exprs),
        laid.fields,
    )
}

/// `extend`.
pub fn extended<N: Names>(
    alloc: Global,
    scope: &Scope<N>,
    flow: Flow,
    first: &Item,
    others: &[Item],
) -> Result<Flow, BindFault>
    ensures { AnswersVerdict flow_of (the.extended (scoping_of N.known scope.now) (flow_of flow) (item_view first.now ∷ map item_view others.now)) result }
{
    let seen = expression_scope(scope);
    let made = all_made(
        alloc,
        &seen,
        columns(&flow),
        columns(&flow),
        false,
        first,
        others,
    )?;
    let under = copied(alloc, columns(&flow))?;
    laid_after(flow, over(alloc, under, made)?)
}

/// `project-away`.
pub fn dropped<N: Names>(
    alloc: Global,
    scope: &Scope<N>,
    flow: Flow,
    first: Name,
    others: &[Name],
) -> Result<Flow, BindFault>
    ensures { AnswersVerdict flow_of (the.dropped (scoping_of N.known scope.now) (flow_of flow) (first ∷ others.now)) result }
{
    let numbers = chosen(alloc, scope.text, columns(&flow), false, first, others)?;
    let laid = without(alloc, columns(&flow), &numbers)?;
    laid_after(flow, laid)
}

/// `project-rename`: all at once.
pub fn renamed<N: Names>(
    alloc: Global,
    scope: &Scope<N>,
    flow: Flow,
    first: (Name, Name),
    others: &[(Name, Name)],
) -> Result<Flow, BindFault>
    ensures { AnswersVerdict flow_of (the.renamed (scoping_of N.known scope.now) (flow_of flow) (first ∷ others.now)) result }
{
    let numbers = chosen_by_second(alloc, scope.text, columns(&flow), first, others)?;
    let others_kept = without(alloc, columns(&flow), &numbers)?;
    let names = names_given(alloc, scope.text, others_kept.fields, first, others)?;
    let fields = fields_renamed(alloc, columns(&flow), &numbers, &names)?;
    let exprs = as_they_are(alloc, columns(&flow))?;
    following(flow.progress, Work::Project(flow.input, exprs), fields)
}

// ---- distinct rows

/// `distinct` of these columns.
pub fn bind_distinct<N: Names>(
    alloc: Global,
    scope: &Scope<N>,
    flow: Flow,
    first: Name,
    others: &[Name],
) -> Result<Flow, BindFault>
    ensures { AnswersVerdict flow_of (the.bind_distinct (scoping_of N.known scope.now) (flow_of flow) (first ∷ others.now)) result }
{
    let numbers = chosen(alloc, scope.text, columns(&flow), true, first, others)?;
    let fields = columns_at(alloc, columns(&flow), &numbers)?;
    following(flow.progress, Work::Distinct(flow.input, numbers), fields)
}

/// `distinct` of all columns.
pub fn all_distinct(alloc: Global, flow: Flow, star: Symbol) -> Result<Flow, BindFault>
    ensures { AnswersVerdict flow_of (the.all_distinct (flow_of flow) star) result }
{
    let numbers = all_chosen(alloc, star.from, columns(&flow))?;
    let kept = copied(alloc, columns(&flow))?;
    following(flow.progress, Work::Distinct(flow.input, numbers), kept)
}
