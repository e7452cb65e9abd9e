// The aggregates of a summarize, one after another.
ghost use Rattle.std.specs.Prelude.{◌≡◌, ◌∷◌, [], map, IfOk, Ok};
ghost use Rattle.kq_bind_aggregates.specs.Functions.{aggregate_named};
ghost use Rattle.kq_bind_aggregates.specs.Gathered as the;
ghost use Rattle.kq_bind_aggregates.specs.Seen.{fields_of, gathering_of, aggregated_of};
ghost use Rattle.kq_bind_expressions.specs.Names.{names_of};
ghost use Rattle.kq_bind_expressions.specs.Verdicts.{AnswersVerdict};
ghost use Rattle.kq_read_grammar.specs.Views.{aggregate_view};

use crate::arguments::{all_argued, unkeyed};
use crate::function::find;
use crate::made::{Aggregated, made};
use kq_bind_columns::{free_name, is_taken, name_place, name_text, piece};
use kq_bind_expressions::{BindFault, Scope};
use kq_plan::Aggregate;
use kq_read_grammar::Name;
use kq_value::{Field, Memory, Text};
use std::alloc::Global;

/// What the aggregates of a summarize do, and its columns: those of the keys, and behind them those of the aggregates.
#[derive(Drop)]
pub struct Gathered {
    pub aggregates: Vec<Aggregate>,
    pub fields: Vec<Field>,
}

/// The columns of the keys, where there is no aggregate.
pub fn no_aggregate(alloc: Global, keys: Vec<Field>) -> Gathered
    ensures { gathering_of result ≡ the.no_aggregate keys.items }
{
    Gathered {
        aggregates: Vec::new(alloc),
        fields: keys,
    }
}

/// What aggregates are bound to over these columns, behind the columns of the keys, or their first fault: of each the called name, its arguments from
/// left to right, their types, and then the name that it is given. That name is the first column's; the others, and all where none is given, have
/// default names, with the least suffix 1, 2, 3 that is free where a name is taken. `*` stands for the columns whose name isn't a key's, beside a
/// value for all of these but its own.
pub fn aggregates_made(
    alloc: Global,
    scope: &Scope,
    columns: &[Field],
    keys: Vec<Field>,
    first: &kq_read_grammar::Aggregate,
    others: &[kq_read_grammar::Aggregate],
) -> Result<Gathered, BindFault>
    ensures { let given = aggregate_view first.now ∷ map aggregate_view others.now in
        AnswersVerdict gathering_of (the.aggregates_made (names_of scope.now) columns.now keys.items (the.no_aggregate keys.items) given) result }
{
    let starred = unkeyed(alloc, columns, &keys)?;
    let start = no_aggregate(alloc, keys);
    let gathered = aggregate_made(alloc, scope, columns, &starred, start, first)?;
    each_made(alloc, scope, columns, &starred, gathered, others)
}

fn each_made(
    alloc: Global,
    scope: &Scope,
    columns: &[Field],
    starred: &[usize],
    before: Gathered,
    aggregates: &[kq_read_grammar::Aggregate],
) -> Result<Gathered, BindFault>
    ensures { let given = map aggregate_view aggregates.now in
        AnswersVerdict gathering_of (the.each_made (names_of scope.now) columns.now starred.now (gathering_of before) given) result }
{
    let mut gathered = before;
    for aggregate in aggregates {
        gathered = aggregate_made(alloc, scope, columns, starred, gathered, aggregate)?;
    }
    Ok(gathered)
}

fn aggregate_made(
    alloc: Global,
    scope: &Scope,
    columns: &[Field],
    starred: &[usize],
    before: Gathered,
    aggregate: &kq_read_grammar::Aggregate,
) -> Result<Gathered, BindFault>
    ensures { let given = aggregate_view aggregate.now in
        AnswersVerdict gathering_of (the.aggregate_made (names_of scope.now) columns.now starred.now (gathering_of before) given) result }
{
    let at = aggregate.function.from;
    let Some(function) = find(piece(scope.text, aggregate.function)) else {
        return Err(BindFault::Unknown { at });
    };
    let given = all_argued(alloc, scope, columns, &aggregate.arguments)?;
    match made(alloc, function, columns, starred, given)? {
        Some(one) => gather(alloc, scope.text, before, aggregate.given, one),
        None => Err(BindFault::Mistyped { at }),
    }
}

fn gather(
    alloc: Global,
    text: &str,
    before: Gathered,
    given: Option<Name>,
    one: Aggregated,
) -> Result<Gathered, BindFault>
    ensures { AnswersVerdict gathering_of (the.gathered text.now (gathering_of before) given (aggregated_of one)) result }
{
    let fields = put_columns(alloc, text, before.fields, given, &one.columns)?;
    let mut aggregates = before.aggregates;
    aggregates.push(one.aggregate)?;
    Ok(Gathered { aggregates, fields })
}

fn put_columns(
    alloc: Global,
    text: &str,
    before: Vec<Field>,
    given: Option<Name>,
    columns: &[Field],
) -> Result<Vec<Field>, BindFault>
    ensures { AnswersVerdict fields_of (the.put_columns text.now before.items given columns.now) result }
{
    match given {
        None => Ok(put_defaults(alloc, before, columns)?),
        Some(name) => {
            let said = name_text(alloc, text, name)?;
            if is_taken(&before, said.as_str()) {
                Err(BindFault::Mistyped {
                    at: name_place(name),
                })
            } else {
                Ok(put_named(alloc, before, said, columns)?)
            }
        }
    }
}

fn put_named(
    alloc: Global,
    before: Vec<Field>,
    name: Text,
    columns: &[Field],
) -> Result<Vec<Field>, Memory>
    ensures { IfOk result (λ v. v.items ≡ the.put_named before.items name columns.now) }
{
    match columns {
        [] => Ok(before),
        [first, others @ ..] => {
            let mut fields = before;
            fields.push(Field { name, ty: first.ty })?;
            put_defaults(alloc, fields, others)
        }
    }
}

fn put_defaults(alloc: Global, before: Vec<Field>, columns: &[Field]) -> Result<Vec<Field>, Memory>
    ensures { IfOk result (λ v. v.items ≡ the.put_defaults before.items columns.now) }
{
    let mut fields = before;
    for column in columns {
        let name = free_name(alloc, &fields, &[], column.name.clone_in()?)?;
        fields.push(Field {
            name,
            ty: column.ty,
        })?;
    }
    Ok(fields)
}
