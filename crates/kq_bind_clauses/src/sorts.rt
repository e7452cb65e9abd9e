// What rows are sorted by.
ghost use Rattle.std.specs.Prelude.{◌≡◌, ◌∷◌, map};
ghost use Rattle.kq_bind_clauses.specs.Sorts.{is_ascending as the_is_ascending, is_first as the_is_first, descends as the_descends, nulls_come_first as the_nulls_come_first, sorting as the_sorting, sort_key as the_sort_key, sort_keys as the_sort_keys, unsupported_keys as the_unsupported_keys};
ghost use Rattle.kq_bind_expressions.specs.Names.{names_of};
ghost use Rattle.kq_bind_expressions.specs.Verdicts.{AnswersVerdict};
ghost use Rattle.kq_plan_expressions.specs.Terms.{typed_of};
ghost use Rattle.kq_read_grammar.specs.Views.{key_view};
ghost use Rattle.kq_plan.specs.Plans.{sorting_of};

use kq_bind_columns::operand;
use kq_bind_expressions::{BindFault, Scope, unsupported};
use kq_plan::SortKey;
use kq_plan_expressions::Typed;
use kq_read_grammar::Key;
use kq_read_symbols::{ClauseWord, Kind, Symbol, Word};
use kq_value::Field;
use std::alloc::Global;

fn is_ascending(kind: Kind) -> bool
    ensures { result ≡ the_is_ascending kind }
{
    matches!(kind, Kind::Word(Word::Clause(ClauseWord::Asc)))
}

fn is_first(kind: Kind) -> bool
    ensures { result ≡ the_is_first kind }
{
    matches!(kind, Kind::Word(Word::Clause(ClauseWord::First)))
}

fn descends(direction: Option<Symbol>) -> bool
    ensures { result ≡ the_descends direction }
{
    match direction {
        None => true,
        Some(symbol) => !is_ascending(symbol.kind),
    }
}

fn nulls_come_first(direction: Option<Symbol>, nulls: Option<Symbol>) -> bool
    ensures { result ≡ the_nulls_come_first direction nulls }
{
    match nulls {
        None => !descends(direction),
        Some(symbol) => is_first(symbol.kind),
    }
}

fn sorting(key: &Key, one: Typed) -> SortKey
    ensures { sorting_of result ≡ the_sorting (key_view key.now) (typed_of one) }
{
    SortKey {
        value: one.expr,
        descending: descends(key.direction),
        nulls_first: nulls_come_first(key.direction, key.nulls),
    }
}

/// A key of `sort` or `top`, bound over these columns. Rows descend unless the key says `asc`; nulls come last where they descend and first where
/// they ascend, unless it says where. A dynamic is Mistyped at the first token of the key.
pub fn sort_key(
    alloc: Global,
    scope: &Scope,
    columns: &[Field],
    key: &Key,
) -> Result<SortKey, BindFault>
    ensures { AnswersVerdict sorting_of (the_sort_key (names_of scope.now) columns.now (key_view key.now)) result }
{
    let one = operand(alloc, scope, columns, true, &key.value)?;
    Ok(sorting(key, one))
}

/// The keys, as `sort_key` has each, or their first fault from left to right.
pub fn sort_keys(
    alloc: Global,
    scope: &Scope,
    columns: &[Field],
    first: &Key,
    others: &[Key],
) -> Result<Vec<SortKey>, BindFault>
    ensures { let keys = key_view first.now ∷ map key_view others.now in
        AnswersVerdict (λ v. map sorting_of v.items) (the_sort_keys (names_of scope.now) columns.now keys) result }
{
    let mut keys = Vec::new(alloc);
    keys.push(sort_key(alloc, scope, columns, first)?)?;
    for key in others {
        keys.push(sort_key(alloc, scope, columns, key)?)?;
    }
    Ok(keys)
}

/// The place of the leftmost literal of the keys that isn't supported.
pub fn unsupported_keys(text: &str, first: &Key, others: &[Key]) -> Option<usize>
    ensures { result ≡ the_unsupported_keys text.now (key_view first.now ∷ map key_view others.now) }
{
    if let Some(place) = unsupported(text, &first.value) {
        return Some(place);
    }
    for key in others {
        if let Some(place) = unsupported(text, &key.value) {
            return Some(place);
        }
    }
    None
}
