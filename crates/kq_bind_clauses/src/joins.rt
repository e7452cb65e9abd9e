// What joins match on, and the columns that they give.
ghost use Rattle.std.specs.Prelude.{◌≡◌, ◌∷◌, IfOk};
ghost use Rattle.kq_bind_clauses.specs.Joins.{kind_said as the_kind_said, kind_of as the_kind_of, join_kind as the_join_kind, is_key as the_is_key, matched as the_matched, on_key as the_on_key, on_keys as the_on_keys, beside as the_beside, join_columns as the_join_columns};
ghost use Rattle.kq_bind_expressions.specs.Verdicts.{AnswersVerdict};

use kq_bind_columns::{free_name, name_place, place_in};
use kq_bind_expressions::BindFault;
use kq_plan::JoinKind;
use kq_read_grammar::{JoinKey, Name};
use kq_read_symbols::{JoinKind as KindWord, Kind, Quoted, Word};
use kq_value::{Field, Memory, Ty};
use std::alloc::Global;

fn kind_said(word: KindWord) -> JoinKind
    ensures { result ≡ the_kind_said word }
{
    match word {
        KindWord::InnerUnique => JoinKind::InnerUnique,
        KindWord::Inner => JoinKind::Inner,
        KindWord::LeftOuter => JoinKind::LeftOuter,
        KindWord::RightOuter => JoinKind::RightOuter,
        KindWord::FullOuter => JoinKind::FullOuter,
        KindWord::LeftSemi => JoinKind::LeftSemi,
        KindWord::RightSemi => JoinKind::RightSemi,
        KindWord::LeftAnti => JoinKind::LeftAnti,
        KindWord::RightAnti => JoinKind::RightAnti,
    }
}

fn kind_of(kind: Kind) -> JoinKind
    ensures { result ≡ the_kind_of kind }
{
    match kind {
        Kind::Word(Word::Join(word)) => kind_said(word),
        Kind::String(Quoted::JoinKind(word)) => kind_said(word),
        _ => JoinKind::InnerUnique,
    }
}

/// Which rows a join gives: `innerunique` where no kind is said.
pub fn join_kind(kind: Option<Name>) -> JoinKind
    ensures { result ≡ the_join_kind kind }
{
    match kind {
        None => JoinKind::InnerUnique,
        Some(Name::Word(symbol)) => kind_of(symbol.kind),
        Some(Name::Bracketed { open: _, text }) => kind_of(text.kind),
    }
}

fn is_key(left: Ty, right: Ty) -> bool
    ensures { result ≡ the_is_key left right }
{
    left.same(right) && !left.same(Ty::Dynamic)
}

// The numbers of two columns that match.
fn matched(at: usize, left: (usize, Ty), right: (usize, Ty)) -> Result<(usize, usize), BindFault>
    ensures { AnswersVerdict (λ p. p) (the_matched at left right) result }
{
    if is_key(left.1, right.1) {
        Ok((left.0, right.0))
    } else {
        Err(BindFault::Mistyped { at })
    }
}

fn on_key(
    alloc: Global,
    text: &str,
    left: &[Field],
    right: &[Field],
    key: JoinKey,
) -> Result<(usize, usize), BindFault>
    ensures { AnswersVerdict (λ p. p) (the_on_key text.now left.now right.now key) result }
{
    match key {
        JoinKey::Both(name) => {
            let left = place_in(alloc, text, left, name)?;
            let right = place_in(alloc, text, right, name)?;
            matched(name_place(name), left, right)
        }
        JoinKey::LeftRight(first, equals, second) => {
            let left = place_in(alloc, text, left, first)?;
            let right = place_in(alloc, text, right, second)?;
            matched(equals.from, left, right)
        }
        JoinKey::RightLeft(first, equals, second) => {
            let right = place_in(alloc, text, right, first)?;
            let left = place_in(alloc, text, left, second)?;
            matched(equals.from, left, right)
        }
    }
}

/// For each key the numbers, from 0, of the left column and of the right one that match, or the first fault: Unknown at a name of no column of its
/// side, in the order of the text; Mistyped where the two types differ or are dynamic, at the `==`, or else at the name.
pub fn on_keys(
    alloc: Global,
    text: &str,
    left: &[Field],
    right: &[Field],
    first: JoinKey,
    others: &[JoinKey],
) -> Result<Vec<(usize, usize)>, BindFault>
    ensures { AnswersVerdict (λ v. v.items) (the_on_keys text.now left.now right.now (first ∷ others.now)) result }
{
    let mut pairs = Vec::new(alloc);
    pairs.push(on_key(alloc, text, left, right, first)?)?;
    for key in others {
        pairs.push(on_key(alloc, text, left, right, *key)?)?;
    }
    Ok(pairs)
}

// The right columns behind the left ones, each with a free name.
fn beside(alloc: Global, left: Vec<Field>, right: Vec<Field>) -> Result<Vec<Field>, Memory>
    ensures { IfOk result (λ v. v.items ≡ the_beside left.items right.items) }
{
    let mut columns = left;
    for column in &right {
        let name = free_name(alloc, &columns, &[], column.name.clone_in()?)?;
        columns.push(Field {
            name,
            ty: column.ty,
        })?;
    }
    Ok(columns)
}

/// The columns of a join: those of one side for `semi` and `anti`, and else the left ones and then the right ones, where a right one whose name is
/// taken has the least suffix 1, 2, 3 that is free.
pub fn join_columns(
    alloc: Global,
    kind: JoinKind,
    left: Vec<Field>,
    right: Vec<Field>,
) -> Result<Vec<Field>, Memory>
    ensures { IfOk result (λ v. v.items ≡ the_join_columns kind left.items right.items) }
{
    match kind {
        JoinKind::LeftSemi | JoinKind::LeftAnti => Ok(left),
        JoinKind::RightSemi | JoinKind::RightAnti => Ok(right),
        _ => beside(alloc, left, right),
    }
}
