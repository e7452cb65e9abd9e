// What a join matches on, and renamings.
ghost use Rattle.std.specs.Prelude.{◌≡◌};
ghost use Rattle.kq_read_clauses.specs.Reading as spec;
ghost use Rattle.kq_read_symbols.specs.Outcomes.{IsOutcome};
ghost use Rattle.kq_read_tokens.specs.declared.kind.Side.TheVariants as side;

use kq_read_expressions::{listed, read_name};
use kq_read_grammar::{JoinKey, Name};
use kq_read_symbols::{Class, Cursor, Part, Stop};
use kq_read_tokens::{Operator, Punctuation, Side};
use std::alloc::Global;

/// The kind of a join, as a word or as a string in brackets.
#[tactic(auto, unfolding(crate::specs::Reading::join_kind))]
pub fn read_join_kind(cursor: &mut Cursor<'_>) -> Result<Name, Stop>
    ensures { IsOutcome (λ n. n) (spec.join_kind cursor.old) result cursor.new }
{
    if !cursor.sees(Class::Sign(Punctuation::OpenBracket)) {
        return Ok(Name::Word(cursor.expect(Class::JoinKind)?));
    }
    let first = cursor.expect(Class::Sign(Punctuation::OpenBracket))?;
    let text = cursor.expect(Class::QuotedJoinKind)?;
    cursor.expect(Class::Sign(Punctuation::CloseBracket))?;
    Ok(Name::Bracketed { open: first, text })
}

// A name behind its side.
fn sided(side: Side, cursor: &mut Cursor<'_>) -> Result<Name, Stop>
    ensures { IsOutcome (λ n. n) (spec.sided side cursor.old) result cursor.new }
{
    cursor.expect(Class::Side(side))?;
    cursor.expect(Class::Sign(Punctuation::Dot))?;
    read_name(cursor)
}

#[tactic(auto, unfolding(crate::specs::Reading::left_right))]
fn left_right(cursor: &mut Cursor<'_>) -> Result<JoinKey, Stop>
    ensures { IsOutcome (λ q. q) (spec.left_right cursor.old) result cursor.new }
{
    let left = sided(Side::Left, cursor)?;
    let equals = cursor.expect(Class::Operator(Operator::Equal))?;
    let right = sided(Side::Right, cursor)?;
    Ok(JoinKey::LeftRight(left, equals, right))
}

#[tactic(auto, unfolding(crate::specs::Reading::right_left))]
fn right_left(cursor: &mut Cursor<'_>) -> Result<JoinKey, Stop>
    ensures { IsOutcome (λ q. q) (spec.right_left cursor.old) result cursor.new }
{
    let right = sided(Side::Right, cursor)?;
    let equals = cursor.expect(Class::Operator(Operator::Equal))?;
    let left = sided(Side::Left, cursor)?;
    Ok(JoinKey::RightLeft(right, equals, left))
}

// One key of a join.
#[derive(Clone, Copy)]
struct AJoinKey;

impl Part for AJoinKey {
    type Value = JoinKey;

    ghost use Rattle.kq_read_grammar.specs.declared.clause.JoinKey.{JoinKey as Shown};

    ghost Shape = { Shown };

    ghost view = { λ q. q };

    ghost reader = { λ _. spec.join_key };

    ghost callable = { λ _. Unit {0} };

    #[tactic(auto, unfolding(crate::specs::Reading::join_key))]
    fn read(&self, cursor: &mut Cursor<'_>) -> Result<JoinKey, Stop> {
        if cursor.sees(Class::Side(Side::Left)) {
            return left_right(cursor);
        }
        if cursor.sees(Class::Side(Side::Right)) {
            return right_left(cursor);
        }
        Ok(JoinKey::Both(read_name(cursor)?))
    }
}

/// One key of a join or more. The budget is at least the number of symbols that are left.
#[tactic(auto, unfolding(crate::specs::Reading::join_keys))]
pub fn read_join_keys(
    alloc: Global,
    cursor: &mut Cursor<'_>,
    budget: usize,
) -> Result<(JoinKey, Vec<JoinKey>), Stop>
    ensures { IsOutcome (λ p. (p.0, p.1.items)) (spec.join_keys budget cursor.old) result cursor.new }
{
    listed(alloc, cursor, budget, &AJoinKey)
}

// One new name with the old one.
#[derive(Clone, Copy)]
struct ARenaming;

impl Part for ARenaming {
    type Value = (Name, Name);

    ghost use Rattle.kq_read_grammar.specs.declared.expression.Name.{Name as Shown};

    ghost Shape = { Shown × Shown };

    ghost view = { λ p. p };

    ghost reader = { λ _. spec.renaming };

    ghost callable = { λ _. Unit {0} };

    #[tactic(auto, unfolding(crate::specs::Reading::renaming))]
    fn read(&self, cursor: &mut Cursor<'_>) -> Result<(Name, Name), Stop> {
        let new = read_name(cursor)?;
        cursor.expect(Class::Operator(Operator::Assign))?;
        let old = read_name(cursor)?;
        Ok((new, old))
    }
}

/// One new name with the old one, or more.
#[tactic(auto, unfolding(crate::specs::Reading::renamings))]
pub fn read_renamings(
    alloc: Global,
    cursor: &mut Cursor<'_>,
    budget: usize,
) -> Result<((Name, Name), Vec<(Name, Name)>), Stop>
    ensures { IsOutcome (λ p. (p.0, p.1.items)) (spec.renamings budget cursor.old) result cursor.new }
{
    listed(alloc, cursor, budget, &ARenaming)
}
