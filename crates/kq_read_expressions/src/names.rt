// Names.
ghost use Rattle.std.specs.Prelude.{◌≡◌};
ghost use Rattle.kq_read_expressions.specs.Reading as spec;
ghost use Rattle.kq_read_symbols.specs.Outcomes.{IsOutcome};

use kq_read_grammar::Name;
use kq_read_symbols::{Class, Cursor, Part, Stop};
use kq_read_tokens::Punctuation;

// A string in brackets.
#[tactic(auto, unfolding(crate::specs::Reading::bracketed_name))]
pub(crate) fn bracketed_name(cursor: &mut Cursor<'_>) -> Result<Name, Stop>
    ensures { IsOutcome (λ n. n) (spec.bracketed_name cursor.old) result cursor.new }
{
    let first = cursor.expect(Class::Sign(Punctuation::OpenBracket))?;
    let text = cursor.expect(Class::Text)?;
    cursor.expect(Class::Sign(Punctuation::CloseBracket))?;
    Ok(Name::Bracketed { open: first, text })
}

/// The name that comes next.
#[tactic(auto, unfolding(crate::specs::Reading::name))]
pub fn read_name(cursor: &mut Cursor<'_>) -> Result<Name, Stop>
    ensures { IsOutcome (λ n. n) (spec.name cursor.old) result cursor.new }
{
    if cursor.sees(Class::Sign(Punctuation::OpenBracket)) {
        return bracketed_name(cursor);
    }
    let word = cursor.expect(Class::BareName)?;
    Ok(Name::Word(word))
}

/// One name.
#[derive(Clone, Copy)]
pub struct AName;

impl Part for AName {
    type Value = Name;

    ghost use Rattle.kq_read_grammar.specs.declared.expression.Name.{Name as Shown};

    ghost Shape = { Shown };

    ghost view = { λ n. n };

    ghost reader = { λ _. spec.name };

    ghost callable = { λ _. Unit {0} };

    fn read(&self, cursor: &mut Cursor<'_>) -> Result<Name, Stop> {
        read_name(cursor)
    }
}
