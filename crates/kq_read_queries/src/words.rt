// The words that sources and operators begin with.
ghost use Rattle.std.specs.Prelude.{◌≡◌, Some};
ghost use Rattle.kq_read_grammar.specs.Tabulars.{any_source_word, leading_key, operator_of, source_of, table_word};
ghost use Rattle.kq_read_symbols.specs.Classes.{of};
ghost use Rattle.kq_read_symbols.specs.declared.kind.Kind.TheVariants as kind;
ghost use Rattle.kq_read_symbols.specs.declared.word.Word.TheVariants as word;
ghost use Rattle.kq_read_symbols.specs.Forms.{expect, starts};
ghost use Rattle.kq_read_symbols.specs.Outcomes.{IsOutcome};
ghost use Rattle.kq_read_symbols.specs.Switching.{expect_mark};

use kq_read_grammar::OperatorKey;
use kq_read_symbols::{Cursor, Kind, OperatorWord, SourceWord, Stop, Symbol, Word};
use kq_read_tokens::DashedWord;

fn key_of_word(leading: OperatorWord) -> OperatorKey
    ensures { leading_key (kind.Word (word.Operator leading)) ≡ Some result }
{
    match leading {
        OperatorWord::Where | OperatorWord::Filter => OperatorKey::Where,
        OperatorWord::Extend => OperatorKey::Extend,
        OperatorWord::Project => OperatorKey::Project,
        OperatorWord::Take | OperatorWord::Limit => OperatorKey::Take,
        OperatorWord::Count => OperatorKey::Count,
        OperatorWord::Sort | OperatorWord::Order => OperatorKey::Sort,
        OperatorWord::Top => OperatorKey::Top,
        OperatorWord::Distinct => OperatorKey::Distinct,
        OperatorWord::Summarize => OperatorKey::Summarize,
        OperatorWord::Join => OperatorKey::Join,
    }
}

fn key_of_dashed_word(dashed: DashedWord) -> Option<OperatorKey>
    ensures { leading_key (kind.DashedWord dashed) ≡ result }
{
    match dashed {
        DashedWord::ProjectAway => Some(OperatorKey::ProjectAway),
        DashedWord::ProjectRename => Some(OperatorKey::ProjectRename),
        DashedWord::MvExpand => Some(OperatorKey::MvExpand),
        _ => None,
    }
}

// Which operator a symbol of the kind begins.
pub(crate) fn operator_key(kind: Kind) -> Option<OperatorKey>
    ensures { result ≡ leading_key kind }
{
    match kind {
        Kind::Word(Word::Operator(word)) => Some(key_of_word(word)),
        Kind::Word(Word::Source(SourceWord::Union)) => Some(OperatorKey::Union),
        Kind::DashedWord(word) => key_of_dashed_word(word),
        _ => None,
    }
}

// Takes the word of an operator.
pub(crate) fn expect_operator_word(cursor: &mut Cursor<'_>) -> Result<(Symbol, OperatorKey), Stop>
    ensures { IsOutcome (λ p. p) (expect_mark operator_of cursor.old) result cursor.new }
{
    match cursor.ahead() {
        Some(kind) => match operator_key(kind) {
            Some(key) => {
                let symbol = cursor.take()?;
                Ok((symbol, key))
            }
            None => Err(Stop::Syntax),
        },
        None => Err(Stop::Syntax),
    }
}

fn is_source_word(kind: Kind) -> bool
    ensures { result ≡ any_source_word kind }
{
    matches!(kind, Kind::Word(Word::Source(_)))
}

// Whether the word of a source comes next.
pub(crate) fn sees_source_word(cursor: &Cursor<'_>) -> bool
    ensures { result ≡ starts (of any_source_word) cursor.now }
{
    match cursor.ahead() {
        Some(kind) => is_source_word(kind),
        None => false,
    }
}

// Takes the word of a source.
pub(crate) fn expect_source_word(cursor: &mut Cursor<'_>) -> Result<(Symbol, SourceWord), Stop>
    ensures { IsOutcome (λ p. p) (expect_mark source_of cursor.old) result cursor.new }
{
    match cursor.ahead() {
        Some(Kind::Word(Word::Source(word))) => {
            let symbol = cursor.take()?;
            Ok((symbol, word))
        }
        _ => Err(Stop::Syntax),
    }
}

fn is_table_word(kind: Kind) -> bool
    ensures { result ≡ table_word kind }
{
    match kind {
        Kind::Word(Word::Reserved(_)) => false,
        Kind::Word(Word::Source(_)) => false,
        Kind::Word(_) => true,
        _ => false,
    }
}

// Takes a word that can name a table.
pub(crate) fn expect_table_word(cursor: &mut Cursor<'_>) -> Result<Symbol, Stop>
    ensures { IsOutcome (λ t. t) (expect (of table_word) cursor.old) result cursor.new }
{
    match cursor.ahead() {
        Some(kind) if is_table_word(kind) => cursor.take(),
        _ => Err(Stop::Syntax),
    }
}
