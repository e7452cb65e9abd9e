// Classes of symbols.
ghost use Rattle.std.specs.Prelude.{◌≡◌};
ghost use Rattle.kq_read_symbols.specs.Classes as spec;

use crate::kind::{Kind, Quoted};
use crate::word::{ClauseWord, ControlWord, OperatorWord, ReservedWord, SourceWord, Word};
use kq_read_tokens::{DashedWord, Operator, Punctuation, Side, WordOperator};

/// A class of symbols, by their kinds.
#[derive(Clone, Copy, PartialEq, Eq)]
pub enum Class {
    Reserved(ReservedWord),
    Source(SourceWord),
    Leading(OperatorWord),
    Clause(ClauseWord),
    Control(ControlWord),
    Dashed(DashedWord),
    Side(Side),
    Sign(Punctuation),
    Operator(Operator),
    /// Any word.
    Word,
    /// A word that isn't reserved.
    BareName,
    WholeNumber,
    /// A string of any form.
    Text,
    /// A number, a timespan, a typed literal, a string, `true` or `false`.
    Literal,
    /// `+` or `-`.
    Additive,
    /// `*`, `/` or `%`.
    Multiplicative,
    /// An operator between two sums that compares them.
    Comparison,
    /// `in`, `!in`, `in~` or `!in~`.
    Membership,
    /// `between` or `!between`.
    Interval,
    /// `true` or `false`.
    Truth,
    /// `asc` or `desc`.
    Direction,
    /// `first` or `last`.
    Extreme,
    /// The word of a join's kind.
    JoinKind,
    /// A string that says a join's kind.
    QuotedJoinKind,
    /// `inner` or `outer`.
    UnionKind,
    /// What a name begins with.
    NameStart,
    /// What an expression begins with.
    ExpressionStart,
    /// What a cell of `datatable` begins with.
    CellStart,
    /// What a source, and so a tabular, begins with.
    TabularStart,
    /// A string, `true` or `false`.
    PropertyValue,
}

impl Class {
    /// Whether it holds the symbols of the kind.
    pub fn contains(self, kind: Kind) -> bool
        ensures { result ≡ spec.class_of self kind }
    {
        match self {
            Class::Reserved(word) => is_reserved(word, kind),
            Class::Source(word) => is_source(word, kind),
            Class::Leading(word) => is_leading(word, kind),
            Class::Clause(word) => is_clause(word, kind),
            Class::Control(word) => is_control(word, kind),
            Class::Dashed(word) => is_dashed(word, kind),
            Class::Side(side) => is_side(side, kind),
            Class::Sign(sign) => is_sign(sign, kind),
            Class::Operator(operator) => is_operator(operator, kind),
            _ => self.contains_any(kind),
        }
    }

    fn contains_any(self, kind: Kind) -> bool
        ensures { result ≡ spec.set_of self kind }
    {
        match self {
            Class::Word => matches!(kind, Kind::Word(_)),
            Class::BareName => is_bare_name(kind),
            Class::WholeNumber => matches!(kind, Kind::WholeNumber),
            Class::Text => matches!(kind, Kind::String(_)),
            Class::Literal => is_literal(kind),
            Class::Additive => is_additive(kind),
            Class::Multiplicative => is_multiplicative(kind),
            Class::Comparison => is_comparison(kind),
            Class::Membership => is_membership(kind),
            Class::Interval => is_interval(kind),
            _ => self.contains_word(kind),
        }
    }

    fn contains_word(self, kind: Kind) -> bool
        ensures { result ≡ spec.word_set_of self kind }
    {
        match self {
            Class::Truth => is_truth(kind),
            Class::Direction => is_direction(kind),
            Class::Extreme => is_extreme(kind),
            Class::JoinKind => matches!(kind, Kind::Word(Word::Join(_))),
            Class::QuotedJoinKind => matches!(kind, Kind::String(Quoted::JoinKind(_))),
            Class::UnionKind => is_union_kind(kind),
            Class::NameStart => begins_name(kind),
            Class::ExpressionStart => begins_expression(kind),
            Class::CellStart => is_literal(kind) || is_operator(Operator::Minus, kind),
            Class::TabularStart => begins_name(kind) || is_sign(Punctuation::OpenParenthesis, kind),
            Class::PropertyValue => matches!(kind, Kind::String(_)) || is_truth(kind),
            _ => false,
        }
    }
}

fn is_reserved(word: ReservedWord, kind: Kind) -> bool
    ensures { result ≡ spec.reserved word kind }
{
    match kind {
        Kind::Word(Word::Reserved(found)) => word == found,
        _ => false,
    }
}

fn is_source(word: SourceWord, kind: Kind) -> bool
    ensures { result ≡ spec.source word kind }
{
    match kind {
        Kind::Word(Word::Source(found)) => word == found,
        _ => false,
    }
}

fn is_leading(word: OperatorWord, kind: Kind) -> bool
    ensures { result ≡ spec.leading word kind }
{
    match kind {
        Kind::Word(Word::Operator(found)) => word == found,
        _ => false,
    }
}

fn is_clause(word: ClauseWord, kind: Kind) -> bool
    ensures { result ≡ spec.clause word kind }
{
    match kind {
        Kind::Word(Word::Clause(found)) => word == found,
        _ => false,
    }
}

fn is_control(word: ControlWord, kind: Kind) -> bool
    ensures { result ≡ spec.control word kind }
{
    match kind {
        Kind::Word(Word::Control(found)) => word == found,
        _ => false,
    }
}

fn is_dashed(word: DashedWord, kind: Kind) -> bool
    ensures { result ≡ spec.dashed word kind }
{
    match kind {
        Kind::DashedWord(found) => word == found,
        _ => false,
    }
}

fn is_side(side: Side, kind: Kind) -> bool
    ensures { result ≡ spec.side side kind }
{
    match kind {
        Kind::Side(found) => side == found,
        _ => false,
    }
}

fn is_sign(sign: Punctuation, kind: Kind) -> bool
    ensures { result ≡ spec.sign sign kind }
{
    match kind {
        Kind::Punctuation(found) => sign == found,
        _ => false,
    }
}

fn is_operator(operator: Operator, kind: Kind) -> bool
    ensures { result ≡ spec.operator operator kind }
{
    match kind {
        Kind::Operator(found) => operator == found,
        _ => false,
    }
}

fn is_bare_name(kind: Kind) -> bool
    ensures { result ≡ spec.bare_name kind }
{
    match kind {
        Kind::Word(Word::Reserved(_)) => false,
        Kind::Word(_) => true,
        _ => false,
    }
}

fn is_truth(kind: Kind) -> bool
    ensures { result ≡ spec.truth kind }
{
    matches!(
        kind,
        Kind::Word(Word::Reserved(ReservedWord::True))
            | Kind::Word(Word::Reserved(ReservedWord::False))
    )
}

fn is_literal(kind: Kind) -> bool
    ensures { result ≡ spec.literal kind }
{
    match kind {
        Kind::WholeNumber | Kind::Real | Kind::Timespan | Kind::TypedLiteral | Kind::String(_) =>
            true,
        _ => is_truth(kind),
    }
}

fn is_additive(kind: Kind) -> bool
    ensures { result ≡ spec.additive kind }
{
    matches!(
        kind,
        Kind::Operator(Operator::Plus) | Kind::Operator(Operator::Minus)
    )
}

fn is_multiplicative(kind: Kind) -> bool
    ensures { result ≡ spec.multiplicative kind }
{
    matches!(
        kind,
        Kind::Operator(Operator::Star)
            | Kind::Operator(Operator::Slash)
            | Kind::Operator(Operator::Percent)
    )
}

fn is_comparison(kind: Kind) -> bool
    ensures { result ≡ spec.comparison kind }
{
    match kind {
        Kind::Operator(operator) => compares(operator),
        Kind::Word(Word::Reserved(word)) => compares_strings(word),
        Kind::WordOperator(operator) => compares_not(operator),
        _ => false,
    }
}

fn compares(operator: Operator) -> bool
    ensures { result ≡ spec.compares operator }
{
    matches!(
        operator,
        Operator::Equal
            | Operator::NotEqual
            | Operator::Less
            | Operator::LessOrEqual
            | Operator::Greater
            | Operator::GreaterOrEqual
            | Operator::EqualTilde
            | Operator::NotEqualTilde
    )
}

fn compares_strings(word: ReservedWord) -> bool
    ensures { result ≡ spec.compares_strings word }
{
    matches!(
        word,
        ReservedWord::Has
            | ReservedWord::HasCs
            | ReservedWord::Contains
            | ReservedWord::ContainsCs
            | ReservedWord::StartsWith
            | ReservedWord::StartsWithCs
            | ReservedWord::EndsWith
            | ReservedWord::EndsWithCs
    )
}

fn compares_not(operator: WordOperator) -> bool
    ensures { result ≡ spec.compares_not operator }
{
    matches!(
        operator,
        WordOperator::NotHas
            | WordOperator::NotHasCs
            | WordOperator::NotContains
            | WordOperator::NotContainsCs
            | WordOperator::NotStartsWith
            | WordOperator::NotStartsWithCs
            | WordOperator::NotEndsWith
            | WordOperator::NotEndsWithCs
    )
}

fn is_membership(kind: Kind) -> bool
    ensures { result ≡ spec.membership kind }
{
    matches!(
        kind,
        Kind::Word(Word::Reserved(ReservedWord::In))
            | Kind::WordOperator(WordOperator::NotIn)
            | Kind::WordOperator(WordOperator::InTilde)
            | Kind::WordOperator(WordOperator::NotInTilde)
    )
}

fn is_interval(kind: Kind) -> bool
    ensures { result ≡ spec.interval kind }
{
    matches!(
        kind,
        Kind::Word(Word::Reserved(ReservedWord::Between))
            | Kind::WordOperator(WordOperator::NotBetween)
    )
}

fn is_direction(kind: Kind) -> bool
    ensures { result ≡ spec.direction kind }
{
    matches!(
        kind,
        Kind::Word(Word::Clause(ClauseWord::Asc)) | Kind::Word(Word::Clause(ClauseWord::Desc))
    )
}

fn is_extreme(kind: Kind) -> bool
    ensures { result ≡ spec.extreme kind }
{
    matches!(
        kind,
        Kind::Word(Word::Clause(ClauseWord::First)) | Kind::Word(Word::Clause(ClauseWord::Last))
    )
}

fn is_union_kind(kind: Kind) -> bool
    ensures { result ≡ spec.union_kind kind }
{
    matches!(
        kind,
        Kind::Word(Word::Join(crate::word::JoinKind::Inner))
            | Kind::Word(Word::Clause(ClauseWord::Outer))
    )
}

fn begins_name(kind: Kind) -> bool
    ensures { result ≡ spec.begins_name kind }
{
    is_bare_name(kind) || is_sign(Punctuation::OpenBracket, kind)
}

fn begins_expression(kind: Kind) -> bool
    ensures { result ≡ spec.begins_expression kind }
{
    match kind {
        Kind::Word(_) => true,
        Kind::Punctuation(sign) => opens_operand(sign),
        _ => is_literal(kind) || is_additive(kind),
    }
}

fn opens_operand(sign: Punctuation) -> bool
    ensures { result ≡ spec.opens_operand sign }
{
    matches!(
        sign,
        Punctuation::OpenParenthesis | Punctuation::OpenBracket
    )
}
