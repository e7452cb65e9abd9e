// The tokens of one spelling, and the words of typed literals.
ghost use Rattle.std.specs.Prelude.{◌≡◌, length};
ghost use Rattle.kq_read_tokens.specs.Bytes.{is_text};
ghost use Rattle.kq_read_tokens.specs.Spellings.{dashed_word_spelling, side_spelling, literal_word_spelling, word_operator_spelling, punctuation_spelling, operator_spelling, spelling};
ghost use Rattle.kq_read_tokens.specs.Scanning.{begins, literal_word_of, single_sign, spelled_at};

use crate::kind::{DashedWord, LiteralWord, Operator, Punctuation, Side, TokenKind, WordOperator};

/// The kinds of one spelling. Where one spelling begins another, the longer one stands first.
pub const SPELLED: [TokenKind; 47] = [
    TokenKind::DashedWord(DashedWord::ProjectAway),
    TokenKind::DashedWord(DashedWord::ProjectRename),
    TokenKind::DashedWord(DashedWord::MvExpand),
    TokenKind::DashedWord(DashedWord::MaterializedView),
    TokenKind::DashedWord(DashedWord::AlterMerge),
    TokenKind::Side(Side::Left),
    TokenKind::Side(Side::Right),
    TokenKind::WordOperator(WordOperator::NotHasCs),
    TokenKind::WordOperator(WordOperator::NotHas),
    TokenKind::WordOperator(WordOperator::NotContainsCs),
    TokenKind::WordOperator(WordOperator::NotContains),
    TokenKind::WordOperator(WordOperator::NotStartsWithCs),
    TokenKind::WordOperator(WordOperator::NotStartsWith),
    TokenKind::WordOperator(WordOperator::NotEndsWithCs),
    TokenKind::WordOperator(WordOperator::NotEndsWith),
    TokenKind::WordOperator(WordOperator::NotInTilde),
    TokenKind::WordOperator(WordOperator::NotIn),
    TokenKind::WordOperator(WordOperator::NotBetween),
    TokenKind::WordOperator(WordOperator::InTilde),
    TokenKind::Punctuation(Punctuation::Pipe),
    TokenKind::Punctuation(Punctuation::OpenParenthesis),
    TokenKind::Punctuation(Punctuation::CloseParenthesis),
    TokenKind::Punctuation(Punctuation::OpenBracket),
    TokenKind::Punctuation(Punctuation::CloseBracket),
    TokenKind::Punctuation(Punctuation::OpenBrace),
    TokenKind::Punctuation(Punctuation::CloseBrace),
    TokenKind::Punctuation(Punctuation::Comma),
    TokenKind::Punctuation(Punctuation::Semicolon),
    TokenKind::Punctuation(Punctuation::Colon),
    TokenKind::Punctuation(Punctuation::DotDot),
    TokenKind::Punctuation(Punctuation::Dot),
    TokenKind::Punctuation(Punctuation::BodyMark),
    TokenKind::Punctuation(Punctuation::Hash),
    TokenKind::Operator(Operator::Equal),
    TokenKind::Operator(Operator::EqualTilde),
    TokenKind::Operator(Operator::Assign),
    TokenKind::Operator(Operator::NotEqual),
    TokenKind::Operator(Operator::NotEqualTilde),
    TokenKind::Operator(Operator::LessOrEqual),
    TokenKind::Operator(Operator::Less),
    TokenKind::Operator(Operator::GreaterOrEqual),
    TokenKind::Operator(Operator::Greater),
    TokenKind::Operator(Operator::Plus),
    TokenKind::Operator(Operator::Minus),
    TokenKind::Operator(Operator::Star),
    TokenKind::Operator(Operator::Slash),
    TokenKind::Operator(Operator::Percent),
];

/// The words that begin typed literals.
pub const LITERAL_WORDS: [LiteralWord; 14] = [
    LiteralWord::Long,
    LiteralWord::Int64,
    LiteralWord::Bool,
    LiteralWord::Boolean,
    LiteralWord::Datetime,
    LiteralWord::Date,
    LiteralWord::Timespan,
    LiteralWord::Time,
    LiteralWord::Dynamic,
    LiteralWord::Int,
    LiteralWord::Real,
    LiteralWord::Double,
    LiteralWord::Decimal,
    LiteralWord::Guid,
];

fn dashed_word_spelling(word: DashedWord) -> &'static str
    ensures { result.now ≡ dashed_word_spelling word }
{
    match word {
        DashedWord::ProjectAway => "project-away",
        DashedWord::ProjectRename => "project-rename",
        DashedWord::MvExpand => "mv-expand",
        DashedWord::MaterializedView => "materialized-view",
        DashedWord::AlterMerge => "alter-merge",
    }
}

fn side_spelling(side: Side) -> &'static str
    ensures { result.now ≡ side_spelling side }
{
    match side {
        Side::Left => "$left",
        Side::Right => "$right",
    }
}

fn word_operator_spelling(operator: WordOperator) -> &'static str
    ensures { result.now ≡ word_operator_spelling operator }
{
    match operator {
        WordOperator::NotHas => "!has",
        WordOperator::NotHasCs => "!has_cs",
        WordOperator::NotContains => "!contains",
        WordOperator::NotContainsCs => "!contains_cs",
        WordOperator::NotStartsWith => "!startswith",
        WordOperator::NotStartsWithCs => "!startswith_cs",
        WordOperator::NotEndsWith => "!endswith",
        WordOperator::NotEndsWithCs => "!endswith_cs",
        WordOperator::NotIn => "!in",
        WordOperator::NotInTilde => "!in~",
        WordOperator::NotBetween => "!between",
        WordOperator::InTilde => "in~",
    }
}

fn punctuation_spelling(punctuation: Punctuation) -> &'static str
    ensures { result.now ≡ punctuation_spelling punctuation }
{
    match punctuation {
        Punctuation::Pipe => "|",
        Punctuation::OpenParenthesis => "(",
        Punctuation::CloseParenthesis => ")",
        Punctuation::OpenBracket => "[",
        Punctuation::CloseBracket => "]",
        Punctuation::OpenBrace => "{",
        Punctuation::CloseBrace => "}",
        Punctuation::Comma => ",",
        Punctuation::Semicolon => ";",
        Punctuation::Colon => ":",
        Punctuation::Dot => ".",
        Punctuation::DotDot => "..",
        Punctuation::BodyMark => "<|",
        Punctuation::Hash => "#",
    }
}

fn operator_spelling(operator: Operator) -> &'static str
    ensures { result.now ≡ operator_spelling operator }
{
    match operator {
        Operator::Assign => "=",
        Operator::Equal => "==",
        Operator::NotEqual => "!=",
        Operator::Less => "<",
        Operator::LessOrEqual => "<=",
        Operator::Greater => ">",
        Operator::GreaterOrEqual => ">=",
        Operator::EqualTilde => "=~",
        Operator::NotEqualTilde => "!~",
        Operator::Plus => "+",
        Operator::Minus => "-",
        Operator::Star => "*",
        Operator::Slash => "/",
        Operator::Percent => "%",
    }
}

fn literal_word_spelling(word: LiteralWord) -> &'static str
    ensures { result.now ≡ literal_word_spelling word }
{
    match word {
        LiteralWord::Long => "long",
        LiteralWord::Int64 => "int64",
        LiteralWord::Bool => "bool",
        LiteralWord::Boolean => "boolean",
        LiteralWord::Datetime => "datetime",
        LiteralWord::Date => "date",
        LiteralWord::Timespan => "timespan",
        LiteralWord::Time => "time",
        LiteralWord::Dynamic => "dynamic",
        LiteralWord::Int => "int",
        LiteralWord::Real => "real",
        LiteralWord::Double => "double",
        LiteralWord::Decimal => "decimal",
        LiteralWord::Guid => "guid",
    }
}

// Nothing for a kind of many spellings.
fn spelling(kind: TokenKind) -> &'static str
    ensures { result.now ≡ spelling kind }
{
    match kind {
        TokenKind::DashedWord(word) => dashed_word_spelling(word),
        TokenKind::Side(side) => side_spelling(side),
        TokenKind::WordOperator(operator) => word_operator_spelling(operator),
        TokenKind::Punctuation(punctuation) => punctuation_spelling(punctuation),
        TokenKind::Operator(operator) => operator_spelling(operator),
        _ => "",
    }
}

// Whether the bytes begin with the spelling of the kind.
fn begins(bytes: &[u8], kind: TokenKind) -> bool
    ensures { result ≡ begins bytes.now kind }
{
    bytes.starts_with(spelling(kind).as_bytes())
}

/// The number of bytes of the kind's spelling.
pub fn spelled_len(kind: TokenKind) -> usize
    ensures { result ≡ length (spelling kind) }
{
    spelling(kind).len()
}

/// The longest token of one spelling at the front.
#[tactic(auto, unfolding(crate::specs::Scanning::spelled_at))]
pub fn spelled(bytes: &[u8]) -> Option<TokenKind>
    ensures { result ≡ spelled_at bytes.now }
{
    SPELLED.iter().copied().find(|kind| begins(bytes, *kind))
}

/// The sign of this one byte, where no longer token begins with it.
pub fn single_sign(b: u8) -> Option<TokenKind>
    ensures { result ≡ single_sign b }
{
    match b {
        b'|' => Some(TokenKind::Punctuation(Punctuation::Pipe)),
        b'(' => Some(TokenKind::Punctuation(Punctuation::OpenParenthesis)),
        b')' => Some(TokenKind::Punctuation(Punctuation::CloseParenthesis)),
        b'[' => Some(TokenKind::Punctuation(Punctuation::OpenBracket)),
        b']' => Some(TokenKind::Punctuation(Punctuation::CloseBracket)),
        b'{' => Some(TokenKind::Punctuation(Punctuation::OpenBrace)),
        b'}' => Some(TokenKind::Punctuation(Punctuation::CloseBrace)),
        b',' => Some(TokenKind::Punctuation(Punctuation::Comma)),
        b';' => Some(TokenKind::Punctuation(Punctuation::Semicolon)),
        b':' => Some(TokenKind::Punctuation(Punctuation::Colon)),
        b'#' => Some(TokenKind::Punctuation(Punctuation::Hash)),
        b'+' => Some(TokenKind::Operator(Operator::Plus)),
        b'-' => Some(TokenKind::Operator(Operator::Minus)),
        b'*' => Some(TokenKind::Operator(Operator::Star)),
        b'/' => Some(TokenKind::Operator(Operator::Slash)),
        b'%' => Some(TokenKind::Operator(Operator::Percent)),
        _ => None,
    }
}

/// The word of a typed literal that the bytes spell.
#[tactic(auto, unfolding(crate::specs::Scanning::literal_word_of))]
pub fn literal_word(bytes: &[u8]) -> Option<LiteralWord>
    ensures { result ≡ literal_word_of bytes.now }
{
    LITERAL_WORDS
        .iter()
        .copied()
        .find(|word| spells(*word, bytes))
}

fn spells(word: LiteralWord, bytes: &[u8]) -> bool
    ensures { result ≡ is_text (literal_word_spelling word) bytes.now }
{
    literal_word_spelling(word).as_bytes() == bytes
}
