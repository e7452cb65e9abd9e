// The kinds of tokens.

/// What a token is. A word is one kind, whatever it says, since the words of the language are words of it only in their places.
#[derive(Clone, Copy, Debug, PartialEq, Eq)]
pub enum TokenKind {
    /// `[A-Za-z_][A-Za-z0-9_]*`
    Word,
    DashedWord(DashedWord),
    Side(Side),
    /// Digits, or `0x` and hexadecimal digits.
    WholeNumber,
    /// A number with a point or an exponent.
    Real,
    /// A number and a unit of time.
    Timespan,
    /// The word of a type, `(`, raw text and `)`.
    TypedLiteral(LiteralWord),
    /// In quotes, with escapes.
    String,
    /// `@` and a text in quotes, where a doubled quote stands for one.
    VerbatimString,
    /// Between three backticks and three more.
    LongString,
    WordOperator(WordOperator),
    Punctuation(Punctuation),
    Operator(Operator),
}

/// A word with a dash in it.
#[derive(Clone, Copy, Debug, PartialEq, Eq)]
pub enum DashedWord {
    ProjectAway,
    ProjectRename,
    MvExpand,
    MaterializedView,
    AlterMerge,
}

/// A side of a join.
#[derive(Clone, Copy, Debug, PartialEq, Eq)]
pub enum Side {
    Left,
    Right,
}

/// A word that begins a typed literal where `(` follows it.
#[derive(Clone, Copy, Debug, PartialEq, Eq)]
pub enum LiteralWord {
    Long,
    Int64,
    Bool,
    Boolean,
    Datetime,
    Date,
    Timespan,
    Time,
    Dynamic,
    Int,
    Real,
    Double,
    Decimal,
    Guid,
}

/// An operator that is a word and a sign.
#[derive(Clone, Copy, Debug, PartialEq, Eq)]
pub enum WordOperator {
    NotHas,
    NotHasCs,
    NotContains,
    NotContainsCs,
    NotStartsWith,
    NotStartsWithCs,
    NotEndsWith,
    NotEndsWithCs,
    NotIn,
    /// `!in~`, which disregards case.
    NotInTilde,
    NotBetween,
    /// `in~`, which disregards case.
    InTilde,
}

/// A sign that holds other tokens together or apart.
#[derive(Clone, Copy, Debug, PartialEq, Eq)]
pub enum Punctuation {
    Pipe,
    OpenParenthesis,
    CloseParenthesis,
    OpenBracket,
    CloseBracket,
    OpenBrace,
    CloseBrace,
    Comma,
    Semicolon,
    Colon,
    Dot,
    DotDot,
    /// `<|`, behind which the rows of an ingestion stand.
    BodyMark,
    Hash,
}

/// A sign between operands, before one, or after a name.
#[derive(Clone, Copy, Debug, PartialEq, Eq)]
pub enum Operator {
    Assign,
    Equal,
    NotEqual,
    Less,
    LessOrEqual,
    Greater,
    GreaterOrEqual,
    /// `=~`, which disregards case.
    EqualTilde,
    /// `!~`, which disregards case.
    NotEqualTilde,
    Plus,
    Minus,
    Star,
    Slash,
    Percent,
}
