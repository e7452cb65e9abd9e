// The words of the language.
ghost use Rattle.std.specs.Prelude.{◌≡◌};
ghost use Rattle.kq_read_symbols.specs.Words.{clause_word_spelling, control_word_spelling, join_kind_spelling, known_word, operator_word_spelling, reserved_word_spelling, source_word_spelling, spelling as spelled, spells_word, word_of as word_at};

/// A word that is no name unless it stands in brackets.
#[derive(Clone, Copy, PartialEq, Eq)]
pub enum ReservedWord {
    And,
    Or,
    By,
    True,
    False,
    Let,
    In,
    Between,
    Has,
    HasCs,
    Contains,
    ContainsCs,
    StartsWith,
    StartsWithCs,
    EndsWith,
    EndsWithCs,
}

/// A word that a source begins with.
#[derive(Clone, Copy, PartialEq, Eq)]
pub enum SourceWord {
    Print,
    Range,
    Datatable,
    Union,
    MaterializedView,
}

/// A word that an operator begins with, behind a pipe.
#[derive(Clone, Copy, PartialEq, Eq)]
pub enum OperatorWord {
    Where,
    Filter,
    Extend,
    Project,
    Take,
    Limit,
    Count,
    Sort,
    Order,
    Top,
    Distinct,
    Summarize,
    Join,
}

/// A word within a source or an operator.
#[derive(Clone, Copy, PartialEq, Eq)]
pub enum ClauseWord {
    From,
    To,
    Step,
    Kind,
    Outer,
    Asc,
    Desc,
    Nulls,
    First,
    Last,
    On,
    Typeof,
}

/// How a join pairs rows, and which columns it gives.
#[derive(Clone, Copy, PartialEq, Eq)]
pub enum JoinKind {
    InnerUnique,
    Inner,
    LeftOuter,
    RightOuter,
    FullOuter,
    LeftSemi,
    RightSemi,
    LeftAnti,
    RightAnti,
}

/// A word of the control commands.
#[derive(Clone, Copy, PartialEq, Eq)]
pub enum ControlWord {
    Create,
    Table,
    Ingest,
    Inline,
    Into,
    With,
    Alter,
    Policy,
    Update,
    Async,
    IfNotExists,
    Show,
    Ingestion,
    Failures,
    Extents,
    Journal,
    Fold,
    Merge,
    Export,
    Over,
}

/// What a word says. A word of the language is one only in its places; elsewhere all but the reserved ones are names.
#[derive(Clone, Copy, PartialEq, Eq)]
pub enum Word {
    Reserved(ReservedWord),
    Source(SourceWord),
    Operator(OperatorWord),
    Clause(ClauseWord),
    Join(JoinKind),
    Control(ControlWord),
    Other,
}

/// The words of the language.
pub const WORDS: [Word; 75] = [
    Word::Reserved(ReservedWord::And),
    Word::Reserved(ReservedWord::Or),
    Word::Reserved(ReservedWord::By),
    Word::Reserved(ReservedWord::True),
    Word::Reserved(ReservedWord::False),
    Word::Reserved(ReservedWord::Let),
    Word::Reserved(ReservedWord::In),
    Word::Reserved(ReservedWord::Between),
    Word::Reserved(ReservedWord::Has),
    Word::Reserved(ReservedWord::HasCs),
    Word::Reserved(ReservedWord::Contains),
    Word::Reserved(ReservedWord::ContainsCs),
    Word::Reserved(ReservedWord::StartsWith),
    Word::Reserved(ReservedWord::StartsWithCs),
    Word::Reserved(ReservedWord::EndsWith),
    Word::Reserved(ReservedWord::EndsWithCs),
    Word::Source(SourceWord::Print),
    Word::Source(SourceWord::Range),
    Word::Source(SourceWord::Datatable),
    Word::Source(SourceWord::Union),
    Word::Source(SourceWord::MaterializedView),
    Word::Operator(OperatorWord::Where),
    Word::Operator(OperatorWord::Filter),
    Word::Operator(OperatorWord::Extend),
    Word::Operator(OperatorWord::Project),
    Word::Operator(OperatorWord::Take),
    Word::Operator(OperatorWord::Limit),
    Word::Operator(OperatorWord::Count),
    Word::Operator(OperatorWord::Sort),
    Word::Operator(OperatorWord::Order),
    Word::Operator(OperatorWord::Top),
    Word::Operator(OperatorWord::Distinct),
    Word::Operator(OperatorWord::Summarize),
    Word::Operator(OperatorWord::Join),
    Word::Clause(ClauseWord::From),
    Word::Clause(ClauseWord::To),
    Word::Clause(ClauseWord::Step),
    Word::Clause(ClauseWord::Kind),
    Word::Clause(ClauseWord::Outer),
    Word::Clause(ClauseWord::Asc),
    Word::Clause(ClauseWord::Desc),
    Word::Clause(ClauseWord::Nulls),
    Word::Clause(ClauseWord::First),
    Word::Clause(ClauseWord::Last),
    Word::Clause(ClauseWord::On),
    Word::Clause(ClauseWord::Typeof),
    Word::Join(JoinKind::InnerUnique),
    Word::Join(JoinKind::Inner),
    Word::Join(JoinKind::LeftOuter),
    Word::Join(JoinKind::RightOuter),
    Word::Join(JoinKind::FullOuter),
    Word::Join(JoinKind::LeftSemi),
    Word::Join(JoinKind::RightSemi),
    Word::Join(JoinKind::LeftAnti),
    Word::Join(JoinKind::RightAnti),
    Word::Control(ControlWord::Create),
    Word::Control(ControlWord::Table),
    Word::Control(ControlWord::Ingest),
    Word::Control(ControlWord::Inline),
    Word::Control(ControlWord::Into),
    Word::Control(ControlWord::With),
    Word::Control(ControlWord::Alter),
    Word::Control(ControlWord::Policy),
    Word::Control(ControlWord::Update),
    Word::Control(ControlWord::Async),
    Word::Control(ControlWord::IfNotExists),
    Word::Control(ControlWord::Show),
    Word::Control(ControlWord::Ingestion),
    Word::Control(ControlWord::Failures),
    Word::Control(ControlWord::Extents),
    Word::Control(ControlWord::Journal),
    Word::Control(ControlWord::Fold),
    Word::Control(ControlWord::Merge),
    Word::Control(ControlWord::Export),
    Word::Control(ControlWord::Over),
];

fn reserved_word_spelling(word: ReservedWord) -> &'static str
    ensures { result.now ≡ reserved_word_spelling word }
{
    match word {
        ReservedWord::And => "and",
        ReservedWord::Or => "or",
        ReservedWord::By => "by",
        ReservedWord::True => "true",
        ReservedWord::False => "false",
        ReservedWord::Let => "let",
        ReservedWord::In => "in",
        ReservedWord::Between => "between",
        ReservedWord::Has => "has",
        ReservedWord::HasCs => "has_cs",
        ReservedWord::Contains => "contains",
        ReservedWord::ContainsCs => "contains_cs",
        ReservedWord::StartsWith => "startswith",
        ReservedWord::StartsWithCs => "startswith_cs",
        ReservedWord::EndsWith => "endswith",
        ReservedWord::EndsWithCs => "endswith_cs",
    }
}

fn source_word_spelling(word: SourceWord) -> &'static str
    ensures { result.now ≡ source_word_spelling word }
{
    match word {
        SourceWord::Print => "print",
        SourceWord::Range => "range",
        SourceWord::Datatable => "datatable",
        SourceWord::Union => "union",
        SourceWord::MaterializedView => "materialized_view",
    }
}

fn operator_word_spelling(word: OperatorWord) -> &'static str
    ensures { result.now ≡ operator_word_spelling word }
{
    match word {
        OperatorWord::Where => "where",
        OperatorWord::Filter => "filter",
        OperatorWord::Extend => "extend",
        OperatorWord::Project => "project",
        OperatorWord::Take => "take",
        OperatorWord::Limit => "limit",
        OperatorWord::Count => "count",
        OperatorWord::Sort => "sort",
        OperatorWord::Order => "order",
        OperatorWord::Top => "top",
        OperatorWord::Distinct => "distinct",
        OperatorWord::Summarize => "summarize",
        OperatorWord::Join => "join",
    }
}

fn clause_word_spelling(word: ClauseWord) -> &'static str
    ensures { result.now ≡ clause_word_spelling word }
{
    match word {
        ClauseWord::From => "from",
        ClauseWord::To => "to",
        ClauseWord::Step => "step",
        ClauseWord::Kind => "kind",
        ClauseWord::Outer => "outer",
        ClauseWord::Asc => "asc",
        ClauseWord::Desc => "desc",
        ClauseWord::Nulls => "nulls",
        ClauseWord::First => "first",
        ClauseWord::Last => "last",
        ClauseWord::On => "on",
        ClauseWord::Typeof => "typeof",
    }
}

fn join_kind_spelling(word: JoinKind) -> &'static str
    ensures { result.now ≡ join_kind_spelling word }
{
    match word {
        JoinKind::InnerUnique => "innerunique",
        JoinKind::Inner => "inner",
        JoinKind::LeftOuter => "leftouter",
        JoinKind::RightOuter => "rightouter",
        JoinKind::FullOuter => "fullouter",
        JoinKind::LeftSemi => "leftsemi",
        JoinKind::RightSemi => "rightsemi",
        JoinKind::LeftAnti => "leftanti",
        JoinKind::RightAnti => "rightanti",
    }
}

fn control_word_spelling(word: ControlWord) -> &'static str
    ensures { result.now ≡ control_word_spelling word }
{
    match word {
        ControlWord::Create => "create",
        ControlWord::Table => "table",
        ControlWord::Ingest => "ingest",
        ControlWord::Inline => "inline",
        ControlWord::Into => "into",
        ControlWord::With => "with",
        ControlWord::Alter => "alter",
        ControlWord::Policy => "policy",
        ControlWord::Update => "update",
        ControlWord::Async => "async",
        ControlWord::IfNotExists => "ifnotexists",
        ControlWord::Show => "show",
        ControlWord::Ingestion => "ingestion",
        ControlWord::Failures => "failures",
        ControlWord::Extents => "extents",
        ControlWord::Journal => "journal",
        ControlWord::Fold => "fold",
        ControlWord::Merge => "merge",
        ControlWord::Export => "export",
        ControlWord::Over => "over",
    }
}

// Nothing for a word that isn't one of the language.
fn spelling(word: Word) -> &'static str
    ensures { result.now ≡ spelled word }
{
    match word {
        Word::Reserved(word) => reserved_word_spelling(word),
        Word::Source(word) => source_word_spelling(word),
        Word::Operator(word) => operator_word_spelling(word),
        Word::Clause(word) => clause_word_spelling(word),
        Word::Join(word) => join_kind_spelling(word),
        Word::Control(word) => control_word_spelling(word),
        Word::Other => "",
    }
}

/// The word of the language that these bytes spell.
pub fn word_of(bytes: &[u8]) -> Word
    ensures { result ≡ word_at bytes.now }
{
    known(bytes).unwrap_or(Word::Other)
}

fn known(bytes: &[u8]) -> Option<Word>
    ensures { result ≡ known_word bytes.now }
{
    WORDS.iter().copied().find(|word| spells(*word, bytes))
}

fn spells(word: Word, bytes: &[u8]) -> bool
    ensures { result ≡ spells_word word bytes.now }
{
    spelling(word).as_bytes() == bytes
}
