// Operators and functions.
use kq_value_strings::FindKind;

/// What an expression applies: an operator or a function. One that has two names is here once.
#[derive(Clone, Copy)]
pub enum Function {
    /// `a + b`
    Add,
    /// `a - b`
    Subtract,
    /// `a * b`
    Multiply,
    /// `a / b`
    Divide,
    /// `a % b`
    Remainder,
    /// `-a`
    Negate,
    /// `+a`
    Keep,
    /// `a == b`
    Equal,
    /// `a != b`
    Unequal,
    /// `a < b`
    Less,
    /// `a <= b`
    AtMost,
    /// `a > b`
    Greater,
    /// `a >= b`
    AtLeast,
    /// `a =~ b`
    EqualFolded,
    /// `a !~ b`
    UnequalFolded,
    /// `a and b`
    And,
    /// `a or b`
    Or,
    /// `x in (a, ..)`
    In,
    /// `x !in (a, ..)`
    NotIn,
    /// `x in~ (a, ..)`
    InFolded,
    /// `x !in~ (a, ..)`
    NotInFolded,
    /// `x between (a .. b)`
    Between,
    /// `x !between (a .. b)`
    NotBetween,
    /// `text has part` and its kin
    Find(FindKind),
    /// `text !has part` and its kin
    FindNot(FindKind),
    /// `x.name` and `x[index]`
    Member,
    Now,
    Ago,
    /// `bin`, `floor`
    Bin,
    Abs,
    /// `iff`, `iif`
    Iff,
    Case,
    Coalesce,
    Not,
    IsNull,
    IsNotNull,
    IsEmpty,
    IsNotEmpty,
    StrLen,
    ToLower,
    ToUpper,
    StrCat,
    Substring,
    IndexOf,
    Split,
    ReplaceString,
    ToText,
    ToLong,
    ToInt,
    ToBool,
    ToMoment,
    ToSpan,
    /// `todynamic`, `parse_json`
    ToDynamic,
    StartOfDay,
    StartOfWeek,
    StartOfMonth,
    StartOfYear,
    DayOfWeek,
    GetYear,
    MonthOfYear,
    DayOfMonth,
    HourOfDay,
    ArrayLength,
    ArraySortAsc,
    BagKeys,
}
