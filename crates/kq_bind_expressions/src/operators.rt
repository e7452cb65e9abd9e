// Which function an operator is.
ghost use Rattle.std.specs.Prelude.{◌≡◌};
ghost use Rattle.kq_bind_expressions.specs.Operators as the;
ghost use Rattle.kq_plan_expressions.specs.Operations.{function_of};
ghost use Rattle.kq_read_grammar.specs.Views.{precedence_of};

use kq_plan_expressions::Operation;
use kq_plan_functions::{FindKind, Function};
use kq_read_grammar::Level;
use kq_read_symbols::{Kind, ReservedWord, Word};
use kq_read_tokens::{Operator, WordOperator};

pub fn sign(kind: Kind) -> Function
    ensures { result ≡ the.sign kind }
{
    match kind {
        Kind::Operator(Operator::Minus) => Function::Negate,
        _ => Function::Keep,
    }
}

fn comparison_sign(operator: Operator) -> Function
    ensures { result ≡ the.comparison_sign operator }
{
    match operator {
        Operator::NotEqual => Function::Unequal,
        Operator::Less => Function::Less,
        Operator::LessOrEqual => Function::AtMost,
        Operator::Greater => Function::Greater,
        Operator::GreaterOrEqual => Function::AtLeast,
        Operator::EqualTilde => Function::EqualFolded,
        Operator::NotEqualTilde => Function::UnequalFolded,
        _ => Function::Equal,
    }
}

fn find_word(word: ReservedWord) -> Function
    ensures { result ≡ the.find_word word }
{
    match word {
        ReservedWord::Has => Function::Find(FindKind::Has),
        ReservedWord::HasCs => Function::Find(FindKind::HasCs),
        ReservedWord::Contains => Function::Find(FindKind::Contains),
        ReservedWord::ContainsCs => Function::Find(FindKind::ContainsCs),
        ReservedWord::StartsWith => Function::Find(FindKind::StartsWith),
        ReservedWord::StartsWithCs => Function::Find(FindKind::StartsWithCs),
        ReservedWord::EndsWith => Function::Find(FindKind::EndsWith),
        ReservedWord::EndsWithCs => Function::Find(FindKind::EndsWithCs),
        _ => Function::Equal,
    }
}

fn negated_find(word: WordOperator) -> Function
    ensures { result ≡ the.negated_find word }
{
    match word {
        WordOperator::NotHas => Function::FindNot(FindKind::Has),
        WordOperator::NotHasCs => Function::FindNot(FindKind::HasCs),
        WordOperator::NotContains => Function::FindNot(FindKind::Contains),
        WordOperator::NotContainsCs => Function::FindNot(FindKind::ContainsCs),
        WordOperator::NotStartsWith => Function::FindNot(FindKind::StartsWith),
        WordOperator::NotStartsWithCs => Function::FindNot(FindKind::StartsWithCs),
        WordOperator::NotEndsWith => Function::FindNot(FindKind::EndsWith),
        WordOperator::NotEndsWithCs => Function::FindNot(FindKind::EndsWithCs),
        _ => Function::Equal,
    }
}

pub fn comparison(kind: Kind) -> Function
    ensures { result ≡ the.comparison kind }
{
    match kind {
        Kind::Operator(operator) => comparison_sign(operator),
        Kind::Word(Word::Reserved(word)) => find_word(word),
        Kind::WordOperator(word) => negated_find(word),
        _ => Function::Equal,
    }
}

pub fn membership(kind: Kind) -> Function
    ensures { result ≡ the.membership kind }
{
    match kind {
        Kind::WordOperator(WordOperator::NotIn) => Function::NotIn,
        Kind::WordOperator(WordOperator::InTilde) => Function::InFolded,
        Kind::WordOperator(WordOperator::NotInTilde) => Function::NotInFolded,
        _ => Function::In,
    }
}

pub fn interval(kind: Kind) -> Function
    ensures { result ≡ the.interval kind }
{
    match kind {
        Kind::WordOperator(WordOperator::NotBetween) => Function::NotBetween,
        _ => Function::Between,
    }
}

pub fn operation(level: Level, kind: Kind) -> Operation
    ensures { function_of result ≡ the.operation (precedence_of level) kind }
{
    match level {
        Level::Disjunction => Operation::Or,
        Level::Conjunction => Operation::And,
        Level::Sum => match kind {
            Kind::Operator(Operator::Minus) => Operation::Subtract,
            _ => Operation::Add,
        },
        Level::Product => match kind {
            Kind::Operator(Operator::Slash) => Operation::Divide,
            Kind::Operator(Operator::Percent) => Operation::Remainder,
            _ => Operation::Multiply,
        },
    }
}
