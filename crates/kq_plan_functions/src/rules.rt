// The rule of each operator and function.
ghost use Rattle.std.specs.Prelude.{◌≡◌};
ghost use Rattle.kq_plan_functions.specs.Table.{typing};
ghost use Rattle.kq_plan_functions.specs.Seen.{rule_of};

use crate::function::Function;
use kq_value::Ty;

// What is taken and what is given.
#[derive(Clone, Copy)]
pub struct Line {
    pub takes: &'static [Ty],
    pub gives: Ty,
}

// How the calls of a function are typed.
#[derive(Clone, Copy)]
pub enum Rule {
    /// The first of these lines that takes the arguments.
    Lines(&'static [Line]),
    /// From so many to so many arguments of any type.
    Any(usize, usize, Ty),
    /// Two that can be tested for equality.
    Equals,
    /// One, and others with which it can be tested for equality.
    EqualsOne,
    /// Two that are strings or dynamics.
    Texts,
    /// Two or more that are strings or dynamics.
    TextsOne,
    /// A bool and two values of one type.
    OneChoice,
    /// A bool and a value, once or more often, and a last value.
    Choices,
    /// Two values or more, of one type.
    Alike,
}

const ADD: [Line; 5] = [
    Line {
        takes: &[Ty::Long, Ty::Long],
        gives: Ty::Long,
    },
    Line {
        takes: &[Ty::Int, Ty::Int],
        gives: Ty::Int,
    },
    Line {
        takes: &[Ty::Span, Ty::Span],
        gives: Ty::Span,
    },
    Line {
        takes: &[Ty::Moment, Ty::Span],
        gives: Ty::Moment,
    },
    Line {
        takes: &[Ty::Span, Ty::Moment],
        gives: Ty::Moment,
    },
];

const SUBTRACT: [Line; 5] = [
    Line {
        takes: &[Ty::Long, Ty::Long],
        gives: Ty::Long,
    },
    Line {
        takes: &[Ty::Int, Ty::Int],
        gives: Ty::Int,
    },
    Line {
        takes: &[Ty::Span, Ty::Span],
        gives: Ty::Span,
    },
    Line {
        takes: &[Ty::Moment, Ty::Span],
        gives: Ty::Moment,
    },
    Line {
        takes: &[Ty::Moment, Ty::Moment],
        gives: Ty::Span,
    },
];

const MULTIPLY: [Line; 4] = [
    Line {
        takes: &[Ty::Long, Ty::Long],
        gives: Ty::Long,
    },
    Line {
        takes: &[Ty::Int, Ty::Int],
        gives: Ty::Int,
    },
    Line {
        takes: &[Ty::Span, Ty::Long],
        gives: Ty::Span,
    },
    Line {
        takes: &[Ty::Long, Ty::Span],
        gives: Ty::Span,
    },
];

const DIVIDE: [Line; 3] = [
    Line {
        takes: &[Ty::Long, Ty::Long],
        gives: Ty::Long,
    },
    Line {
        takes: &[Ty::Int, Ty::Int],
        gives: Ty::Int,
    },
    Line {
        takes: &[Ty::Span, Ty::Long],
        gives: Ty::Span,
    },
];

const REMAINDER: [Line; 3] = [
    Line {
        takes: &[Ty::Long, Ty::Long],
        gives: Ty::Long,
    },
    Line {
        takes: &[Ty::Int, Ty::Int],
        gives: Ty::Int,
    },
    Line {
        takes: &[Ty::Span, Ty::Span],
        gives: Ty::Span,
    },
];

const SIGN: [Line; 3] = [
    Line {
        takes: &[Ty::Long],
        gives: Ty::Long,
    },
    Line {
        takes: &[Ty::Int],
        gives: Ty::Int,
    },
    Line {
        takes: &[Ty::Span],
        gives: Ty::Span,
    },
];

const ORDERED: [Line; 3] = [
    Line {
        takes: &[Ty::Long, Ty::Long],
        gives: Ty::Bool,
    },
    Line {
        takes: &[Ty::Moment, Ty::Moment],
        gives: Ty::Bool,
    },
    Line {
        takes: &[Ty::Span, Ty::Span],
        gives: Ty::Bool,
    },
];

const RANGE: [Line; 3] = [
    Line {
        takes: &[Ty::Long, Ty::Long, Ty::Long],
        gives: Ty::Bool,
    },
    Line {
        takes: &[Ty::Moment, Ty::Moment, Ty::Moment],
        gives: Ty::Bool,
    },
    Line {
        takes: &[Ty::Span, Ty::Span, Ty::Span],
        gives: Ty::Bool,
    },
];

const LOGIC: [Line; 1] = [Line {
    takes: &[Ty::Bool, Ty::Bool],
    gives: Ty::Bool,
}];

const NOT: [Line; 1] = [Line {
    takes: &[Ty::Bool],
    gives: Ty::Bool,
}];

const MEMBER: [Line; 2] = [
    Line {
        takes: &[Ty::Dynamic, Ty::Text],
        gives: Ty::Dynamic,
    },
    Line {
        takes: &[Ty::Dynamic, Ty::Long],
        gives: Ty::Dynamic,
    },
];

const NOW: [Line; 2] = [
    Line {
        takes: &[],
        gives: Ty::Moment,
    },
    Line {
        takes: &[Ty::Span],
        gives: Ty::Moment,
    },
];

const AGO: [Line; 1] = [Line {
    takes: &[Ty::Span],
    gives: Ty::Moment,
}];

const BIN: [Line; 4] = [
    Line {
        takes: &[Ty::Long, Ty::Long],
        gives: Ty::Long,
    },
    Line {
        takes: &[Ty::Int, Ty::Int],
        gives: Ty::Int,
    },
    Line {
        takes: &[Ty::Span, Ty::Span],
        gives: Ty::Span,
    },
    Line {
        takes: &[Ty::Moment, Ty::Span],
        gives: Ty::Moment,
    },
];

const LENGTH: [Line; 1] = [Line {
    takes: &[Ty::Text],
    gives: Ty::Long,
}];

const TEXT: [Line; 1] = [Line {
    takes: &[Ty::Text],
    gives: Ty::Text,
}];

const SUBSTRING: [Line; 2] = [
    Line {
        takes: &[Ty::Text, Ty::Long],
        gives: Ty::Text,
    },
    Line {
        takes: &[Ty::Text, Ty::Long, Ty::Long],
        gives: Ty::Text,
    },
];

const INDEX: [Line; 1] = [Line {
    takes: &[Ty::Text, Ty::Text],
    gives: Ty::Long,
}];

const SPLIT: [Line; 1] = [Line {
    takes: &[Ty::Text, Ty::Text],
    gives: Ty::Dynamic,
}];

const REPLACE: [Line; 1] = [Line {
    takes: &[Ty::Text, Ty::Text, Ty::Text],
    gives: Ty::Text,
}];

const START: [Line; 1] = [Line {
    takes: &[Ty::Moment],
    gives: Ty::Moment,
}];

const WEEKDAY: [Line; 1] = [Line {
    takes: &[Ty::Moment],
    gives: Ty::Span,
}];

const PART_OF_MOMENT: [Line; 1] = [Line {
    takes: &[Ty::Moment],
    gives: Ty::Long,
}];

const ARRAY_LENGTH: [Line; 1] = [Line {
    takes: &[Ty::Dynamic],
    gives: Ty::Long,
}];

const ARRAY: [Line; 1] = [Line {
    takes: &[Ty::Dynamic],
    gives: Ty::Dynamic,
}];

pub fn rule_for(function: Function) -> Rule
    ensures { rule_of result ≡ typing function }
{
    match function {
        Function::Add => Rule::Lines(&ADD),
        Function::Subtract => Rule::Lines(&SUBTRACT),
        Function::Multiply => Rule::Lines(&MULTIPLY),
        Function::Divide => Rule::Lines(&DIVIDE),
        Function::Remainder => Rule::Lines(&REMAINDER),
        Function::Negate | Function::Keep | Function::Abs => Rule::Lines(&SIGN),
        Function::Equal | Function::Unequal => Rule::Equals,
        Function::Less | Function::AtMost | Function::Greater | Function::AtLeast => Rule::Lines(
            &ORDERED,
        ),
        Function::EqualFolded
        | Function::UnequalFolded
        | Function::Find(_)
        | Function::FindNot(_) => Rule::Texts,
        Function::And | Function::Or => Rule::Lines(&LOGIC),
        Function::In | Function::NotIn => Rule::EqualsOne,
        Function::InFolded | Function::NotInFolded => Rule::TextsOne,
        Function::Between | Function::NotBetween => Rule::Lines(&RANGE),
        Function::Member => Rule::Lines(&MEMBER),
        Function::Now => Rule::Lines(&NOW),
        Function::Ago => Rule::Lines(&AGO),
        Function::Bin => Rule::Lines(&BIN),
        Function::Iff => Rule::OneChoice,
        Function::Case => Rule::Choices,
        Function::Coalesce => Rule::Alike,
        Function::Not => Rule::Lines(&NOT),
        Function::IsNull
        | Function::IsNotNull
        | Function::IsEmpty
        | Function::IsNotEmpty
        | Function::ToBool => Rule::Any(1, 1, Ty::Bool),
        Function::StrLen => Rule::Lines(&LENGTH),
        Function::ToLower | Function::ToUpper => Rule::Lines(&TEXT),
        Function::StrCat => Rule::Any(1, 64, Ty::Text),
        Function::Substring => Rule::Lines(&SUBSTRING),
        Function::IndexOf => Rule::Lines(&INDEX),
        Function::Split => Rule::Lines(&SPLIT),
        Function::ReplaceString => Rule::Lines(&REPLACE),
        Function::ToText => Rule::Any(1, 1, Ty::Text),
        Function::ToLong => Rule::Any(1, 1, Ty::Long),
        Function::ToInt => Rule::Any(1, 1, Ty::Int),
        Function::ToMoment => Rule::Any(1, 1, Ty::Moment),
        Function::ToSpan => Rule::Any(1, 1, Ty::Span),
        Function::ToDynamic => Rule::Any(1, 1, Ty::Dynamic),
        Function::StartOfDay
        | Function::StartOfWeek
        | Function::StartOfMonth
        | Function::StartOfYear => Rule::Lines(&START),
        Function::DayOfWeek => Rule::Lines(&WEEKDAY),
        Function::GetYear | Function::MonthOfYear | Function::DayOfMonth | Function::HourOfDay =>
            Rule::Lines(&PART_OF_MOMENT),
        Function::ArrayLength => Rule::Lines(&ARRAY_LENGTH),
        Function::ArraySortAsc | Function::BagKeys => Rule::Lines(&ARRAY),
    }
}
