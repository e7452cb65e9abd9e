// The names of functions.
ghost use Rattle.std.specs.Prelude.{◌≡◌, map};
ghost use Rattle.kq_plan_functions.specs.Names.{function_named, first_named};
ghost use Rattle.kq_plan_functions.specs.Seen.{named_of};

use crate::function::Function;

// A name, and the function that it calls.
#[derive(Clone, Copy)]
struct Named {
    name: &'static str,
    function: Function,
}

const NAMES: [Named; 42] = [
    Named {
        name: "now",
        function: Function::Now,
    },
    Named {
        name: "ago",
        function: Function::Ago,
    },
    Named {
        name: "bin",
        function: Function::Bin,
    },
    Named {
        name: "floor",
        function: Function::Bin,
    },
    Named {
        name: "abs",
        function: Function::Abs,
    },
    Named {
        name: "iff",
        function: Function::Iff,
    },
    Named {
        name: "iif",
        function: Function::Iff,
    },
    Named {
        name: "case",
        function: Function::Case,
    },
    Named {
        name: "coalesce",
        function: Function::Coalesce,
    },
    Named {
        name: "not",
        function: Function::Not,
    },
    Named {
        name: "isnull",
        function: Function::IsNull,
    },
    Named {
        name: "isnotnull",
        function: Function::IsNotNull,
    },
    Named {
        name: "isempty",
        function: Function::IsEmpty,
    },
    Named {
        name: "isnotempty",
        function: Function::IsNotEmpty,
    },
    Named {
        name: "strlen",
        function: Function::StrLen,
    },
    Named {
        name: "tolower",
        function: Function::ToLower,
    },
    Named {
        name: "toupper",
        function: Function::ToUpper,
    },
    Named {
        name: "strcat",
        function: Function::StrCat,
    },
    Named {
        name: "substring",
        function: Function::Substring,
    },
    Named {
        name: "indexof",
        function: Function::IndexOf,
    },
    Named {
        name: "split",
        function: Function::Split,
    },
    Named {
        name: "replace_string",
        function: Function::ReplaceString,
    },
    Named {
        name: "tostring",
        function: Function::ToText,
    },
    Named {
        name: "tolong",
        function: Function::ToLong,
    },
    Named {
        name: "toint",
        function: Function::ToInt,
    },
    Named {
        name: "tobool",
        function: Function::ToBool,
    },
    Named {
        name: "todatetime",
        function: Function::ToMoment,
    },
    Named {
        name: "totimespan",
        function: Function::ToSpan,
    },
    Named {
        name: "todynamic",
        function: Function::ToDynamic,
    },
    Named {
        name: "parse_json",
        function: Function::ToDynamic,
    },
    Named {
        name: "startofday",
        function: Function::StartOfDay,
    },
    Named {
        name: "startofweek",
        function: Function::StartOfWeek,
    },
    Named {
        name: "startofmonth",
        function: Function::StartOfMonth,
    },
    Named {
        name: "startofyear",
        function: Function::StartOfYear,
    },
    Named {
        name: "dayofweek",
        function: Function::DayOfWeek,
    },
    Named {
        name: "getyear",
        function: Function::GetYear,
    },
    Named {
        name: "monthofyear",
        function: Function::MonthOfYear,
    },
    Named {
        name: "dayofmonth",
        function: Function::DayOfMonth,
    },
    Named {
        name: "hourofday",
        function: Function::HourOfDay,
    },
    Named {
        name: "array_length",
        function: Function::ArrayLength,
    },
    Named {
        name: "array_sort_asc",
        function: Function::ArraySortAsc,
    },
    Named {
        name: "bag_keys",
        function: Function::BagKeys,
    },
];

/// The function of a name. Takes no memory.
pub fn find(name: &str) -> Option<Function>
    ensures { result ≡ function_named name.now }
{
    first_named(&NAMES, name)
}

fn first_named(names: &[Named], name: &str) -> Option<Function>
    ensures { result ≡ first_named (map named_of names.now) name.now }
{
    for named in names {
        if named.name == name {
            return Some(named.function);
        }
    }
    None
}
