// The functions of aggregates, by their names.
ghost use Rattle.std.specs.Prelude.{◌≡◌, map};
ghost use Rattle.kq_bind_aggregates.specs.Functions.{aggregate_named, first_aggregate};
ghost use Rattle.kq_bind_aggregates.specs.Seen.{named_of};

/// What an aggregate applies.
#[derive(Clone, Copy)]
pub enum AggregateFunction {
    Count,
    Sum,
    Min,
    Max,
    ArgMax,
    ArgMin,
    TakeAny,
    MakeSet,
}

// A name, and the function that it calls.
#[derive(Clone, Copy)]
struct Named {
    name: &'static str,
    function: AggregateFunction,
}

const NAMES: [Named; 8] = [
    Named {
        name: "count",
        function: AggregateFunction::Count,
    },
    Named {
        name: "sum",
        function: AggregateFunction::Sum,
    },
    Named {
        name: "min",
        function: AggregateFunction::Min,
    },
    Named {
        name: "max",
        function: AggregateFunction::Max,
    },
    Named {
        name: "arg_max",
        function: AggregateFunction::ArgMax,
    },
    Named {
        name: "arg_min",
        function: AggregateFunction::ArgMin,
    },
    Named {
        name: "take_any",
        function: AggregateFunction::TakeAny,
    },
    Named {
        name: "make_set",
        function: AggregateFunction::MakeSet,
    },
];

/// The function of a name.
pub fn find(name: &str) -> Option<AggregateFunction>
    ensures { result ≡ aggregate_named name.now }
{
    first_named(&NAMES, name)
}

fn first_named(names: &[Named], name: &str) -> Option<AggregateFunction>
    ensures { result ≡ first_aggregate (map named_of names.now) name.now }
{
    for named in names {
        if named.name == name {
            return Some(named.function);
        }
    }
    None
}
