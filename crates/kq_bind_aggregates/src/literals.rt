// Literals that aren't supported.
ghost use Rattle.std.specs.Prelude.{◌≡◌, map};
ghost use Rattle.kq_bind_aggregates.specs.Unsupported as the;
ghost use Rattle.kq_read_grammar.specs.Views.{aggregate_view, argument_view};

use kq_bind_expressions::unsupported;
use kq_read_grammar::{Aggregate, Argument};

fn in_argument(text: &str, argument: &Argument) -> Option<usize>
    ensures { result ≡ the.unsupported_argument text.now (argument_view argument.now) }
{
    match argument {
        Argument::Value(tree) => unsupported(text, tree),
        Argument::Star(_) => None,
    }
}

fn in_arguments(text: &str, arguments: &[Argument]) -> Option<usize>
    ensures { result ≡ the.unsupported_arguments text.now (map argument_view arguments.now) }
{
    for argument in arguments {
        if let Some(place) = in_argument(text, argument) {
            return Some(place);
        }
    }
    None
}

/// The place of the leftmost literal of the aggregate that isn't supported. Takes no memory.
pub fn unsupported_aggregate(text: &str, aggregate: &Aggregate) -> Option<usize>
    ensures { result ≡ the.unsupported_aggregate text.now (aggregate_view aggregate.now) }
{
    in_arguments(text, &aggregate.arguments)
}

/// The place of the leftmost literal of the aggregates that isn't supported. Takes no memory.
pub fn unsupported_aggregates(text: &str, aggregates: &[Aggregate]) -> Option<usize>
    ensures { result ≡ the.unsupported_aggregates text.now (map aggregate_view aggregates.now) }
{
    for aggregate in aggregates {
        if let Some(place) = unsupported_aggregate(text, aggregate) {
            return Some(place);
        }
    }
    None
}
