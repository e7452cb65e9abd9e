// The aggregates of a summarize.
use kq_run_aggregates::Kind;
use kq_value::Ty;
use std::marker::Model;

/// An aggregate of a summarize, and the types of the columns that it gives.
#[derive(Drop)]
pub struct Aggregated {
    pub kind: Kind,
    pub types: Vec<Ty>,
}

impl Model for Aggregated {
    ghost use Rattle.std.specs.Coded.{codes};
    ghost use Rattle.kq_run_groups.specs.Grouped.{AggregateShape};

    ghost Value = { AggregateShape };

    ghost coded = { Prim.hlevel codes };

    ghost view = { λ a. record { kind = a.kind; types = a.types.items } };
}
