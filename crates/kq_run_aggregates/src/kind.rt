// The aggregates, and which values and rows they take.
ghost use Rattle.std.specs.Prelude.{◌≡◌};
ghost use Rattle.kq_plan.specs.Plans.{aggregating_of};
ghost use Rattle.kq_value.specs.declared.ty.Ty.TheVariants as types;
ghost use Rattle.kq_value.specs.declared.value.Value.TheVariants.{Null};
ghost use Rattle.kq_run_aggregates.specs.Aggregates.{aggregate_kind};
ghost use Rattle.std.specs.Option.{option_cmp};
ghost use Rattle.kq_run_aggregates.specs.Ranks.{choice_cmp, first_of, is_empty, is_hollow, side_cmp, unless_null};

use kq_plan::Aggregate;
use kq_value::{Ty, Value};
use std::cmp::Ordering;

/// An aggregate, without its arguments.
#[derive(Clone, Copy)]
pub enum Kind {
    Count,
    Sum,
    Min,
    Max,
    ArgMax,
    ArgMin,
    TakeAny,
    /// The different values, as many as this at most.
    MakeSet(u64),
}

// Which end of an order is taken.
#[derive(Clone, Copy)]
pub(crate) enum Side {
    Least,
    Greatest,
}

// Which row of a group is taken: by its first cell, or any.
#[derive(Clone, Copy)]
pub(crate) enum Choice {
    By(Side),
    Any,
}

impl Kind {
    /// The aggregate of a plan.
    pub fn of(aggregate: &Aggregate) -> Kind
        ensures { result ≡ aggregate_kind (aggregating_of aggregate.now) }
    {
        match aggregate {
            Aggregate::Count => Kind::Count,
            Aggregate::Sum(_) => Kind::Sum,
            Aggregate::Min(_) => Kind::Min,
            Aggregate::Max(_) => Kind::Max,
            Aggregate::ArgMax(_, _) => Kind::ArgMax,
            Aggregate::ArgMin(_, _) => Kind::ArgMin,
            Aggregate::TakeAny(_) => Kind::TakeAny,
            Aggregate::MakeSet(_, most) => Kind::MakeSet(*most),
        }
    }
}

impl Side {
    // The order in which the value that is taken comes last.
    pub(crate) fn cmp(self, a: &Value, b: &Value) -> Ordering
        ensures { result ≡ side_cmp self a.now b.now }
    {
        match self {
            Side::Greatest => a.cmp(b),
            Side::Least => b.cmp(a),
        }
    }

    // The same of values that may be null, which come before all others.
    pub(crate) fn cmp_nulls_first(self, a: &Value, b: &Value) -> Ordering
        ensures { result ≡ option_cmp (side_cmp self) (unless_null a.now) (unless_null b.now) }
    {
        match (a.is_null(), b.is_null()) {
            (true, true) => Ordering::Equal,
            (true, false) => Ordering::Less,
            (false, true) => Ordering::Greater,
            (false, false) => self.cmp(a, b),
        }
    }
}

impl Choice {
    // The order in which the row that is taken comes last.
    pub(crate) fn cmp(self, a: &[Value], b: &[Value]) -> Ordering
        ensures { result ≡ choice_cmp self a.now b.now }
    {
        match self {
            Choice::By(side) => {
                let null = Value::Null(Ty::Long);
                side.cmp_nulls_first(first_or(a, &null), first_or(b, &null))
            }
            Choice::Any => is_hollow(b).cmp(&is_hollow(a)),
        }
    }
}

// The first cell, or a null where there is none.
pub(crate) fn first_or<'a>(row: &'a [Value], null: &'a Value) -> &'a Value
    requires { null.now ≡ Null types.Long }
    ensures { result.now ≡ first_of row.now }
{
    match row {
        [first, ..] => first,
        [] => null,
    }
}

fn is_empty(value: &Value) -> bool
    ensures { result ≡ is_empty value.now }
{
    match value {
        Value::Text(text) => text.is_empty(),
        _ => value.is_null(),
    }
}

// Whether it has one cell, which is null or empty.
pub(crate) fn is_hollow(row: &[Value]) -> bool
    ensures { result ≡ is_hollow row.now }
{
    match row {
        [cell] => is_empty(cell),
        _ => false,
    }
}
