// The steps that ask for the moment of a command.
ghost use Rattle.std.specs.Prelude.{◌≡◌, map};
ghost use Rattle.std.specs.List.{list_any};
ghost use Rattle.kq_catalog_journal.specs.Moments as the;
ghost use Rattle.kq_policy_moments.specs.Links.{link_asks};
ghost use Rattle.kq_plan_expressions.specs.Terms.{link_of, term_of, terms_of};
ghost use Rattle.kq_plan.specs.Plans.{aggregating_of, doing_of, sorting_of};

use kq_plan::{Aggregate, SortKey, Work};
use kq_plan_expressions::{Expr, Link};
use kq_plan_functions::Function;

fn is_moment(function: Function) -> bool
    ensures { result ≡ the.is_moment function }
{
    matches!(function, Function::Now | Function::Ago)
}

#[cycle(moments)]
#[tactic(auto, using(crate::proofs::Chains::chain_asks))]
fn asks(expr: &Expr) -> bool
    ensures { result ≡ the.asks (term_of expr.now) }
{
    match expr {
        Expr::Literal(_) => false,
        Expr::Column(_) => false,
        Expr::Cell(_) => false,
        Expr::Call(function, args) => is_moment(*function) || some_asks(args),
        Expr::Chain(first, links) => asks(first) || some_link_asks(links),
    }
}

#[cycle(moments)]
fn some_asks(exprs: &Vec<Expr>) -> bool
    ensures { result ≡ the.some_asks (terms_of (map term_of exprs.now.items)) }
{
    for expr in exprs {
        if asks(expr) {
            return true;
        }
    }
    false
}

#[cycle(moments)]
fn some_link_asks(links: &Vec<Link<Expr>>) -> bool
    ensures { result ≡ list_any link_asks (map link_of links.now.items) }
{
    for link in links {
        if link_asks(link) {
            return true;
        }
    }
    false
}

#[cycle(moments)]
fn link_asks(link: &Link<Expr>) -> bool
    ensures { result ≡ link_asks (link_of link.now) }
{
    match link {
        Link::ToLong => false,
        Link::With(_, operand) => asks(operand),
    }
}

fn key_asks(key: &SortKey) -> bool
    ensures { result ≡ the.key_asks (sorting_of key.now) }
{
    asks(&key.value)
}

fn some_key_asks(keys: &[SortKey]) -> bool
    ensures { result ≡ list_any the.key_asks (map sorting_of keys.now) }
{
    for key in keys {
        if key_asks(key) {
            return true;
        }
    }
    false
}

fn aggregate_asks(aggregate: &Aggregate) -> bool
    ensures { result ≡ the.aggregate_asks (aggregating_of aggregate.now) }
{
    match aggregate {
        Aggregate::Sum(expr)
        | Aggregate::Min(expr)
        | Aggregate::Max(expr)
        | Aggregate::ArgMax(expr, _)
        | Aggregate::ArgMin(expr, _)
        | Aggregate::MakeSet(expr, _) => asks(expr),
        Aggregate::Count | Aggregate::TakeAny(_) => false,
    }
}

fn some_aggregate_asks(aggregates: &[Aggregate]) -> bool
    ensures { result ≡ list_any the.aggregate_asks (map aggregating_of aggregates.now) }
{
    for aggregate in aggregates {
        if aggregate_asks(aggregate) {
            return true;
        }
    }
    false
}

/// Whether some expression of a step calls `now` or `ago`. Takes no memory.
pub fn work_asks(work: &Work) -> bool
    ensures { result ≡ the.step_asks (doing_of work.now) }
{
    match work {
        Work::Row(exprs) | Work::Project(_, exprs) => some_asks(exprs),
        Work::Range(from, to, step) => asks(from) || asks(to) || asks(step),
        Work::Scalar(expr) | Work::Where(_, expr) | Work::MvExpand(_, expr, _, _) => asks(expr),
        Work::Sort(_, keys) => some_key_asks(keys),
        Work::Top(_, _, key) => key_asks(key),
        Work::Summarize(_, keys, aggregates) => some_asks(keys) || some_aggregate_asks(aggregates),
        Work::Leaf(_, _) | Work::Table(_) | Work::Take(_, _) | Work::Count(_) => false,
        Work::Distinct(_, _) | Work::Join(_, _, _, _) | Work::Union(_) => false,
    }
}
