// How many values a set holds.
ghost use Rattle.std.specs.Prelude.{◌≡◌, map};
ghost use Rattle.kq_bind_aggregates.specs.Made as the;
ghost use Rattle.kq_bind_aggregates.specs.Seen.{argued_of};
ghost use Rattle.kq_plan_expressions.specs.Terms.{term_of};

use kq_plan_expressions::{Expr, Typed};
use kq_value::Value;

// Where it isn't said.
const MOST_IN_SET: u64 = 1048576;

fn at_least_none(number: i64) -> u64
    ensures { result ≡ the.at_least_none number }
{
    if number < 0 { 0 } else { number as u64 }
}

// A literal of a whole number.
#[tactic(auto, using(crate::proofs::Chains::no_links, crate::proofs::Chains::is_no_number))]
fn most_said(expr: &Expr) -> Option<u64>
    ensures { result ≡ the.most_said (term_of expr.now) }
{
    match expr {
        Expr::Literal(Value::Long(most)) => Some(at_least_none(*most)),
        Expr::Literal(Value::Int(most)) => Some(at_least_none(i64::from(*most))),
        Expr::Chain(first, links) => {
            if links.is_empty() {
                most_said(first)
            } else {
                None
            }
        }
        _ => None,
    }
}

/// How many values a set holds at most, by the arguments behind its value.
pub fn most_given(others: &[Option<Typed>]) -> Option<u64>
    ensures { result ≡ the.most_given (map argued_of others.now) }
{
    match others {
        [] => Some(MOST_IN_SET),
        [Some(value)] => most_said(&value.expr),
        _ => None,
    }
}
