//! What a query has that isn't supported: the leftmost literal or word of a type, through its lets, sources and operators. What isn't supported in an
//! expression, an aggregate or a clause is left to the crates below, and all other faults to the binder.
#![tactic(auto)]

mod unsupported;

pub use unsupported::unsupported_in_query;
