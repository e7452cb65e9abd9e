//! The binder of aggregates: from the aggregates of a summarize, over its columns and behind its keys, to what each does and the columns that it
//! makes, or their first fault; and the leftmost literal among them that isn't supported. What an expression is bound to is `kq_bind_expressions`'s;
//! the keys, and what an aggregate gives of a group, are left to others.
#![tactic(auto)]

mod arguments;
mod columns;
mod extremes;
mod function;
mod gathered;
mod literals;
mod made;
mod sets;

pub use gathered::{Gathered, aggregates_made, no_aggregate};
pub use literals::{unsupported_aggregate, unsupported_aggregates};
