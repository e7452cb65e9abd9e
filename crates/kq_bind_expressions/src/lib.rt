//! The binder of expressions: from the tree of an expression, over the columns of a row and the scalar lets before it, to a typed expression, or its
//! first fault; and the leftmost literal of a tree that isn't supported, which whoever binds a query asks for first. Sources, operators and lets, and
//! what a bound expression gives, are left to others.
#![tactic(auto)]

mod apply;
mod expressions;
mod fault;
mod literals;
mod lookup;
mod operators;
mod scope;

pub use apply::taken;
pub use expressions::bind_expression;
pub use fault::BindFault;
pub use kq_plan_functions::{Function, find};
pub use kq_read_meanings::{literal_value, name_place, name_text, piece, ty_of};
pub use literals::{unsupported, valueless};
pub use lookup::first_named;
pub use scope::Scope;
