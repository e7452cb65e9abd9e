//! The binder of the clauses of operators and sources: sort keys; the kind, the keys and the columns of joins; the columns of unions and what fills
//! them; the columns and the rows of datatables; the values of ranges. The steps of a plan, what pipes and arms are bound to, and that Unsupported is
//! told before every other fault, are left to others.
#![tactic(auto)]

mod joins;
mod ranges;
mod sorts;
mod tables;
mod unions;

pub use joins::{join_columns, join_kind, on_keys};
pub use kq_bind_columns::{unsupported_item, unsupported_items};
pub use kq_bind_expressions::{unsupported, valueless};
pub use ranges::{Ranging, range_column, ranged};
pub use sorts::{sort_key, sort_keys, unsupported_keys};
pub use tables::{Tabling, tabled, typeless, unsupported_cells, unsupported_columns, word_type};
pub use unions::{ArmColumns, arms_filled, filling, is_inner, union_columns, union_sources};
