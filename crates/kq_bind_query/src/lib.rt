//! The front of the binder: from the tree of a query, over the names of a catalogue, to a typed plan, or its first fault. A bound plan fits the names
//! that it is bound over: each step has rows of the columns that the step says, by the types of its terms and of the columns that it takes; its
//! columns have different names, and its steps stages of their own. With laws of default names, expansions, joins, unions and datatables.
//! What each source and operator is bound to is left to the crates below, and what a plan gives to those above.
#![tactic(auto)]

mod fitting;
mod laws;
mod lets;
mod pipe;
mod query;

pub use fitting::bind_fitting;
pub use kq_bind_supported::unsupported_in_query;
pub use laws::{
    default_names_are_free, expansions_replace_their_own_column, joins_have_their_columns,
    tables_have_their_cells, unions_have_their_columns,
};
pub use query::bind;
