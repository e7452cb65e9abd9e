//! Laws of what operators are bound to, which hold of the definition of binding alone and are said in the operators' own words: which columns each
//! gives, in which order, under which names, of which types, what is so unless it is said, and which fault is told. How queries are bound is left to
//! the binder, and that plans fit to `kq_bind_query`.
#![tactic(auto)]

mod laws;

pub use laws::{
    away_and_rename_have_their_columns, expansions_have_their_column, expressions_have_their_names,
    expressions_tell_their_first_fault, extends_have_their_columns, items_have_their_columns,
    literals_are_told_from_the_left, queries_tell_their_first_fault, sorts_have_their_orders,
    summarizes_have_their_columns,
};
