//! The steps of a plan as the binder adds them: what a name stands for, and what each source and operator that holds no pipe does with the rows that
//! come. Pipes, lets and queries are left to the binder, and what expressions and clauses are bound to to the crates below.
#![tactic(auto)]

mod flow;
mod group;
mod mv_expand;
mod operators;
mod row;
mod scope;
mod several;
mod sort;
mod sources;

pub use flow::{Flow, Progress, following, next_stage};
pub use group::{grouped, grouped_by};
pub use kq_bind_clauses::join_kind;
pub use kq_bind_columns::is_taken;
pub use kq_read_meanings::{name_place, name_text};
pub use mv_expand::bind_mv_expand;
pub use operators::{
    all_distinct, bind_distinct, counted_rows, dropped, extended, filtered, projected, renamed,
    taken,
};
pub use row::printed_row;
pub use scope::{Scope, TabularLet, part_named, source_named, tabular_let};
pub use several::{all_together, joined_on};
pub use sort::{sorted_by, topped_by};
pub use sources::{bind_range, table_rows};
