//! Clauses: the readers of what sources and operators are made of: items, keys, aggregates, groupings, renamings, what a join matches, columns and
//! cells. Each takes exactly the texts of its form and stops exactly where none goes on. Sources and operators themselves are left to others.
#![tactic(auto)]

mod aggregates;
mod cells;
mod items;
mod joins;

pub use aggregates::{AnAggregate, read_aggregates};
pub use cells::{read_cells, read_columns};
pub use items::{
    AKey, AnItem, read_grouping, read_item, read_items, read_key, read_keys, read_names,
};
pub use joins::{read_join_keys, read_join_kind, read_renamings};
