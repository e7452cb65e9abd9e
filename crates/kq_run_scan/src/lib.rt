//! The rows that a query reads: rows of its own, the records of extents, which are lent as they stand, or such records by pairs of places: those of a
//! range of cursors, or each beside rows that were found for it. So a count makes no row, a join copies no cell, and what row operators make of lent
//! records is made of those of their columns that an expression reads, a part of an extent at a time.
//! What operators make of a part is left to `kq_run_row_operators`, and which extents a query reads to the crates above.
#![tactic(auto)]

mod beside;
mod constant;
mod finder;
mod first;
mod flow;
mod framed;
mod gathered;
mod held;
mod lending;
mod paired;
mod place;
mod ranged;
mod records;
mod ruled;
mod settled;
mod source;
mod unread;

pub use finder::Finder;
pub use flow::{Flow, Next};
pub use gathered::Gathered;
pub use held::Held;
pub use kq_run_row_operators::{
    Operator, RangeFault, Relation, Vector, append_arm, copy_row, distinct_rows, eval_row,
    map_rows, range_rows, vector_over,
};
pub use kq_store_extent::RecordedRows;
pub use paired::Paired;
pub use ranged::records_later;
pub use records::Records;
pub use source::Source;
