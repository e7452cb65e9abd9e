//! The states of aggregates: what is kept of the rows of each group, how rows and other states come to it, and the cells that it ends with. Which
//! rows are a group, and the values of the arguments over a row, are left to the crates above.
#![tactic(auto)]

mod across;
mod columns;
mod count;
mod element;
mod finish;
mod kind;
mod laws;
mod reading;
mod set;
mod states;
mod sum;
mod table;
mod taken;

pub use across::row_across;
pub use kind::Kind;
pub use laws::order_is_free;
pub use reading::{Reading, numbers_in};
pub use states::States;
