//! The cells of a column of some rows: their own, or lent where they lie. Which rows these are, and what becomes of the cells, is left to the crates
//! above.
#![tactic(auto)]

mod at;
mod bags;
mod made;
mod marked;
mod numbers;
mod own;
mod parts;
mod pick;
mod vector;

pub use at::cell_at;
pub use bags::{LentBags, Part};
pub use marked::MarkedNumbers;
pub use numbers::{lent_numbers, value_of};
pub use own::{copies, owned};
pub use parts::{members_of_bags, parts_at};
pub use vector::Vector;
