//! What several threads gather of rows beside each other, their groups, their number, the rows that are made of them, the first of these in an order,
//! or the partners that a join looks up for them: rows are cut by their numbers and shared out among threads, and what each comes to is joined in the
//! order of the rows.
//! What the rows from one number up to another come to is left to `kq_run_gather`, and who asks for it to the crates above.
#![tactic(auto)]

mod asked;
mod counted;
mod crew;
mod halves;
mod joining;
mod lookup;
mod paired;
mod rows;
mod sample;
mod taking;
mod topped;

pub use counted::count_in_parts;
pub use crew::{Crew, PIECE};
pub use halves::gather_in_parts;
pub use paired::pair_in_parts;
pub use rows::collect_in_parts;
pub use topped::top_in_parts;
