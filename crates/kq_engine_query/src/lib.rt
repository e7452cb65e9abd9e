//! The answers to queries: a query is bound over the names of a snapshot, its plan is run over the rows of the snapshot's tables and views, and what
//! it gives is printed. How a query becomes a plan, and what a plan gives, is left to the crates below; when a query is asked, to those above.
#![tactic(auto)]

mod answering;
mod made;
mod scope;
mod views;

pub use answering::answer;
pub use kq_run_plan::{Alone, Gatherer};
pub use scope::QueryScope;
pub use views::{read_between, view_rows_of};
