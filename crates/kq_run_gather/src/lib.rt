//! Groups of the rows that come through row operators: their keys, the arguments of aggregates over a piece of rows, and the groups that all pieces
//! come to, in one thread or by whoever gathers some of the rows beside others, of which what each came to is joined. So are the rows that come,
//! their number, the first of them in an order, and the partners of a join's left rows. What a view's body is, and when groups stand for it, is
//! defined here.
//! How rows come through operators is left to `kq_run_row_operators` and `kq_run_scan`, what groups keep to `kq_run_groups`, and what becomes of them
//! to the crates above.
#![tactic(auto)]

mod arriving;
mod both;
mod collecting;
mod counting;
mod gatherer;
mod grouping;
mod laws;
mod leading;
mod partners;
mod pipeline;
mod steps;
mod summarize;
mod taken;

pub use arriving::{Arrived, gather_groups};
pub use both::joined;
pub use collecting::{Collected, collect_between, collected_together};
pub use counting::{Counted, count_between, counted_together};
pub use gatherer::{Alone, Gatherer, gather_between};
pub use grouping::{add_piece, typed};
pub use kq_run_groups::Groups;
pub use kq_run_scan::{Held, Relation, eval_row};
pub use laws::groups_have_no_order;
pub use leading::{Leading, Top, top_between, topped_together};
pub use partners::{Partners, find_between};
pub use pipeline::Pipeline;
pub use steps::{operators, stage_in};
pub use summarize::Summarize;
