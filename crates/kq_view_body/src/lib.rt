//! The body of a materialized view: the table's name, row operators, and one summarize, last, with no let and no call of `now` or `ago`. This crate
//! tells whether a query has that form and binds it: to its plan, or its first fault. Of an export's body it tells where it reads something else than
//! its table, or calls one of these. How queries are bound is left to the binder, and what a body's plan gives to the crates above.
#![tactic(auto)]

mod body;
mod bound;
mod exports;
mod fault;
mod moments;
mod said;
mod view_fault;

pub use body::check_body;
pub use bound::bind_body;
pub use exports::foreign_place;
pub use fault::BodyFault;
pub use kq_bind_query::unsupported_in_query;
pub use view_fault::ViewFault;
