//! The body of an export bound: its plan, where its leaves are the table of the export alone and it asks for no moment of a command; or its first
//! fault. How queries are bound is left to the binder, where a body leaves its form to `kq_view_body`, and what a plan gives to the crates above.
#![tactic(auto)]

mod body;
mod export;
mod fault;

pub use export::bind_export;
pub use fault::ExportFault;
pub use kq_bind_query::unsupported_in_query;
