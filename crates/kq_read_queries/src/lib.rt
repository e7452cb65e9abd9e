//! Queries: the readers of sources, operators, pipes and lets. `parse_query` takes exactly the texts of queries, each as its only tree, and names the
//! symbol at which a text stops to begin one. What a query means is left to others.
#![tactic(auto)]

mod asking;
mod bodies;
mod depth;
mod lets;
mod pipes;
mod words;

pub use asking::{ParseFault, parse_query, whole};
pub use depth::too_deep;
pub use lets::read_query;
pub use pipes::read_tabular;
