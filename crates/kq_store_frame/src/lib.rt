//! Rows in columns of their own, as a sort makes them: the cells of each column lie side by side. Which rows these are is left to the crates above.
#![tactic(auto)]

mod columns;
mod frame;
mod kind;
mod series;

pub use frame::Frame;
pub use kind::Kind;
pub use series::Series;
