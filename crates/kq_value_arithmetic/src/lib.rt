//! The operators on numbers, times and truths, over values: arithmetic, comparisons, and the three values of truth. Each is total, and none takes
//! memory. Which types an operator is for, and the widening of an int beside a long, are left to those who bind expressions; the parts of dates and
//! the operators on texts stand in crates of their own.
#![tactic(auto)]

mod arithmetic;
mod comparing;
mod logic;
mod numbers;

pub use arithmetic::{absolute, bin_of, divided, minus, negated, plus, remainder, times};
pub use comparing::{at_least, at_most, equal, greater, less, unequal};
pub use logic::{between_of, conjunction, disjunction, in_list, is_no, is_yes, negation};
