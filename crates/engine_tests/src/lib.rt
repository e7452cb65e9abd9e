//! Tests of the engine without its lock: steps in an order that the test sets, what asking a view looks at, and what threads gather of a row or two.
#![tactic(auto)]

#[cfg(test)]
mod tests;
