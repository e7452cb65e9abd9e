// What the rule knows of one pass.
use std::collections::LinkedList;

/// What the rule of a `Turn` knows of one pass. No value of it is ever made.
pub struct View<E> {
    /// The longest history that was seen.
    pub seen: LinkedList<E>,
    /// What the passes that were joined into it had seen.
    pub olds: LinkedList<LinkedList<E>>,
    /// Whether it holds the value.
    pub holds: bool,
    /// While it holds the value, the history that was taken, and then the one that is given.
    pub base: LinkedList<E>,
    pub worth: u64,
    pub passes: u64,
    pub fixed: LinkedList<u64>,
    /// The entries that were added to the history while it held the value, in order.
    pub added: LinkedList<E>,
    pub taken: LinkedList<u64>,
}
