// Why a policy is refused, and why one fails.

/// What is wrong with an entry of an update policy, in the order in which it is tried.
#[derive(Clone, Copy, Debug, PartialEq, Eq)]
pub enum Why {
    /// The text is no JSON array of such objects.
    Form,
    /// The source is no table.
    Source,
    /// The query is none, or doesn't bind.
    Query,
    /// The query reads a view, doesn't read its source, or asks for the time.
    Body,
    /// The result's columns aren't the target's.
    Schema,
}

/// Why the query of an update policy fails.
#[derive(Clone, Copy, Debug, PartialEq, Eq)]
pub enum Cause {
    /// An overflow at a stage of the query, counted from 1.
    Overflow { stage: u32 },
    /// A number that is counted would pass the limit.
    Full { limit: u64 },
}
