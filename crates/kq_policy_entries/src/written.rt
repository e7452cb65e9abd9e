// Entries.
use kq_value::Text;

/// An entry of an update policy, as its object writes it.
#[derive(Drop)]
pub struct Written {
    /// `IsEnabled`, true where it is missing.
    pub enabled: bool,
    /// `Source`, the name of a table.
    pub source: Text,
    /// `Query`, the text of a query.
    pub query: Text,
    /// `IsTransactional`, false where it is missing.
    pub transactional: bool,
    /// `PropagateIngestionProperties`, false where it is missing.
    pub propagate: bool,
}
