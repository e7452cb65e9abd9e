// Why a query is no body of a view.

/// Why a query is no body of a view. A place is an offset in the query's text.
#[derive(Clone, Copy, PartialEq, Eq)]
pub enum BodyFault {
    /// The first token of the leftmost source, operator or call of `now` or `ago` with which no body goes on; where only the summarize is missing,
    /// that of the body.
    BadView { at: usize },
}
