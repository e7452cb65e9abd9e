// How the cells of a column are compared with a value.

/// How a cell stands to the value of a comparison.
#[derive(Clone, Copy)]
pub enum ZoneOp {
    Equal,
    Below,
    AtMost,
    Above,
    AtLeast,
}
