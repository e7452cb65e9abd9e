// The arguments of aggregates.
use kq_store_column_view::Vector;

/// An aggregate's arguments over a piece of rows: a cell for each row, or a row of cells, which stand in columns, or none where the aggregate only
/// counts.
#[derive(Drop)]
pub enum Argument<'a> {
    Nothing,
    Column(Vector<'a>),
    Columns(Vec<Vector<'a>>),
}
