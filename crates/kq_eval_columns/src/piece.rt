// Pieces of rows.
use kq_store_column_view::Vector;
use kq_value::Value;

/// The columns of a piece of rows, the cells of the scalar lets, and the ticks of the command's moment.
#[derive(Clone, Copy)]
pub struct Piece<'a, 'b> {
    pub columns: &'a [Vector<'b>],
    pub lets: &'a [Value],
    pub now: i64,
}
