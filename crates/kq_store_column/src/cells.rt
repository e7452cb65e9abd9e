// The cells of a column, and the lesser and the greater of two.
ghost use Rattle.std.specs.Prelude.{◌≡◌, ◌<◌, All, length, slice_get, Some};
ghost use Rattle.kq_store_column.specs.Bounds.{IsLesser, IsGreater};
ghost use Rattle.kq_store_column.specs.Cells.{column_of, IsAtMost, IsWider};

use kq_store_rows::Rows;
use kq_value::Value;

// The cell of a row.
pub(crate) fn cell_at(rows: &Rows, column: usize, index: usize) -> &Value
    requires wide { All (IsWider column) rows.now }
    requires within { index < length rows.now }
    ensures { slice_get (column_of column rows.now) index ≡ Some result.now }
{
    &rows.row(index)[column]
}

pub(crate) fn lesser<'a>(a: &'a Value, b: &'a Value) -> &'a Value
    ensures { IsLesser IsAtMost a.now b.now result.now }
{
    if a.cmp(b).is_le() { a } else { b }
}

pub(crate) fn greater<'a>(a: &'a Value, b: &'a Value) -> &'a Value
    ensures { IsGreater IsAtMost a.now b.now result.now }
{
    if a.cmp(b).is_le() { b } else { a }
}
