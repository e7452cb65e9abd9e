// The least and the greatest cell.
ghost use Rattle.std.specs.Prelude.{◌≡◌, ◌↔◌, ◌<◌, [], length, IfOk, IfSome, IsNone, IsTrue, Some, slice_get};
ghost use Rattle.kq_store_column.specs.Bounds.{AreBounds};
ghost use Rattle.kq_store_column.specs.Cells.{cells_present, IsAtMost};
ghost use Rattle.kq_store_column.specs.Zones.{is_zone};

use crate::cells::{greater, lesser};
use kq_value::{Memory, Value};

// Cells that are lent one by one.
pub(crate) trait Cellwise {
    ghost use Rattle.std.specs.Prelude.{List};
    ghost use Rattle.kq_value.specs.declared.value.Value.{Value as Cell};

    ghost cells: { Self → List Cell };

    fn count(&self) -> usize
        ensures { result ≡ length (cells self.now) };

    fn lent(&self, index: usize) -> &Value
        requires { index < length (cells self.now) }
        ensures { slice_get (cells self.now) index ≡ Some result.now };
}

// The least and the greatest of the cells, nulls aside.
fn bounds_of<C: Cellwise>(cells: &C) -> Option<(&Value, &Value)>
    ensures none { IsNone result ↔ (cells_present (C.cells cells.now) ≡ []) }
    ensures bounds { IfSome result (λ zone. AreBounds IsAtMost (cells_present (C.cells cells.now)) zone.0.now zone.1.now) }
{
    let mut zone: Option<(&Value, &Value)> = None;
    for i in 0..cells.count() {
        let cell = cells.lent(i);
        if cell.is_null() {
            continue;
        }
        zone = Some(match zone {
            None => (cell, cell),
            Some((least, greatest)) => (lesser(cell, least), greater(cell, greatest)),
        });
    }
    zone
}

// The same, kept as values of their own.
pub(crate) fn zone_of<C: Cellwise>(cells: &C) -> Result<Option<(Value, Value)>, Memory>
    ensures { IfOk result (λ zone. IsTrue (is_zone (C.cells cells.now) zone)) }
{
    match bounds_of(cells) {
        None => Ok(None),
        Some((least, greatest)) => Ok(Some((least.clone_in()?, greatest.clone_in()?))),
    }
}
