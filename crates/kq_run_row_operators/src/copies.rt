// Copies of the rows of a relation.
ghost use Rattle.std.specs.Prelude.{◌≡◌, IfOk};
ghost use Rattle.kq_store_rows.specs.Chunks.{same_width};

use kq_eval_pieces::{Relation, copy_row};
use kq_store_rows::Rows;
use kq_value::Memory;
use std::alloc::Global;

pub(crate) fn copy_rows<R: Relation>(alloc: Global, relation: &R) -> Result<Rows, Memory>
    requires { same_width (R.rows relation.now) }
    ensures { IfOk result (λ rows. rows ≡ R.rows relation.now) }
{
    let mut rows = Rows::new(alloc);
    let mut row = Vec::new(alloc);
    for i in 0..relation.len() {
        copy_row(&mut row, relation, i)?;
        rows.push_from(&mut row)?;
    }
    Ok(rows)
}
