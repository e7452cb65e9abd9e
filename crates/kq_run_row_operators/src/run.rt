// Operators over a piece of rows.
ghost use Rattle.std.specs.Prelude.{◌≡◌, IfOk, map};
ghost use Rattle.kq_store_rows.specs.Chunks.{same_width};
ghost use Rattle.kq_eval_pieces.specs.kq_eval_row.Val.{surroundings};
ghost use Rattle.kq_run_row_operators.specs.Operators.{rowwise_of};
ghost use Rattle.kq_run_row_operators.specs.Pieces.{ran_in, rows_in};
ghost use Rattle.kq_run_row_operators.specs.Ran.{ran};

use crate::apply::apply;
use crate::operator::Operator;
use crate::piece::Piece;
use kq_eval_pieces::Relation;
use kq_value::{EvalFault, Memory, Value};
use std::alloc::{AllocError, Global};

/// What came of a piece: rows, or the number of the operator that overflowed, from 0.
#[derive(Drop)]
pub enum Passed<R> {
    Rows(Piece<R>),
    Failed(usize),
}

/// The operators in order over a piece of rows, with the cells of the scalar lets and the ticks of the command's moment. Of several
/// that overflow on rows of the piece, the first fails.
pub fn pass<R: Relation + Drop>(
    alloc: Global,
    operators: &[Operator],
    piece: Piece<R>,
    lets: &[Value],
    now: i64,
) -> Result<Passed<R>, Memory>
    requires { same_width (rows_in R.rows piece) }
    ensures { IfOk result (λ r. ran_in R.rows r ≡ ran (map rowwise_of operators.now) (surroundings now lets.now) (rows_in R.rows piece)) }
{
    let mut so_far = piece;
    for i in 0..operators.len() {
        match apply(alloc, &operators[i], so_far, lets, now) {
            Ok(next) => so_far = next,
            Err(EvalFault::Overflow) => return Ok(Passed::Failed(i)),
            Err(EvalFault::Memory) => return Err(AllocError),
        }
    }
    Ok(Passed::Rows(so_far))
}
