// Functions of a column and one value.
ghost use Rattle.std.specs.Prelude.{◌≡◌, map, IfOk, IfSome};
ghost use Rattle.kq_value.specs.Computed.{Is};
ghost use Rattle.kq_store_column_view.specs.Vectors.{cells_of};
ghost use Rattle.kq_eval_columns.specs.Seen.{beside_one};

use crate::arithmetic::operated_beside;
use crate::comparisons::tests_beside;
use crate::members::members_of;
use kq_plan_functions::Function;
use kq_store_column_view::Vector;
use kq_value::{Memory, Value};
use std::alloc::Global;

/// The values of a function at each cell and one value, where a kernel decides them all.
pub fn of_one<'a>(
    alloc: Global,
    function: Function,
    column: &Vector<'a>,
    value: &Value,
) -> Result<Option<Vector<'a>>, Memory>
    ensures { IfOk result (λ o. IfSome o (λ c. beside_one function value.now (cells_of column.now) ≡ map Is (cells_of c))) }
{
    match function {
        Function::Member => members_of(alloc, column, value),
        Function::Add
        | Function::Subtract
        | Function::Multiply
        | Function::Divide
        | Function::Remainder
        | Function::Bin => operated_beside(alloc, function, column, value),
        _ => match tests_beside(alloc, function, column, value)? {
            Some(truths) => Ok(Some(Vector::Truths(truths))),
            None => Ok(None),
        },
    }
}
