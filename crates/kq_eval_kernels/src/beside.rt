// Operators over a column beside one other number.
ghost use Rattle.std.specs.Prelude.{◌≡◌, map, IfOk, IfSome};
ghost use Rattle.kq_value.specs.Computed.{Is};
ghost use Rattle.kq_value.specs.declared.value.Value.TheVariants.{Long, Bool as Truth};
ghost use Rattle.kq_eval_kernels.specs.Numbers.{of_kind};

use crate::number::Number;
use crate::operators::{LongOperator, LongTest};
use kq_value::Memory;
use std::alloc::Global;

/// The truths that the test gives of each number and the other, as cells of one kind.
pub fn tests_beside<T: LongTest>(
    alloc: Global,
    kind: Number,
    numbers: &[i64],
    other: i64,
) -> Result<Vec<bool>, Memory>
    ensures { IfOk result (λ ts. map (λ z. T.test (of_kind kind z) (of_kind kind other)) numbers.now ≡ map Truth ts.items) }
{
    let _ = kind;
    let mut truths = vec![in alloc; false; numbers.len()]?;
    for i in 0..numbers.len() {
        truths[i] = T::at(numbers[i], other);
    }
    Ok(truths)
}

/// The longs that the operator gives of each long and the other; `None` where one gives no long.
pub fn longs_beside<O: LongOperator>(
    alloc: Global,
    longs: &[i64],
    other: i64,
) -> Result<Option<Vec<i64>>, Memory>
    ensures { IfOk result (λ o. IfSome o (λ zs. map (λ z. O.operator (Long z) (Long other)) longs.now ≡ map (λ z. Is (Long z)) zs.items)) }
{
    let mut found = Vec::with_capacity(alloc, longs.len())?;
    for i in 0..longs.len() {
        match O::at(longs[i], other) {
            Some(z) => found.push(z)?,
            None => return Ok(None),
        }
    }
    Ok(Some(found))
}
