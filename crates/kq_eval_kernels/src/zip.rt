// Operators over two columns.
ghost use Rattle.std.specs.Prelude.{◌≡◌, ◌≢◌, ℤ, List, map, IfOk, IfSome, IfNone};
ghost use Rattle.kq_value.specs.Computed.{Is};
ghost use Rattle.kq_value.specs.declared.value.Value.TheVariants.{Long, Bool as Truth};
ghost use Rattle.kq_eval_kernels.specs.Pairs.{each_two, without_overflow};

use crate::operators::{LongOperator, LongTest};
use kq_value::Memory;
use std::alloc::Global;

/// The longs that the operator gives of the pairs, as far as both columns go; `None` where one gives no long.
pub fn zip_longs<O: LongOperator>(
    alloc: Global,
    a: &[i64],
    b: &[i64],
) -> Result<Option<Vec<i64>>, Memory>
    ensures longs { IfOk result (λ o. IfSome o (λ zs. each_two O.operator (map Long a.now) (map Long b.now) ≡ Is (map Long zs.items))) }
    ensures none { IfOk result (λ o. IfNone o ((zs : List ℤ) → each_two O.operator (map Long a.now) (map Long b.now) ≢ Is (map Long zs))) }
{
    let n = a.len().min(b.len());
    let mut longs = Vec::with_capacity(alloc, n)?;
    for i in 0..n {
        match O::at(a[i], b[i]) {
            Some(z) => longs.push(z)?,
            None => return Ok(None),
        }
    }
    Ok(Some(longs))
}

/// The truths that the test gives of the pairs, as far as both columns go.
pub fn zip_tests<T: LongTest>(alloc: Global, a: &[i64], b: &[i64]) -> Result<Vec<bool>, Memory>
    ensures { IfOk result (λ ts. each_two (without_overflow T.test) (map Long a.now) (map Long b.now) ≡ Is (map Truth ts.items)) }
{
    let n = a.len().min(b.len());
    let mut truths = Vec::with_capacity(alloc, n)?;
    for i in 0..n {
        truths.push(T::at(a[i], b[i]))?;
    }
    Ok(truths)
}
