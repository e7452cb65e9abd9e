// Operators over two columns of truths.
ghost use Rattle.std.specs.Prelude.{◌≡◌, map, IfOk};
ghost use Rattle.kq_value.specs.Computed.{Is};
ghost use Rattle.kq_value.specs.declared.value.Value.{Value as Seen};
ghost use Rattle.kq_value.specs.declared.value.Value.TheVariants.{Bool as Truth};
ghost use Rattle.kq_eval_kernels.specs.Pairs.{each_two, without_overflow};

use kq_value::Memory;
use std::alloc::Global;

/// An operator on two truths.
pub trait TruthOperator {
    ghost operator: { Seen → Seen → Seen };

    fn at(a: bool, b: bool) -> bool
        ensures { operator (Truth a) (Truth b) ≡ Truth result };
}

pub struct Both;

impl TruthOperator for Both {
    ghost use Rattle.kq_value_arithmetic.specs.Logic.{conjunction};

    ghost operator = { conjunction };

    fn at(a: bool, b: bool) -> bool {
        a && b
    }
}

pub struct Either;

impl TruthOperator for Either {
    ghost use Rattle.kq_value_arithmetic.specs.Logic.{disjunction};

    ghost operator = { disjunction };

    fn at(a: bool, b: bool) -> bool {
        a || b
    }
}

/// The truths that the operator gives of the pairs, as far as both columns go.
pub fn zip_truths<O: TruthOperator>(
    alloc: Global,
    a: &[bool],
    b: &[bool],
) -> Result<Vec<bool>, Memory>
    ensures { IfOk result (λ ts. each_two (without_overflow O.operator) (map Truth a.now) (map Truth b.now) ≡ Is (map Truth ts.items)) }
{
    let n = a.len().min(b.len());
    let mut truths = Vec::with_capacity(alloc, n)?;
    for i in 0..n {
        truths.push(O::at(a[i], b[i]))?;
    }
    Ok(truths)
}
