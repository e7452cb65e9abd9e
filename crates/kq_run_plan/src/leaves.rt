// The world that a plan's leaves read.
ghost use Rattle.kq_run_plan.specs.Operators.{AnswersOne};
ghost use Rattle.kq_plan.specs.Fits.{FitsLeaf};

use kq_plan::LeafKind;
use kq_run_scan::Held;
use kq_value::{EvalFault, Field, Text};
use std::alloc::Global;

/// The rows that the names of a plan stand for.
pub trait Leaves {
    ghost use Rattle.std.specs.Prelude.{List, Option, ℕ};
    ghost use Rattle.kq_value.specs.declared.schema.Field.{Field as Column};
    ghost use Rattle.kq_value.specs.declared.value.Value.{Value as Cell};
    ghost use Rattle.kq_value.specs.Computed.{Computed};
    ghost use Rattle.kq_plan.specs.declared.work.LeafKind.{LeafKind as Kind};
    ghost use Rattle.kq_plan.specs.Names.{Known};

    /// What a name stands for.
    ghost known: { Self → List ℕ → Option Known };

    /// Which rows a name may give, of this kind and under these columns, and whether it may overflow.
    ghost may_give: { Self → List ℕ → Kind → List Column → Computed (List (List Cell)) → Type 0 };

    /// The rows of a name. Only a view overflows.
    fn rows(
        &self,
        alloc: Global,
        kind: LeafKind,
        name: &Text,
        columns: &[Field],
    ) -> Result<Held, EvalFault>
        requires { FitsLeaf kind (known self.now name.now) columns.now }
        ensures { AnswersOne (may_give self.now name.now kind columns.now) result };
}
