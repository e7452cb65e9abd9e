// A law of what is kept of rows, which holds of the definition alone.
ghost use Rattle.std.specs.Prelude.{List};
ghost use Rattle.kq_value.specs.declared.value.Value.{Value};
ghost use Rattle.kq_value.specs.Same.{Same};
ghost use Rattle.kq_run_aggregates.specs.declared.kind.Kind.{Kind};
ghost use Rattle.kq_run_aggregates.specs.Holds.{Holds, Kept};

/// What an aggregate keeps of some rows, it keeps of the same rows in any other order.
pub fn order_is_free()
    ensures { (kind : Kind) (rows others : List (List Value)) (kept : Kept) → Same rows others → Holds kind rows kept → Holds kind others kept }
{}
