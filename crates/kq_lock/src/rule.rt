// The rule of the table behind a `Turn`.
use crate::grows::Grows;
use crate::view::View;
use atomic_table::TableRule;
use std::marker::PhantomData;
use std::snapshot::Snapshot;

/// What the table is told once: the value that it begins with, and how many passes there are.
#[derive(Drop)]
pub struct About<S> {
    pub first: Snapshot<S>,
    pub passes: u64,
}

/// There is one history, of which each pass has seen a beginning.
pub struct OneHistory<S>(PhantomData<S>);

impl<S: Grows> TableRule<Option<S>, View<S::Entry>, About<S>> for OneHistory<S> {
    ghost use Rattle.kq_lock.specs.Rule.{Kept};
    ghost use Rattle.kq_lock.specs.Views.{first_view};

    ghost holds = { λ about. Kept S.history S.fixed about.passes (S.fixed about.first.value) };

    ghost first = { λ about. first_view S.history S.fixed about.passes about.first.value };
}
