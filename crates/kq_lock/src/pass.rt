// The passes of a `Turn`.
use crate::grows::Grows;
use crate::view::View;
use atomic_table::Seat;
use std::marker::Model;

/// A pass of a `Turn`, with which one thread at a time takes the value. It has no bytes.
///
/// Contracts see in it the turn that it is `of`, with the turn's `passes` and `fixed`; the history
/// that it has `seen`; its `worth`, which the passes of a turn share out among them; the entries that
/// were `added` to the history through it; and in `taken` the length of each history that it took.
/// While it `holds` the value, `base` is the history that it took, and afterwards the one that it gave.
///
/// A pass that is dropped takes its worth with it, so that its turn is never closed; one that is
/// dropped while it holds the value keeps all others waiting.
#[derive(Drop)]
pub struct Pass<S: Grows> {
    pub(crate) seat: Seat<Option<S>, View<S::Entry>>,
}

impl<S: Grows> Model for Pass<S> {
    ghost use Rattle.std.specs.Prelude.{◌≡◌, ◌<◌};
    ghost use Rattle.kq_lock.specs.Passes.{Known, known, carried};

    ghost Value = { Known S.Entry };

    ghost view = { λ p. known p.seat.table_id p.seat.me.0 };

    ghost invariant = { λ p. (0 < p.seat.me.0.worth) × (p.seat.me.1 ≡ carried p.seat.me.0.holds) };
}
