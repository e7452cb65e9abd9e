// What each step tells the one who makes it.
use crate::grows::Grows;
use crate::view::View;
use atomic_table::{Join, Play, Split};
use std::marker::PhantomData;

/// The compare-exchange of the turn: `won take` or `lost take`.
pub struct TakeTurn<S>(PhantomData<S>);

impl<S: Grows> Play<Option<S>, View<S::Entry>> for TakeTurn<S> {
    ghost use Rattle.kq_lock.specs.Steps.{TakesOrNot};

    ghost then = { TakesOrNot S.history S.fixed };
}

/// `count store`.
pub struct StoreCount<S>(PhantomData<S>);

impl<S: Grows> Play<Option<S>, View<S::Entry>> for StoreCount<S> {
    ghost use Rattle.kq_lock.specs.Steps.{Counts};

    ghost then = { Counts S.history };
}

/// `turn store`.
pub struct StoreTurn<S>(PhantomData<S>);

impl<S: Grows> Play<Option<S>, View<S::Entry>> for StoreTurn<S> {
    ghost use Rattle.kq_lock.specs.Steps.{GivesBack};

    ghost then = { GivesBack };
}

/// `count load`.
pub struct LoadCount<S>(PhantomData<S>);

impl<S: Grows> Play<Option<S>, View<S::Entry>> for LoadCount<S> {
    ghost use Rattle.kq_lock.specs.Steps.{Learns};

    ghost then = { Learns };
}

/// `seat split` and `seat join`.
pub struct Seats;

impl<E> Split<View<E>> for Seats {
    ghost use Rattle.kq_lock.specs.Views.{left_view, right_view};

    ghost left = { left_view };

    ghost right = { right_view };
}

impl<E> Join<View<E>> for Seats {
    ghost use Rattle.kq_lock.specs.Views.{joined_view, spent_view};

    ghost both = { joined_view };

    ghost spent = { spent_view };
}
