// The steps of the lock, each by one call of the table.
ghost use Rattle.std.specs.Prelude.{◌≡◌, ◌<◌, ◌≤◌, ◌∷◌, [], true, false, length, Some, None, MatchBool, All, List};
ghost use mathlib.Core.List.{IsPrefix};
ghost use Rattle.kq_lock.specs.Steps.{HasNothing, HasValue, Takes};
ghost use Rattle.kq_lock.specs.Views.{counted_view, given_view, left_view, right_view, joined_view};

use crate::grows::Grows;
use crate::plays::{LoadCount, Seats, StoreCount, StoreTurn, TakeTurn};
use crate::turn::Turn;
use crate::view::View;
use atomic_table::Seat;
use std::sync::Wait;

// The words of the table.
const TURN: usize = 0;

const COUNT: usize = 1;

// The slot of the table.
const VALUE: usize = 0;

// What stands in the word `TURN`.
const FREE: u64 = 0;

const HELD: u64 = 1;

impl<S: Grows> Turn<S> {
    // Sleeps while some pass holds the value, until a `wake`. It may also return for no reason.
    pub(crate) fn rest<R: Wait>(&self, rt: &R) {
        self.table.shared.park(rt, TURN, HELD as u32);
    }

    // Wakes one thread that rests.
    pub(crate) fn wake(&self) {
        self.table.shared.wake_one(TURN);
    }

    // `won take` or `lost take`, and says which: the turn goes from `FREE` to `HELD`, or some other
    // pass holds the value.
    pub(crate) fn try_take(&self, seat: &mut Seat<Option<S>, View<S::Entry>>) -> bool
        requires of { seat.old.table_id ≡ self.now.table }
        requires live { 0 < seat.old.me.0.worth }
        requires idle { HasNothing seat.old.me }
        ensures of { seat.new.table_id ≡ seat.old.table_id }
        ensures cases { MatchBool result (Takes S.history S.fixed seat.old.me seat.new.me)
            (seat.new.me ≡ seat.old.me) }
    {
        let found = self
            .table
            .shared
            .compare_exchange::<TakeTurn<S>>(seat, TURN, FREE, HELD);
        found == FREE
    }

    // `value out`: the value in the seat's slot leaves it.
    pub(crate) fn value_out(&self, seat: &mut Seat<Option<S>, View<S::Entry>>) -> S
        requires of { seat.old.table_id ≡ self.now.table }
        requires full { (x : S) × HasValue seat.old.me x }
        ensures of { seat.new.table_id ≡ seat.old.table_id }
        ensures value { HasValue seat.old.me result }
        ensures me { seat.new.me ≡ (seat.old.me.0, (0, None) ∷ []) }
    {
        let Some(value) = self.table.shared.exchange(seat, VALUE, None) else {
            unreachable!()
        };
        value
    }

    // `value in`: a value goes into the seat's slot.
    pub(crate) fn value_in(&self, seat: &mut Seat<Option<S>, View<S::Entry>>, value: S)
        requires of { seat.old.table_id ≡ self.now.table }
        requires empty { seat.old.me.1 ≡ (0, None) ∷ [] }
        ensures of { seat.new.table_id ≡ seat.old.table_id }
        ensures me { seat.new.me ≡ (seat.old.me.0, (0, Some value) ∷ []) }
    {
        let nothing = self.table.shared.exchange(seat, VALUE, Some(value));
        let None = nothing else { unreachable!() };
    }

    // `count store`: the count becomes the length of the history of the value in the seat's slot.
    pub(crate) fn store_count(&self, seat: &mut Seat<Option<S>, View<S::Entry>>, count: u64)
        requires of { seat.old.table_id ≡ self.now.table }
        requires live { 0 < seat.old.me.0.worth }
        requires holds { seat.old.me.0.holds ≡ true }
        requires value { (x : S) × HasValue seat.old.me x
            × IsPrefix seat.old.me.0.base (S.history x) × (count ≡ length (S.history x)) }
        ensures of { seat.new.table_id ≡ seat.old.table_id }
        ensures me { (x : S) → HasValue seat.old.me x
            → seat.new.me ≡ (counted_view seat.old.me.0 (S.history x), seat.old.me.1) }
    {
        self.table.shared.store::<StoreCount<S>>(seat, COUNT, count);
    }

    // `turn store`: the slot comes home, and the turn is `FREE` again.
    pub(crate) fn store_turn(&self, seat: &mut Seat<Option<S>, View<S::Entry>>)
        requires of { seat.old.table_id ≡ self.now.table }
        requires live { 0 < seat.old.me.0.worth }
        requires holds { seat.old.me.0.holds ≡ true }
        requires value { (x : S) × HasValue seat.old.me x
            × (seat.old.me.0.base ≡ S.history x) × (S.fixed x ≡ seat.old.me.0.fixed) }
        ensures of { seat.new.table_id ≡ seat.old.table_id }
        ensures me { seat.new.me ≡ (given_view seat.old.me.0, []) }
    {
        self.table.shared.store::<StoreTurn<S>>(seat, TURN, FREE);
    }

    // `seat split`: a new seat, with one of the seat's worth.
    pub(crate) fn split_seat(
        &self,
        seat: &mut Seat<Option<S>, View<S::Entry>>,
    ) -> Seat<Option<S>, View<S::Entry>>
        requires of { seat.old.table_id ≡ self.now.table }
        requires idle { HasNothing seat.old.me }
        requires worth { 2 ≤ seat.old.me.0.worth }
        ensures of { (seat.new.table_id ≡ seat.old.table_id) × (result.table_id ≡ seat.old.table_id) }
        ensures left { seat.new.me ≡ (left_view seat.old.me.0, []) }
        ensures right { result.me ≡ (right_view seat.old.me.0, []) }
    {
        self.table.shared.split_seat::<Seats>(seat)
    }

    // `seat join`: the seat takes in the other, which is spent.
    pub(crate) fn join_seat(
        &self,
        seat: &mut Seat<Option<S>, View<S::Entry>>,
        other: Seat<Option<S>, View<S::Entry>>,
    )
        requires of { (seat.old.table_id ≡ self.now.table) × (other.table_id ≡ self.now.table) }
        requires live { (0 < seat.old.me.0.worth) × (0 < other.me.0.worth) }
        requires idle { HasNothing seat.old.me }
        requires other_idle { HasNothing other.me }
        ensures of { seat.new.table_id ≡ seat.old.table_id }
        ensures me { seat.new.me ≡ (joined_view seat.old.me.0 other.me.0, []) }
    {
        self.table.shared.join_seat::<Seats>(seat, other);
    }

    // `count load`: all that the view has seen, and its `olds`, are found to begin one history.
    pub(crate) fn load_count(&self, seat: &mut Seat<Option<S>, View<S::Entry>>)
        requires of { seat.old.table_id ≡ self.now.table }
        requires live { 0 < seat.old.me.0.worth }
        ensures of { seat.new.table_id ≡ seat.old.table_id }
        ensures me { seat.new.me ≡ seat.old.me }
        ensures one { (h : List S.Entry) × IsPrefix seat.old.me.0.seen h
            × All (λ old. IsPrefix old h) seat.old.me.0.olds }
    {
        self.table.shared.load::<LoadCount<S>>(seat, COUNT);
    }
}
