// The lock.
ghost use Rattle.std.specs.Prelude.{◌≡◌, ◌≤◌, ◌<◌, ◌+◌, ◌-◌, ◌++◌, ◌∷◌, [], Bool, true, false, length, count_by, IfOk};
ghost use mathlib.Core.List.{IsPrefix};
ghost use Rattle.kq_lock.specs.Histories.{gained, IsLongerOf};
ghost use Rattle.kq_lock.specs.Passes.{IsIdle};
ghost use Rattle.kq_lock.specs.Steps.{HasNothing, Takes};

use crate::grows::Grows;
use crate::pass::Pass;
use crate::rule::{About, OneHistory};
use crate::view::View;
use atomic_table::{Seat, Table};
use std::alloc::{AllocError, Global};
use std::marker::Model;
use std::snapshot::Snapshot;
use std::sync::Wait;

/// Want of memory.
pub type Memory = AllocError;

/// A value that threads take in turn, each with a `Pass`.
///
/// Contracts see which turn it is, the number of `passes` that it began with, and the `fixed` part of
/// the value that it began with. A pass is of this turn where its `of` is the same.
#[derive(Drop)]
pub struct Turn<S: Grows> {
    pub(crate) table: Table<Option<S>, View<S::Entry>, About<S>, OneHistory<S>, Global>,
}

impl<S: Grows> Model for Turn<S> {
    ghost use Rattle.std.specs.Prelude.{◌≡◌};
    ghost use Rattle.kq_lock.specs.Passes.{TurnId};

    ghost Value = { TurnId };

    ghost view = { λ t. record {
      table = t.table.shared.table_id;
      passes = t.table.shared.key.passes;
      fixed = S.fixed t.table.shared.key.first.value;
    } };

    ghost invariant = { λ t. (t.table.shared.table_id.words ≡ 2) × (t.table.shared.table_id.slots ≡ 1) };
}

impl<S: Grows + Drop> Turn<S> {
    /// Puts a value behind a lock, and gives the first pass. There can be as many passes at once as
    /// `passes` says.
    pub fn start(alloc: Global, value: S, passes: u32) -> Result<(Turn<S>, Pass<S>), Memory>
        requires { 1 ≤ passes }
        ensures of { IfOk result (λ r. r.1.of ≡ r.0) }
        ensures passes { IfOk result (λ r. r.0.passes ≡ passes) }
        ensures fixed { IfOk result (λ r. r.0.fixed ≡ S.fixed value) }

        ensures seen { IfOk result (λ r. r.1.seen ≡ S.history value) }
        ensures worth { IfOk result (λ r. r.1.worth ≡ passes) }
        ensures added { IfOk result (λ r. r.1.added ≡ S.history value) }
        ensures taken { IfOk result (λ r. r.1.taken ≡ []) }
        ensures idle { IfOk result (λ r. IsIdle r.1) }
    {
        let about = About {
            first: Snapshot::of(&value),
            passes: u64::from(passes),
        };
        let count = value.count();
        let mut slots = Vec::new(alloc);
        slots.push(Some(value))?;
        match Table::new(alloc, &[0, count], slots, &about) {
            Ok((table, seat)) => Ok((Turn { table }, Pass { seat })),
            Err(_) => Err(AllocError),
        }
    }
}

impl<S: Grows> Turn<S> {
    /// A second pass, for another thread to use at the same time.
    pub fn split(&self, pass: Pass<S>) -> (Pass<S>, Pass<S>)
        requires of { pass.of ≡ self.now }
        requires idle { IsIdle pass }
        requires worth { 2 ≤ pass.worth }
        ensures first { result.0 ≡ record pass { worth = pass.worth - 1 } }

        ensures second_of { result.1.of ≡ pass.of }
        ensures second_seen { result.1.seen ≡ pass.seen }
        ensures second_worth { result.1.worth ≡ 1 }
        ensures second_added { result.1.added ≡ [] }
        ensures second_taken { result.1.taken ≡ [] }
        ensures second_idle { IsIdle result.1 }
    {
        let mut first = pass;
        let second = self.split_seat(&mut first.seat);
        (first, Pass { seat: second })
    }

    /// One pass for two.
    pub fn join(&self, first: Pass<S>, second: Pass<S>) -> Pass<S>
        requires first_of { first.of ≡ self.now }
        requires first_idle { IsIdle first }
        requires second_of { second.of ≡ self.now }
        requires second_idle { IsIdle second }

        ensures of { result.of ≡ self.now }
        ensures idle { IsIdle result }
        ensures seen { IsLongerOf first.seen second.seen result.seen }
        ensures first_seen { IsPrefix first.seen result.seen }
        ensures second_seen { IsPrefix second.seen result.seen }
        ensures worth { result.worth ≡ first.worth + second.worth }
        ensures added { result.added ≡ first.added ++ second.added }
        ensures taken { result.taken ≡ first.taken ++ second.taken }
    {
        let mut both = first;
        let Pass { seat } = second;
        self.join_seat(&mut both.seat, seat);
        self.load_count(&mut both.seat);
        both
    }

    /// Waits until no pass holds the value, and hands it out. A thread that waits sleeps, and each
    /// `give` wakes one that does.
    ///
    /// Nothing is promised of which of the threads that wait comes next, nor that one of them ever
    /// does: a value that was taken and isn't given back keeps all others waiting.
    pub fn take<R: Wait>(&self, rt: &R, pass: &mut Pass<S>) -> S
        requires of { pass.old.of ≡ self.now }
        requires idle { IsIdle pass.old }
        ensures seen { IsPrefix pass.old.seen (S.history result) }
        ensures fixed { S.fixed result ≡ pass.old.of.fixed }

        // All else stays.
        ensures pass { pass.new ≡ record pass.old {
          holds = true;
          base = S.history result;
          taken = pass.old.taken ++ length (S.history result) ∷ [];
        } }
    {
        self.wait_take(rt, &mut pass.seat);
        self.value_out(&mut pass.seat)
    }

    // Tries until the turn is won.
    fn wait_take<R: Wait>(&self, rt: &R, seat: &mut Seat<Option<S>, View<S::Entry>>)
        requires of { seat.old.table_id ≡ self.now.table }
        requires live { 0 < seat.old.me.0.worth }
        requires idle { HasNothing seat.old.me }
        ensures of { seat.new.table_id ≡ seat.old.table_id }
        ensures takes { Takes S.history S.fixed seat.old.me seat.new.me }
    {
        for _ in rt.forever() {
            if self.try_take(seat) {
                return;
            }
            self.rest(rt);
        }
        unreachable!()
    }

    /// Gives the value back, for others to take.
    pub fn give(&self, pass: &mut Pass<S>, value: S)
        requires of { pass.old.of ≡ self.now }
        requires holds { pass.old.holds ≡ true }
        requires begins { IsPrefix pass.old.base (S.history value) }
        requires fixed { S.fixed value ≡ pass.old.of.fixed }

        // All else stays.
        ensures pass { pass.new ≡ record pass.old {
          holds = false;
          base = S.history value;
          seen = S.history value;
          added = pass.old.added ++ gained pass.old.base (S.history value);
        } }
    {
        let count = value.count();
        self.value_in(&mut pass.seat, value);
        self.store_count(&mut pass.seat, count);
        self.store_turn(&mut pass.seat);
        self.wake();
    }

    /// Takes the lock away again, once every other pass was joined into this one. It doesn't wait.
    pub fn close(self, pass: Pass<S>) -> S
        requires of { pass.of ≡ self }
        requires idle { IsIdle pass }
        requires whole { pass.worth ≡ pass.of.passes }
        ensures seen { IsPrefix pass.seen (S.history result) }
        // Each entry was added through some pass, once: however they are told apart, there are as many.
        ensures added { (test : S.Entry → Bool) → count_by test (S.history result) ≡ count_by test pass.added }
        ensures fixed { S.fixed result ≡ pass.of.fixed }
    {
        let Turn { table } = self;
        let Pass { seat } = pass;
        let mut closed = table.close_with(seat);
        let value = closed.take(0);
        closed.free();
        let Some(value) = value else { unreachable!() };
        value
    }
}
