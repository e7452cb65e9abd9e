// What a session is given.
ghost use Rattle.std.specs.Prelude.{◌≡◌, ◌≢◌, ◌<◌, ◌++◌, ◌∷◌, [], true, false, Bool, ℕ, ℤ, List, IfOk, OnErr, length};
ghost use Rattle.kq_world.specs.Told.{Adds};
ghost use Rattle.kq_world.specs.Outside.{SourceView, Takes, Puts, HasCause, OpensByCause, AsksFor, Contents, contents, Put, Keeps};
ghost use Rattle.kq_value.specs.Typed.{IsMoment};

use kq_value::Memory;
use std::alloc::AllocFailed;

/// The outside failed.
#[derive(Clone, Copy, Debug, PartialEq, Eq)]
pub struct Failed;

/// Why a feed wasn't opened.
#[derive(Clone, Copy, Debug, PartialEq, Eq)]
pub enum OpenFault {
    /// The outside failed.
    Failed,
    Memory,
}

impl From<Memory> for OpenFault {
    ghost use Rattle.std.specs.Prelude.{◌≡◌};
    ghost use Rattle.kq_world.specs.declared.outside.OpenFault.TheVariants.{Memory};

    ghost from_gives = { λ _ e. e ≡ Memory };

    fn from(_: Memory) -> OpenFault {
        OpenFault::Memory
    }
}

impl<T: Drop> From<AllocFailed<T>> for OpenFault {
    ghost use Rattle.std.specs.Prelude.{◌≡◌};
    ghost use Rattle.kq_world.specs.declared.outside.OpenFault.TheVariants.{Memory};

    ghost from_gives = { λ _ e. e ≡ Memory };

    fn from(_: AllocFailed<T>) -> OpenFault {
        OpenFault::Memory
    }
}

/// Bytes that come in.
pub trait Source: Drop {
    /// All bytes that its reads have given, whether a read met the end, and the bytes left, where told.
    ghost told: { Self → SourceView };

    /// How often it has failed.
    ghost faults: { Self → ℕ };

    /// Puts the next bytes into the front of the buffer and answers their number, 0 exactly at the end.
    fn read(&mut self, buf: &mut [u8]) -> Result<usize, Failed>
        requires { 0 < length buf.old }
        ensures takes { Takes (told self.old) (told self.new) result buf.new }
        ensures cause { HasCause (faults self.old) (faults self.new) result };
}

/// Bytes that go out.
pub trait Sink: Drop {
    /// All bytes that its writes took.
    ghost accepted: { Self → List ℕ };

    /// How often it has failed.
    ghost faults: { Self → ℕ };

    /// Appends the first bytes of the piece, at least one, and answers their number. A sink that takes nothing has
    /// failed.
    fn write(&mut self, piece: &[u8]) -> Result<usize, Failed>
        requires { 0 < length piece.now }
        ensures puts { Puts (accepted self.old) (accepted self.new) result piece.now }
        ensures cause { HasCause (faults self.old) (faults self.new) result };
}

/// Moments.
pub trait Clock: Drop {
    /// All readings that it gave.
    ghost readings: { Self → List ℤ };

    /// The moment, in ticks of 100 ns from 0001-01-01, within the range of datetime.
    fn now(&mut self) -> i64
        ensures moment { IsMoment result }
        ensures reading { Adds (readings self.old) (readings self.new) (result ∷ []) };
}

/// Where artefacts go: bytes under names.
pub trait Artefacts: Drop {
    /// All that was put, in order.
    ghost kept: { Self → List Put };

    /// How often it has failed.
    ghost faults: { Self → ℕ };

    /// Puts the bytes under the name, in place of what stood there. A refusal puts nothing there, and leaves what stands
    /// under other names.
    fn put(&mut self, name: &str, bytes: &[u8]) -> Result<(), Failed>
        ensures keeps { Keeps (kept self.old) (kept self.new) result name.now bytes.now }
        ensures cause { HasCause (faults self.old) (faults self.new) result };
}

/// A point that a session or a worker comes to. Actors 0 to 7 are sessions, 8 to 15 workers; an actor's commands are
/// numbered from 1.
#[derive(Clone, Copy, PartialEq, Eq)]
pub enum Point {
    /// A command was read, and is not answered yet.
    Starting { actor: u32, number: u64 },
    /// The work is prepared on a snapshot, and is not committed yet.
    Between { actor: u32, number: u64, fold: bool },
    /// The reply was written.
    Answered { actor: u32, number: u64 },
}

/// It may hold a thread at a point. It tells nothing. One that threads share is `Sync`.
pub trait Gate {
    fn at(&self, point: Point);
}

/// One session's objects.
#[derive(Drop)]
pub struct Parts<S: Drop, K: Drop, C: Drop> {
    pub source: S,
    pub sink: K,
    pub clock: C,
}

/// It gives the sessions' objects. The sources and sinks that it gives have not failed yet.
pub trait World {
    type Source: Source + Send;

    type Sink: Sink + Send;

    type Clock: Clock + Send;

    type Artefacts: Artefacts + Send;

    /// Whether `first` was asked.
    ghost begun: { Self → Bool };

    /// Whether `artefacts` was asked.
    ghost given: { Self → Bool };

    /// The names that `open_feed` was asked for, in order.
    ghost asked: { Self → List (List ℕ) };

    /// How often it has failed.
    ghost faults: { Self → ℕ };

    /// What the objects tell that `first` will give.
    ghost first_contents: { Self → Contents };

    /// What the objects tell that `open_feed` will give for a name.
    ghost feed_contents: { Self → List ℕ → Contents };

    /// The objects of session 0.
    fn first(&mut self) -> Parts<Self::Source, Self::Sink, Self::Clock>
        requires { begun self.old ≡ false }
        ensures begun { begun self.new ≡ true }
        ensures told { contents Self.Source.told Self.Sink.accepted Self.Clock.readings result ≡ first_contents self.old }
        ensures source { Self.Source.faults result.source ≡ 0 }
        ensures sink { Self.Sink.faults result.sink ≡ 0 }
        ensures feeds { (name : List ℕ) → feed_contents self.new name ≡ feed_contents self.old name }
        ensures given { given self.new ≡ given self.old }
        ensures asked { asked self.new ≡ asked self.old }
        ensures cause { faults self.new ≡ faults self.old };

    /// The objects of a feed. A refusal leaves all feeds to be opened as before.
    fn open_feed(
        &mut self,
        name: &str,
    ) -> Result<Parts<Self::Source, Self::Sink, Self::Clock>, OpenFault>
        ensures told { IfOk result (λ p. contents Self.Source.told Self.Sink.accepted Self.Clock.readings p ≡ feed_contents self.old name.now) }
        ensures source { IfOk result (λ p. Self.Source.faults p.source ≡ 0) }
        ensures sink { IfOk result (λ p. Self.Sink.faults p.sink ≡ 0) }
        ensures others { (other : List ℕ) → other ≢ name.now → feed_contents self.new other ≡ feed_contents self.old other }
        ensures refused { OnErr result (feed_contents self.new name.now ≡ feed_contents self.old name.now) }
        ensures first { first_contents self.new ≡ first_contents self.old }
        ensures begun { begun self.new ≡ begun self.old }
        ensures given { given self.new ≡ given self.old }
        ensures asked { AsksFor (asked self.old) (asked self.new) result name.now }
        ensures cause { OpensByCause (faults self.old) (faults self.new) result };

    /// Where session 0 puts what it exports. Nothing was put there yet, and it has not failed yet.
    fn artefacts(&mut self) -> Self::Artefacts
        requires { given self.old ≡ false }
        ensures given { given self.new ≡ true }
        ensures fresh { Self.Artefacts.kept result ≡ [] }
        ensures unfailed { Self.Artefacts.faults result ≡ 0 }
        ensures first { first_contents self.new ≡ first_contents self.old }
        ensures feeds { (name : List ℕ) → feed_contents self.new name ≡ feed_contents self.old name }
        ensures begun { begun self.new ≡ begun self.old }
        ensures asked { asked self.new ≡ asked self.old }
        ensures cause { faults self.new ≡ faults self.old };
}
