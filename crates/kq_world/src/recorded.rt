// A list that contracts alone see, and that takes no memory: what a call did is recorded for proofs, and not for the
// program.
ghost use Rattle.std.specs.Prelude.{◌≡◌, [], ◌∷◌, ◌++◌};

use std::marker::Model;
use std::snapshot::Snapshot;

/// A list of any length, of which the program keeps nothing.
#[cycle(recorded)]
#[derive(Drop)]
pub struct Recorded<T> {
    link: Link<T>,
}

// The last item, and the list before it, as contracts see them.
#[cycle(recorded)]
#[derive(Drop)]
enum Link<T> {
    Start,
    More(Snapshot<Recorded<T>>, Snapshot<T>),
}

impl<T> Model for Recorded<T> {
    ghost use Rattle.std.specs.Prelude.{List, length};

    ghost Value = { List T };

    ghost use Rattle.kq_world.specs.Recorded.{items};

    ghost view = { λ r. items r.link };

    ghost size = { length };

    ghost use Rattle.std.proofs.Common.{arith, length-append};

    ghost size_decreases = { λ a h. Prim.grind (arith, length-append) };
}

impl<T> Recorded<T> {
    pub fn new() -> Recorded<T>
        ensures { result ≡ [] }
    {
        Recorded { link: Link::Start }
    }

    /// Adds one item at the end.
    pub fn push(&mut self, item: &T)
        ensures { self.new ≡ self.old ++ item.now ∷ [] }
    {
        let before = Snapshot::of(self);
        self.link = Link::More(before, Snapshot::of(item));
    }

    /// Adds these items at the end.
    pub fn extend(&mut self, items: &[T])
        ensures { self.new ≡ self.old ++ items.now }
    {
        for item in items {
            self.push(item);
        }
    }
}
