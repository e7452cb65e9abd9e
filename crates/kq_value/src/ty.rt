// The types of values.
ghost use Rattle.std.specs.Prelude.{◌≡◌, ◌↔◌, IsTrue};

/// A type of values. A datetime is `Moment` and a timespan is `Span`, both in ticks of 100 ns.
#[derive(Clone, Copy)]
pub enum Ty {
    Long,
    Int,
    Text,
    Bool,
    Moment,
    Span,
    Dynamic,
}

impl Ty {
    ghost use Rattle.kq_value.specs.Ty.{rank_of, same_ty};

    /// The place in the order of types, from 0.
    pub fn rank(self) -> u8
        ensures { result ≡ rank_of self }
    {
        self as u8
    }

    pub fn same(self, other: Ty) -> bool
        ensures same { IsTrue result ↔ (self ≡ other) }
        ensures test { result ≡ same_ty self other }
    {
        self.rank() == other.rank()
    }
}
