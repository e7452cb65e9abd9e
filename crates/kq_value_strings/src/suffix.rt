// The greatest suffix of a text by an order of bytes.
ghost use Rattle.std.specs.Prelude.{◌≡◌, ◌<◌, length};
ghost use Rattle.std.specs.Ordering.{MatchOrdering};
ghost use Rattle.memchr.specs.Critical.{IsSuffixAt};
ghost use Rattle.kq_value_strings.specs.Case.{seen};
ghost use Rattle.kq_value_strings.specs.Suffixes.{Precedes};

use crate::case::{Case, seen_at};
use std::cmp::Ordering;

// An order of bytes.
#[derive(Clone, Copy)]
pub(crate) enum Order {
    Rising,
    Falling,
}

impl Order {
    fn compare(self, a: u8, b: u8) -> Ordering
        ensures { MatchOrdering result (Precedes self a b) (a ≡ b) (Precedes self b a) }
    {
        match self {
            Order::Rising => a.cmp(&b),
            Order::Falling => b.cmp(&a),
        }
    }
}

// Where a suffix begins, and its least period.
#[derive(Clone, Copy)]
pub(crate) struct Suffix {
    pub(crate) start: usize,
    pub(crate) period: usize,
}

// The greatest suffix of `text`. Takes time in its length: a candidate is dropped with all that it repeated.
pub(crate) fn greatest_suffix(order: Order, by: Case, text: &[u8]) -> Suffix
    requires { 0 < length text.now }
    ensures { IsSuffixAt (Precedes order) (seen by text.now) (length text.now) result.start result.period }
{
    let (mut start, mut period) = (0, 1);
    let (mut candidate, mut offset) = (1, 0);
    while candidate + offset < text.len() {
        let greatest = seen_at(by, text, start + offset);
        let other = seen_at(by, text, candidate + offset);
        match order.compare(greatest, other) {
            Ordering::Less => {
                start = candidate;
                period = 1;
                candidate += 1;
                offset = 0;
            }
            Ordering::Greater => {
                candidate += offset + 1;
                offset = 0;
                period = candidate - start;
            }
            Ordering::Equal if offset + 1 == period => {
                candidate += period;
                offset = 0;
            }
            Ordering::Equal => offset += 1,
        }
    }
    Suffix { start, period }
}
