// Where a search cuts what it looks for, by the method of Crochemore and Perrin.
ghost use Rattle.std.specs.Prelude.{◌<◌, length};
ghost use Rattle.memchr.specs.Critical.{IsCutPlace};
ghost use Rattle.kq_value_strings.specs.Case.{seen};
ghost use Rattle.kq_value_strings.specs.Cut.{IsCutOf};

use crate::case::Case;
use crate::compare::first_difference;
use crate::suffix::{Order, Suffix, greatest_suffix};

// A part in two. What is after the cut is compared first: where it differs, the search goes on behind the difference, and
// where it doesn't, by `shift` places, at which the first `known` bytes of the part are known to stand.
#[derive(Clone, Copy)]
pub(crate) struct Cut {
    pub(crate) critical: usize,
    pub(crate) shift: usize,
    pub(crate) known: usize,
}

impl Cut {
    // The cut before the later of the greatest suffixes by the two orders.
    pub(crate) fn of(by: Case, part: &[u8]) -> Cut
        requires { 0 < length part.now }
        ensures { IsCutOf (seen by part.now) (length part.now) result }
    {
        let rising = greatest_suffix(Order::Rising, by, part);
        let falling = greatest_suffix(Order::Falling, by, part);
        if rising.start < falling.start {
            Cut::before(by, part, falling)
        } else {
            Cut::before(by, part, rising)
        }
    }

    fn before(by: Case, part: &[u8], suffix: Suffix) -> Cut
        requires { IsCutPlace (seen by part.now) (length part.now) suffix.start suffix.period }
        ensures { IsCutOf (seen by part.now) (length part.now) result }
    {
        let (critical, period) = (suffix.start, suffix.period);
        let rest = part.len() - critical;
        if critical < rest && first_difference(by, part, part, period, 0, critical) == critical {
            // the period is one of the whole part
            let known = part.len() - period;
            return Cut {
                critical,
                shift: period,
                known,
            };
        }
        Cut {
            critical,
            shift: critical.max(rest),
            known: 0,
        }
    }
}
