// Comparing a text with what stands in another.
ghost use Rattle.std.specs.Prelude.{◌≡◌, ◌≢◌, ◌+◌, ◌≤◌, ◌<◌, length};
ghost use Rattle.kq_value_formats.specs.Strings.{occurs_at};
ghost use Rattle.kq_value_strings.specs.Case.{in_case, seen, StandsBetween};

use crate::case::{Case, seen_at};

// Whether `part` stands in `text` from the place `at` on.
pub(crate) fn stands_at(by: Case, text: &[u8], part: &[u8], at: usize) -> bool
    requires { at ≤ length text.now }
    ensures { result ≡ occurs_at (in_case by text.now) (in_case by part.now) at }
{
    let rest = &text[at..];
    match by {
        Case::Exact => rest.starts_with(part),
        Case::Ignored => part.len() <= rest.len() && rest[..part.len()].eq_ignore_ascii_case(part),
    }
}

// The first of the places of `part` from `start` up to `end` at which it differs from what stands in `text` from the
// place `at` on; `end` where there is none.
#[inline]
pub(crate) fn first_difference(
    by: Case,
    text: &[u8],
    part: &[u8],
    at: usize,
    start: usize,
    end: usize,
) -> usize
    requires ordered { start ≤ end }
    requires inside { end ≤ length part.now }
    requires fits { at + end ≤ length text.now }
    ensures low { start ≤ result }
    ensures high { result ≤ end }
    ensures same { StandsBetween by text.now part.now at start result }
    ensures differs { result < end → seen by part.now result ≢ seen by text.now (at + result) }
{
    for place in start..end {
        if seen_at(by, part, place) != seen_at(by, text, at + place) {
            return place;
        }
    }
    end
}
