// Searching a text for the places at which another stands.
ghost use Rattle.std.specs.Prelude.{◌≡◌, ◌+◌, ◌-◌, ◌≤◌, ◌<◌, length};
ghost use Rattle.memchr.specs.Find.{IsFirst};
ghost use Rattle.kq_value_strings.specs.Case.{in_case, HasByte};
ghost use Rattle.kq_value_strings.specs.Found.{counts as counted, is_found as found, NoneBelow};

use crate::case::{Case, find_byte, seen_at};
use crate::compare::first_difference;
use crate::cut::Cut;
use crate::terms::is_term;
use memchr::arch::all::packedpair::{DefaultFrequencyRank, HeuristicFrequencyRank};

// Which occurrences count.
#[derive(Clone, Copy)]
pub(crate) enum Occurrence {
    Any,
    Term,
}

// Whether an occurrence of `part` at `at` counts.
fn counts(occurrence: Occurrence, text: &[u8], part: &[u8], at: usize) -> bool
    requires fits { at + length part.now ≤ length text.now }
    requires some { 0 < length part.now }
    ensures { result ≡ counted occurrence text.now part.now at }
{
    match occurrence {
        Occurrence::Any => true,
        Occurrence::Term => is_term(text, part, at),
    }
}

// The place of the byte of `part` that is rarest in most texts.
fn rarest_offset(by: Case, part: &[u8]) -> usize
    requires { 0 < length part.now }
    ensures { result < length part.now }
{
    let (mut rarest, mut least) = (0, u8::MAX);
    for place in 0..part.len() {
        let rank = DefaultFrequencyRank.rank(seen_at(by, part, place));
        if rank < least {
            (rarest, least) = (place, rank);
        }
    }
    rarest
}

// The first of the places from `at` on at which `part` fits and its byte at `offset` stands.
fn next_candidate(by: Case, text: &[u8], part: &[u8], at: usize, offset: usize) -> Option<usize>
    requires fits { at + length part.now ≤ length text.now }
    requires inside { offset < length part.now }
    ensures { IsFirst (HasByte by text.now part.now offset) at (length text.now - length part.now + 1) result }
{
    let end = text.len() - part.len() + 1;
    let distance = find_byte(by, part[offset], &text[at + offset..end + offset])?;
    Some(at + distance)
}

// Whether an occurrence of `part` that counts stands in `text`. Takes no memory, and time in the sum of the lengths,
// whatever they hold: places at which a rare byte stands are tried until as many bytes are compared as the text has.
pub(crate) fn is_found(occurrence: Occurrence, by: Case, text: &[u8], part: &[u8]) -> bool
    requires { 0 < length part.now }
    ensures { result ≡ found occurrence (in_case by text.now) (in_case by part.now) }
{
    let offset = rarest_offset(by, part);
    let (mut at, mut budget) = (0, text.len());
    while at + part.len() <= text.len() {
        let Some(place) = next_candidate(by, text, part, at, offset) else {
            return false;
        };
        let end = first_difference(by, text, part, place, 0, part.len());
        if end == part.len() && counts(occurrence, text, part, place) {
            return true;
        }
        at = place + 1;
        if budget <= end {
            return is_found_from(occurrence, by, text, part, at);
        }
        budget -= end + 1;
    }
    false
}

// The same where none below `start` counts, by the method of Crochemore and Perrin, which compares each byte of the text a
// few times at most. Occurrences may overlap, so what is known of the next one is kept.
fn is_found_from(occurrence: Occurrence, by: Case, text: &[u8], part: &[u8], start: usize) -> bool
    requires some { 0 < length part.now }
    requires within { start ≤ length text.now }
    requires passed { NoneBelow occurrence (in_case by text.now) (in_case by part.now) start }
    ensures { result ≡ found occurrence (in_case by text.now) (in_case by part.now) }
{
    let Cut {
        critical,
        shift,
        known: kept,
    } = Cut::of(by, part);
    // how many bytes of the part are known to stand at `at`
    let (mut at, mut known) = (start, 0);
    while at + part.len() <= text.len() {
        let end = first_difference(by, text, part, at, critical.max(known), part.len());
        if end < part.len() {
            at += end - critical + 1;
            known = 0;
            continue;
        }
        let stands = first_difference(by, text, part, at, critical.min(known), critical)
            == critical;
        if stands && counts(occurrence, text, part, at) {
            return true;
        }
        at += shift;
        known = kept;
    }
    false
}
