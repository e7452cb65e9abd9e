// Whether a text is found in another.
ghost use Rattle.std.specs.Prelude.{◌≡◌};
ghost use Rattle.kq_value_formats.specs.Strings.{has_cs, contains_cs, endswith_cs};
ghost use Rattle.kq_value_strings.specs.Find.{finds};
ghost use Rattle.kq_value_strings.specs.Case.{in_case};

use crate::case::Case;
use crate::compare::stands_at;
use crate::search::{Occurrence, is_found};
use memchr::memmem;

/// A string operator. Those without `Cs` don't tell upper from lower case, of ASCII letters alone.
#[derive(Clone, Copy, Debug)]
pub enum FindKind {
    Has,
    HasCs,
    Contains,
    ContainsCs,
    StartsWith,
    StartsWithCs,
    EndsWith,
    EndsWithCs,
}

/// Whether `part` is found in `text`. Takes no memory, and time in the sum of their lengths, whatever they hold.
pub fn find_text(kind: FindKind, text: &str, part: &str) -> bool
    ensures { result ≡ finds kind text.now part.now }
{
    let (text, part) = (text.as_bytes(), part.as_bytes());
    match kind {
        FindKind::Has => has(Case::Ignored, text, part),
        FindKind::HasCs => has(Case::Exact, text, part),
        FindKind::Contains => contains(Case::Ignored, text, part),
        FindKind::ContainsCs => contains(Case::Exact, text, part),
        FindKind::StartsWith => stands_at(Case::Ignored, text, part, 0),
        FindKind::StartsWithCs => stands_at(Case::Exact, text, part, 0),
        FindKind::EndsWith => ends_with(Case::Ignored, text, part),
        FindKind::EndsWithCs => ends_with(Case::Exact, text, part),
    }
}

fn has(by: Case, text: &[u8], part: &[u8]) -> bool
    ensures { result ≡ has_cs (in_case by text.now) (in_case by part.now) }
{
    part.is_empty() || is_found(Occurrence::Term, by, text, part)
}

fn contains(by: Case, text: &[u8], part: &[u8]) -> bool
    ensures { result ≡ contains_cs (in_case by text.now) (in_case by part.now) }
{
    match by {
        Case::Exact => memmem::find(text, part).is_some(),
        Case::Ignored => part.is_empty() || is_found(Occurrence::Any, by, text, part),
    }
}

fn ends_with(by: Case, text: &[u8], part: &[u8]) -> bool
    ensures { result ≡ endswith_cs (in_case by text.now) (in_case by part.now) }
{
    part.len() <= text.len() && stands_at(by, text, part, text.len() - part.len())
}
