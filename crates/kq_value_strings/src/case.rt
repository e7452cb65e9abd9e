// Upper and lower case.
ghost use Rattle.std.specs.Prelude.{◌≡◌, ◌<◌, length};
ghost use Rattle.memchr.specs.Find.{IsFirst};
ghost use Rattle.kq_value_strings.specs.Case.{seen, folded};

use memchr::{memchr, memchr2};

// Whether upper and lower case of ASCII letters are told apart.
#[derive(Clone, Copy)]
pub(crate) enum Case {
    Exact,
    Ignored,
}

// The byte at a place of `text`, and for all that are taken for the same one of them.
#[inline]
pub(crate) fn seen_at(by: Case, text: &[u8], place: usize) -> u8
    requires { place < length text.now }
    ensures { result ≡ seen by text.now place }
{
    match by {
        Case::Exact => text[place],
        Case::Ignored => text[place].to_ascii_lowercase(),
    }
}

// The first place of `text` whose byte is taken for the same as `byte`.
#[inline]
pub(crate) fn find_byte(by: Case, byte: u8, text: &[u8]) -> Option<usize>
    ensures { IsFirst (λ k. folded by byte ≡ seen by text.now k) 0 (length text.now) result }
{
    match by {
        Case::Exact => memchr(byte, text),
        Case::Ignored => memchr2(byte.to_ascii_lowercase(), byte.to_ascii_uppercase(), text),
    }
}
