// Whole numbers and bools.
ghost use Rattle.std.specs.Prelude.{◌≡◌};
ghost use Rattle.std.specs.Str.{bytes_eq, str_to_ascii_lowercase};
ghost use Rattle.kq_value_formats.specs.Numerals.{bool_of, if_passes, int_of, is_int, long_of};

/// The long that the text writes: an optional minus and decimal digits, in range.
pub fn read_long(text: &str) -> Option<i64>
    ensures { result ≡ long_of text.now }
{
    // a plus, which `parse` reads too, is none
    if text.as_bytes().starts_with(b"+") {
        return None;
    }
    text.parse().ok()
}

/// The int that the text writes, as `read_long` in its range.
#[tactic(auto, using(crate::proofs::NumberLemmas::int_lemmas))]
pub fn read_int(text: &str) -> Option<i32>
    ensures { result ≡ int_of text.now }
{
    narrow(read_long(text)?)
}

fn narrow(number: i64) -> Option<i32>
    ensures { result ≡ if_passes is_int number }
{
    i32::try_from(number).ok()
}

/// `true` and `false` in any case, `1` and `0`.
#[tactic(auto, unfolding(crate::specs::Numerals::bool_of))]
pub fn read_bool(text: &str) -> Option<bool>
    ensures { result ≡ bool_of text.now }
{
    if is_word(text, "true") || is_word(text, "1") {
        Some(true)
    } else if is_word(text, "false") || is_word(text, "0") {
        Some(false)
    } else {
        None
    }
}

// Whether the two are equal but for upper and lower case.
#[tactic(auto, using(crate::proofs::NumberLemmas::same_bytes))]
fn is_word(text: &str, word: &str) -> bool
    ensures { result ≡ bytes_eq (str_to_ascii_lowercase text.now) (str_to_ascii_lowercase word.now) }
{
    text.eq_ignore_ascii_case(word)
}
