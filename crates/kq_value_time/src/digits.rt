// Digits, and the parts of texts.
ghost use Rattle.std.specs.Prelude.{◌≡◌, ◌<◌, ◌++◌, replicate, slice_index, true, IsTrue, MatchOption, ◌∷◌, [], option_map};
ghost use Rattle.std.specs.Char.{digit_value};
ghost use Rattle.std.specs.Str.{all_ascii_digits};
ghost use Rattle.std.specs.Str.Parse.{digits_value};
ghost use Rattle.kq_value_formats.specs.Numerals.{is_numeral as passes, numeral_of};
ghost use Rattle.kq_value_formats.specs.Datetimes.{fraction_ticks};
ghost use Rattle.kq_value_formats.specs.Timespans.{pieces};
ghost use Rattle.kq_value_time.specs.Parts.{capped, IsParts};

// Whether the text is one digit or more, and nothing else.
pub(crate) fn is_numeral(text: &[u8]) -> bool
    ensures { result ≡ passes text.now }
{
    !text.is_empty() && text.iter().all(|byte| byte.is_ascii_digit())
}

// The number that digits write. The greatest one stands for all that are greater.
#[tactic(auto, using(crate::proofs::PartLemmas::digit_lemmas))]
pub(crate) fn number(digits: &[u8]) -> u64
    requires { all_ascii_digits digits.now ≡ true }
    ensures { result ≡ capped (digits_value 10 digits.now) }
{
    let mut number: u64 = 0;
    for digit in digits {
        number = number
            .saturating_mul(10)
            .saturating_add(u64::from(*digit - b'0'));
    }
    number
}

// The number of a text of digits.
pub(crate) fn numeral(text: &[u8]) -> Option<u64>
    ensures { result ≡ option_map capped (numeral_of text.now) }
{
    if is_numeral(text) {
        Some(number(text))
    } else {
        None
    }
}

// The ticks of a second's decimals, of which seven count.
#[tactic(auto, using(crate::proofs::PartLemmas::fraction_lemmas))]
pub(crate) fn fraction(decimals: &[u8]) -> u64
    requires { all_ascii_digits decimals.now ≡ true }
    ensures value { result ≡ fraction_ticks decimals.now }
    ensures bound { result < 10000000 }
{
    let mut ticks = 0;
    for place in 0..7 {
        ticks = ticks * 10 + u64::from(decimal_at(decimals, place));
    }
    ticks
}

// The decimal at a place, 0 past the last.
#[tactic(auto, using(crate::proofs::PartLemmas::decimal_lemmas))]
fn decimal_at(decimals: &[u8], place: usize) -> u8
    requires digits { all_ascii_digits decimals.now ≡ true }
    requires in_second { place < 7 }
    ensures value { result ≡ digit_value (slice_index (decimals.now ++ replicate 7 48) place) }
    ensures bound { result < 10 }
{
    match decimals.get(place) {
        Some(digit) => *digit - b'0',
        None => 0,
    }
}

// The parts of a text between separators.
#[derive(Clone, Copy)]
pub(crate) enum Parts<'a> {
    One(&'a [u8]),
    Two(&'a [u8], &'a [u8]),
    Three(&'a [u8], &'a [u8], &'a [u8]),
    More,
}

#[tactic(auto, using(crate::proofs::PartLemmas::more_pieces))]
pub(crate) fn parts_of(text: &[u8], separator: u8) -> Parts<'_>
    ensures { IsParts result (pieces separator text.now) }
{
    let Some((first, rest)) = cut(text, separator) else {
        return Parts::One(text);
    };
    let Some((second, rest)) = cut(rest, separator) else {
        return Parts::Two(first, rest);
    };
    match cut(rest, separator) {
        None => Parts::Three(first, second, rest),
        Some(_) => Parts::More,
    }
}

// What stands before the first separator, and what stands after it.
fn cut(text: &[u8], separator: u8) -> Option<(&[u8], &[u8])>
    ensures { MatchOption result (pieces separator text.now ≡ text.now ∷ [])
        (λ p. pieces separator text.now ≡ p.0.now ∷ pieces separator p.1.now) }
{
    let at = text.iter().position(|byte| *byte == separator)?;
    Some((&text[..at], &text[at + 1..]))
}
