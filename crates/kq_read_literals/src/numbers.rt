// Whole numbers.
ghost use Rattle.std.specs.Prelude.{◌≡◌, true};
ghost use Rattle.std.specs.Int.{IsInRange};
ghost use Rattle.std.specs.Str.Parse.{IsNumeral, digits_value};
ghost use Rattle.kq_read_tokens.specs.Numbers.{is_whole_number};
ghost use Rattle.kq_read_literals.specs.Numbers.{long_of_number, whole_number_of};

use crate::ascii::ascii_text;

/// The value of a whole number's token, or none where it is over 9223372036854775807.
#[tactic(auto, unfolding(crate::specs::Numbers::whole_number_of))]
pub fn whole_number(bytes: &[u8]) -> Option<i64>
    requires { is_whole_number bytes.now ≡ true }
    ensures { result ≡ whole_number_of bytes.now }
{
    if bytes.starts_with(b"0x") {
        numeral(&bytes[2..], 16)
    } else {
        numeral(bytes, 10)
    }
}

fn numeral(digits: &[u8], radix: u32) -> Option<i64>
    requires radix { IsInRange 2 16 radix }
    requires digits { IsNumeral radix digits.now }
    ensures { result ≡ long_of_number (digits_value radix digits.now) }
{
    i64::from_str_radix(ascii_text(digits), radix).ok()
}
