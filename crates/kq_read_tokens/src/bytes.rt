// Classes of bytes, and runs of them at the front.
ghost use Rattle.std.specs.Prelude.{◌≡◌, ◌≤◌, ◌+◌, length};
ghost use Rattle.std.specs.List.{prefix_len};
ghost use Rattle.kq_read_tokens.specs.Bytes.{is_space, is_letter, is_digit, is_word_byte, is_hexadecimal_digit, is_in_line, is_slash, starts};
ghost use Rattle.kq_read_tokens.specs.Reading.{blank_len};

pub fn is_space(b: u8) -> bool
    ensures { result ≡ is_space b }
{
    matches!(b, b' ' | b'\t' | b'\r' | b'\n')
}

pub fn is_letter(b: u8) -> bool
    ensures { result ≡ is_letter b }
{
    b.is_ascii_lowercase() || b.is_ascii_uppercase() || b == b'_'
}

pub fn is_word_byte(b: u8) -> bool
    ensures { result ≡ is_word_byte b }
{
    is_letter(b) || b.is_ascii_digit()
}

pub fn is_hexadecimal_digit(b: u8) -> bool
    ensures { result ≡ is_hexadecimal_digit b }
{
    matches!(b, b'0'..=b'9' | b'a'..=b'f' | b'A'..=b'F')
}

pub fn starts_with_word_byte(bytes: &[u8]) -> bool
    ensures { result ≡ starts is_word_byte bytes.now }
{
    match bytes {
        [b, ..] => is_word_byte(*b),
        [] => false,
    }
}

pub fn spaces_len(bytes: &[u8]) -> usize
    ensures value { result ≡ prefix_len is_space bytes.now }
    ensures within { result ≤ length bytes.now }
{
    bytes.iter().take_while(|b| is_space(**b)).count()
}

pub fn word_len(bytes: &[u8]) -> usize
    ensures value { result ≡ prefix_len is_word_byte bytes.now }
    ensures within { result ≤ length bytes.now }
{
    bytes.iter().take_while(|b| is_word_byte(**b)).count()
}

pub fn digits_len(bytes: &[u8]) -> usize
    ensures value { result ≡ prefix_len is_digit bytes.now }
    ensures within { result ≤ length bytes.now }
{
    bytes.iter().take_while(|b| b.is_ascii_digit()).count()
}

pub fn hexadecimal_digits_len(bytes: &[u8]) -> usize
    ensures value { result ≡ prefix_len is_hexadecimal_digit bytes.now }
    ensures within { result ≤ length bytes.now }
{
    bytes
        .iter()
        .take_while(|b| is_hexadecimal_digit(**b))
        .count()
}

fn line_len(bytes: &[u8]) -> usize
    ensures value { result ≡ prefix_len is_in_line bytes.now }
    ensures within { result ≤ length bytes.now }
{
    bytes.iter().take_while(|b| **b != b'\n').count()
}

/// How many bytes at the front stand between tokens: one of white space, or a comment.
pub fn blank_len(bytes: &[u8]) -> usize
    ensures value { result ≡ blank_len bytes.now }
    ensures within { result ≤ length bytes.now }
{
    match bytes {
        [] => 0,
        [b, others @ ..] => {
            if is_space(*b) {
                1
            } else if *b == b'/' && starts_with_slash(others) {
                1 + line_len(others)
            } else {
                0
            }
        }
    }
}

fn starts_with_slash(bytes: &[u8]) -> bool
    ensures { result ≡ starts is_slash bytes.now }
{
    match bytes {
        [b, ..] => *b == b'/',
        [] => false,
    }
}
