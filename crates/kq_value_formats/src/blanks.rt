// Blanks.
ghost use Rattle.std.specs.Prelude.{◌≡◌};
ghost use Rattle.kq_value_formats.specs.Cells.{is_blank as blank, trimmed};
ghost use Rattle.kq_value_formats.specs.Blanks.{without_leading_blanks, without_trailing_blanks};

/// The text without the spaces and tabs at its ends.
pub fn trim(text: &str) -> &str
    ensures { result.now ≡ trimmed blank text.now }
{
    trim_end(trim_start(text))
}

fn trim_start(text: &str) -> &str
    ensures { result.now ≡ without_leading_blanks text.now }
{
    let bytes = text.as_bytes();
    let mut start = 0;
    while start < bytes.len() && is_blank(bytes[start]) {
        start += 1;
    }
    &text[start..]
}

fn trim_end(text: &str) -> &str
    ensures { result.now ≡ without_trailing_blanks text.now }
{
    let bytes = text.as_bytes();
    let mut end = bytes.len();
    while end > 0 && is_blank(bytes[end - 1]) {
        end -= 1;
    }
    &text[..end]
}

fn is_blank(byte: u8) -> bool
    ensures { result ≡ blank byte }
{
    byte == b' ' || byte == b'\t'
}
