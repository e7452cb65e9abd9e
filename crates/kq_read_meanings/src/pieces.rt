// What stands in a text where a symbol is.
ghost use Rattle.std.specs.Prelude.{◌≡◌, true};
ghost use Rattle.std.specs.Fmt.{is_char_start as the_char_start};
ghost use Rattle.std.specs.Str.{IsCharBoundary};
ghost use Rattle.kq_read_meanings.specs.Pieces.{cut as the_cut, is_boundary as boundary, piece as the_piece};

use kq_read_symbols::Symbol;

/// What stands in the text where the symbol is.
pub fn piece<'a>(text: &'a str, symbol: Symbol) -> &'a str
    ensures { result.now ≡ the_piece text.now symbol }
{
    cut(text, symbol.from, symbol.to)
}

// What stands between two places; nothing where the text can't be cut there.
pub(crate) fn cut(text: &str, from: usize, to: usize) -> &str
    ensures { result.now ≡ the_cut text.now from to }
{
    if from <= to && is_boundary(text, from) && is_boundary(text, to) {
        &text[from..to]
    } else {
        ""
    }
}

fn is_boundary(text: &str, index: usize) -> bool
    ensures test { result ≡ boundary text.now index }
    ensures boundary { result ≡ true → IsCharBoundary text.now index }
{
    let bytes = text.as_bytes();
    index == bytes.len() || (index < bytes.len() && is_char_start(bytes[index]))
}

fn is_char_start(byte: u8) -> bool
    ensures { result ≡ the_char_start byte }
{
    byte < 0x80 || byte >= 0xc0
}
