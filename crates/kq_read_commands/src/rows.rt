// The rows behind a command.
ghost use Rattle.std.specs.Prelude.{◌≡◌, ◌≤◌, length};
ghost use Rattle.std.specs.List.{prefix_len};
ghost use Rattle.kq_read_commands.specs.InText.{IsPiece};
ghost use Rattle.kq_read_commands.specs.Rows.{is_white as white, rows_after as rows_from, without_white};

use kq_read_symbols::Symbol;

fn is_white(byte: u8) -> bool
    ensures { result ≡ white byte }
{
    byte == b' ' || byte == b'\t' || byte == b'\r' || byte == b'\n'
}

fn white_len(bytes: &[u8]) -> usize
    ensures count { result ≡ prefix_len white bytes.now }
    ensures within { result ≤ length bytes.now }
{
    bytes.iter().take_while(|byte| is_white(**byte)).count()
}

// The text without the white space that it begins with.
fn skip_white(text: &str) -> &str
    ensures { result.now ≡ without_white text.now }
{
    let count = white_len(text.as_bytes());
    &text[count..]
}

// The text behind the symbol, without the white space that it begins with.
pub(crate) fn rows_after<'a>(text: &'a str, mark: Symbol) -> &'a str
    requires { IsPiece text.now mark }
    ensures { result.now ≡ rows_from mark.to text.now }
{
    skip_white(&text[mark.to..])
}
