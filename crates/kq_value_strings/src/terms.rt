// Terms: what ends where no alphanumeric goes on.
ghost use Rattle.std.specs.Prelude.{◌≡◌, ◌+◌, ◌≤◌, ◌<◌, length};
ghost use Rattle.kq_value_formats.specs.Strings.{are_joined as joined, is_term_at};

// Whether what stands at `at` doesn't go on before it, nor after it.
pub(crate) fn is_term(text: &[u8], part: &[u8], at: usize) -> bool
    requires fits { at + length part.now ≤ length text.now }
    requires some { 0 < length part.now }
    ensures { result ≡ is_term_at text.now part.now at }
{
    let end = at + part.len();
    let begins = at == 0 || !are_joined(text[at - 1], part[0]);
    let ends = end == text.len() || !are_joined(part[part.len() - 1], text[end]);
    begins && ends
}

fn are_joined(a: u8, b: u8) -> bool
    ensures { result ≡ joined a b }
{
    a.is_ascii_alphanumeric() && b.is_ascii_alphanumeric()
}
