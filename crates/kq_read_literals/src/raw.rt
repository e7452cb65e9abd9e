// The raw texts of typed literals.
ghost use Rattle.std.specs.Prelude.{◌≡◌, true};
ghost use Rattle.kq_read_tokens.specs.declared.kind.LiteralWord.{LiteralWord};
ghost use Rattle.kq_read_tokens.specs.Delimited.{is_typed_literal};
ghost use Rattle.kq_read_literals.specs.Raw.{HasRaw, raw_text_of};

/// What stands between the parentheses of a typed literal's token.
pub fn raw_text(bytes: &[u8]) -> &[u8]
    requires { (word : LiteralWord) × (is_typed_literal word bytes.now ≡ true) }
    ensures value { result.now ≡ raw_text_of bytes.now }
    ensures between { (word : LiteralWord) → is_typed_literal word bytes.now ≡ true → HasRaw word bytes.now result.now }
{
    match bytes.iter().position(|byte| *byte == b'(') {
        Some(opening) => {
            let behind = &bytes[opening + 1..];
            &behind[..behind.len() - 1]
        }
        None => unreachable!(),
    }
}
