// The words of types.
ghost use Rattle.std.specs.Prelude.{◌≡◌};
ghost use Rattle.std.specs.List.{list_any};
ghost use Rattle.kq_read_meanings.specs.Types.{same, ty_of as type_of};

use kq_value::Ty;

/// The type of a type's word or of its alias.
pub fn ty_of(word: &[u8]) -> Option<Ty>
    ensures { result ≡ type_of word.now }
{
    if is_one_of(&["long", "int64"], word) {
        Some(Ty::Long)
    } else if is_one_of(&["int"], word) {
        Some(Ty::Int)
    } else if is_one_of(&["string"], word) {
        Some(Ty::Text)
    } else if is_one_of(&["bool", "boolean"], word) {
        Some(Ty::Bool)
    } else if is_one_of(&["datetime", "date"], word) {
        Some(Ty::Moment)
    } else if is_one_of(&["timespan", "time"], word) {
        Some(Ty::Span)
    } else if is_one_of(&["dynamic"], word) {
        Some(Ty::Dynamic)
    } else {
        None
    }
}

fn is_one_of(words: &[&str], text: &[u8]) -> bool
    ensures { result ≡ list_any (λ w. same text.now w.now) words.now }
{
    for word in words {
        if text == word.as_bytes() {
            return true;
        }
    }
    false
}
