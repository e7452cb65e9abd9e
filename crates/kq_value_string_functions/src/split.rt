// Splitting and replacing.
ghost use Rattle.std.specs.Prelude.{◌≡◌, IfOk, option_map};
ghost use Rattle.kq_value_conversions.specs.Parts.{member_of};
ghost use Rattle.kq_value_string_functions.specs.Texts as texts;
ghost use Rattle.kq_value_string_functions.specs.Texts.{piece_cell};

use kq_value::{Dyn, Memory, Text, Value};
use kq_value_strings::{piece_of, replace_text, split_text};
use std::alloc::Global;

/// `split`.
pub fn pieces(alloc: Global, value: &Value, part: &Value) -> Result<Value, Memory>
    ensures { IfOk result (λ v. v ≡ texts.pieces value.now part.now) }
{
    let (Value::Text(text), Value::Text(part)) = (value, part) else {
        return Value::dynamic(alloc, Dyn::Null);
    };
    let pieces = split_text(alloc, text.as_str(), part.as_str())?;
    Value::dynamic(alloc, pieces)
}

/// The member of `split` at a place, made without the other pieces.
#[tactic(auto, using(crate::proofs::SplitPieces::piece_found, crate::proofs::SplitPieces::member_of_null))]
pub fn piece_at(alloc: Global, value: &Value, part: &Value, place: &Value) -> Result<Value, Memory>
    ensures { IfOk result (λ v. v ≡ member_of (texts.pieces value.now part.now) place.now) }
{
    let (Value::Text(text), Value::Text(part)) = (value, part) else {
        return Value::dynamic(alloc, Dyn::Null);
    };
    match place {
        Value::Long(number) => {
            let piece = piece_of(text.as_str(), part.as_str(), *number);
            text_or_null(alloc, piece)
        }
        _ => Value::dynamic(alloc, Dyn::Null),
    }
}

fn text_or_null(alloc: Global, piece: Option<&str>) -> Result<Value, Memory>
    ensures { IfOk result (λ v. v ≡ piece_cell (option_map (λ p. p.now) piece.entry)) }
{
    match piece {
        Some(text) => Value::dynamic(alloc, Dyn::Text(Text::from_str(alloc, text)?)),
        None => Value::dynamic(alloc, Dyn::Null),
    }
}

/// `replace_string`.
pub fn replaced(alloc: Global, value: &Value, part: &Value, by: &Value) -> Result<Value, Memory>
    ensures { IfOk result (λ v. v ≡ texts.replaced value.now part.now by.now) }
{
    let (Value::Text(text), Value::Text(part), Value::Text(by)) = (value, part, by) else {
        return Ok(Value::Text(Text::from_string(alloc, String::new(alloc))?));
    };
    let text = replace_text(alloc, text.as_str(), part.as_str(), by.as_str())?;
    Ok(Value::Text(text))
}
