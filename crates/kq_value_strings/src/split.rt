// Splitting and replacing.
ghost use Rattle.std.specs.Prelude.{◌≡◌, ◌<◌, [], ◌∷◌, IfOk, IfSome, MatchOption, length, option_map, slice_get};
ghost use Rattle.kq_value_formats.specs.kq_value.Tree.{array};
ghost use Rattle.kq_value_formats.specs.kq_value.Seen.{tree_of};
ghost use Rattle.kq_value_formats.specs.Members.{strings};
ghost use Rattle.kq_value_formats.specs.Strings.{split, replace_string};
ghost use Rattle.kq_value_strings.specs.Pieces.{item_from};

use kq_value_formats::{Dyn, DynList, Memory, Text};
use std::alloc::Global;

// What stands before the first occurrence of `part` and what after it, or none where there is none or `part` is empty.
fn cut<'a>(text: &'a str, part: &str) -> Option<(&'a str, &'a str)>
    ensures pieces { MatchOption result (split text.now part.now ≡ text.now ∷ [])
        (λ x. split text.now part.now ≡ x.0.now ∷ split x.1.now part.now) }
    ensures shorter { IfSome result (λ x. length x.1.now < length text.now) }
{
    if part.is_empty() {
        return None;
    }
    text.split_once(part)
}

/// The pieces of `text` between the occurrences of `part` from the left, as an array of strings; the text alone where `part` is empty.
pub fn split_text(alloc: Global, text: &str, part: &str) -> Result<Dyn, Memory>
    ensures { IfOk result (λ d. tree_of d ≡ array (strings (split text.now part.now))) }
{
    let mut pieces = DynList::new(alloc);
    let mut rest = text;
    while let Some((piece, after)) = cut(rest, part) {
        pieces.push(Dyn::Text(Text::from_str(alloc, piece)?))?;
        rest = after;
    }
    pieces.push(Dyn::Text(Text::from_str(alloc, rest)?))?;
    Ok(Dyn::List(pieces))
}

/// The one of these pieces with a number, from 0, or from the end where it is negative, -1 being the last. Nothing is copied.
pub fn piece_of<'a>(text: &'a str, part: &str, number: i64) -> Option<&'a str>
    ensures { option_map (λ p. p.now) result ≡ item_from (split text.now part.now) number }
{
    if number >= 0 {
        return piece_at(text, part, number as usize);
    }
    let back = number.unsigned_abs() as usize;
    piece_at(text, part, count_pieces(text, part).checked_sub(back)?)
}

#[tactic(auto, using(crate::proofs::Pieces::next_piece, crate::proofs::Pieces::none_behind, crate::proofs::Pieces::piece_here))]
fn piece_at<'a>(text: &'a str, part: &str, number: usize) -> Option<&'a str>
    ensures { option_map (λ p. p.now) result ≡ slice_get (split text.now part.now) number }
{
    let mut rest = text;
    for _passed in 0..number {
        let (_piece, after) = cut(rest, part)?;
        rest = after;
    }
    match cut(rest, part) {
        Some((piece, _after)) => Some(piece),
        None => Some(rest),
    }
}

fn count_pieces(text: &str, part: &str) -> usize
    ensures { result ≡ length (split text.now part.now) }
{
    let mut count = 1;
    let mut rest = text;
    while let Some((_piece, after)) = cut(rest, part) {
        count += 1;
        rest = after;
    }
    count
}

/// `text` with `by` in place of each occurrence of `part` from the left; the text itself where `part` is empty.
pub fn replace_text(alloc: Global, text: &str, part: &str, by: &str) -> Result<Text, Memory>
    ensures { IfOk result (λ t. t ≡ replace_string text.now part.now by.now) }
{
    let mut replaced = String::new(alloc);
    let mut rest = text;
    while let Some((piece, after)) = cut(rest, part) {
        replaced.push_str(piece)?;
        replaced.push_str(by)?;
        rest = after;
    }
    replaced.push_str(rest)?;
    Text::from_string(alloc, replaced)
}
