// Nested brackets.
ghost use Rattle.std.specs.Prelude.{◌≡◌, ◌≤◌, MatchOption};
ghost use Rattle.kq_read_queries.specs.Depth.{behind, closes, first_deep, opens, IsDeepAt, IsShallow};

use kq_read_symbols::{Kind, Symbol};
use kq_read_tokens::Punctuation;

fn is_opening(kind: Kind) -> bool
    ensures { result ≡ opens kind }
{
    match kind {
        Kind::Punctuation(Punctuation::OpenParenthesis) => true,
        Kind::Punctuation(Punctuation::OpenBracket) => true,
        Kind::Punctuation(Punctuation::OpenBrace) => true,
        _ => false,
    }
}

fn is_closing(kind: Kind) -> bool
    ensures { result ≡ closes kind }
{
    match kind {
        Kind::Punctuation(Punctuation::CloseParenthesis) => true,
        Kind::Punctuation(Punctuation::CloseBracket) => true,
        Kind::Punctuation(Punctuation::CloseBrace) => true,
        _ => false,
    }
}

// How many brackets are open behind a symbol, before which `depth` are.
fn depth_behind(depth: usize, symbol: Symbol) -> usize
    requires { depth ≤ 120 }
    ensures { result ≡ behind depth symbol }
{
    if is_opening(symbol.kind) {
        return depth + 1;
    }
    if is_closing(symbol.kind) {
        return depth.saturating_sub(1);
    }
    depth
}

fn deep_place(symbols: &[Symbol]) -> Option<usize>
    ensures { result ≡ first_deep 0 symbols.now }
{
    let mut depth = 0;
    for symbol in symbols {
        depth = depth_behind(depth, *symbol);
        if depth > 120 {
            return Some(symbol.from);
        }
    }
    None
}

/// The place of the first symbol with which more than 120 brackets are open.
pub fn too_deep(symbols: &[Symbol]) -> Option<usize>
    ensures { MatchOption result (IsShallow symbols.now) (IsDeepAt symbols.now) }
{
    deep_place(symbols)
}
