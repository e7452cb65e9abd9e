// Whole queries.
ghost use Rattle.std.specs.Prelude.{◌≡◌, length, MatchResult};
ghost use Rattle.kq_read_grammar.specs.TabularViews.{query_of};
ghost use Rattle.kq_read_grammar.specs.Tabulars.{query_text};
ghost use Rattle.kq_read_queries.specs.Places.{AcceptsOnly, IsRefusal, TakesAll, RefusesAt};

use crate::depth::too_deep;
use crate::lets::read_query;
use kq_read_grammar::Query;
use kq_read_symbols::{Cursor, Stop, Symbol};
use std::alloc::Global;

/// Why symbols are no query, or no command. Places are offsets of bytes.
#[derive(Clone, Copy, PartialEq, Eq)]
pub enum ParseFault {
    /// None has this symbol here.
    Syntax { at: usize },
    /// More than 120 brackets are open.
    Deep { at: usize },
    Memory,
}

// The refusal where the cursor stands, in a text that ends at `end`.
fn refusal(cursor: &mut Cursor<'_>, end: usize) -> ParseFault
    ensures { IsRefusal cursor.old end result }
{
    match cursor.take() {
        Ok(symbol) => ParseFault::Syntax { at: symbol.from },
        Err(stop) => match stop {
            Stop::Syntax => ParseFault::Syntax { at: end },
            Stop::Memory => ParseFault::Memory,
        },
    }
}

/// What was found up to the cursor, where no symbol is left behind it. The text ends at `end`.
pub fn whole<T: Drop>(
    found: Result<T, Stop>,
    cursor: &mut Cursor<'_>,
    end: usize,
) -> Result<T, ParseFault>
    ensures { TakesAll cursor.old end found result }
{
    match found {
        Ok(value) => {
            if cursor.left() == 0 {
                Ok(value)
            } else {
                Err(refusal(cursor, end))
            }
        }
        Err(stop) => match stop {
            Stop::Memory => Err(ParseFault::Memory),
            Stop::Syntax => Err(refusal(cursor, end)),
        },
    }
}

/// The query that has exactly these symbols of a text that ends at `end`.
pub fn parse_query(alloc: Global, symbols: &[Symbol], end: usize) -> Result<Box<Query>, ParseFault>
    // It is the only one.
    ensures { MatchResult result (λ q. AcceptsOnly query_text symbols.now (query_of q.value)) (RefusesAt query_text symbols.now end) }
{
    if let Some(at) = too_deep(symbols) {
        return Err(ParseFault::Deep { at });
    }
    let mut cursor = Cursor::new(symbols);
    let found = read_query(alloc, &mut cursor, symbols.len());
    whole(found, &mut cursor, end)
}
