// A text read to its command.
ghost use Rattle.std.specs.Prelude.{◌≡◌, MatchResult};
ghost use Rattle.kq_read_control.specs.Controls.{statement_text};
ghost use Rattle.kq_read_control.specs.ControlViews.{statement_of};
ghost use Rattle.kq_read_control.specs.Statements.{IsStatement, IsRefusedText};
ghost use Rattle.kq_read_queries.specs.Places.{AcceptsOnly, RefusesAt};

use crate::controls::read_statement;
use crate::symbols::read_symbols;
use crate::tree::Statement;
use kq_read_queries::{ParseFault, too_deep, whole};
use kq_read_symbols::{Cursor, Symbol};
use kq_read_tokens::{LexFault, tokens};
use std::alloc::Global;

// The command that has exactly these symbols of a text that ends at `end`.
fn statement_in(alloc: Global, symbols: &[Symbol], end: usize) -> Result<Statement, ParseFault>
    ensures { MatchResult result (λ s. AcceptsOnly statement_text symbols.now (statement_of s)) (RefusesAt statement_text symbols.now end) }
{
    if let Some(at) = too_deep(symbols) {
        return Err(ParseFault::Deep { at });
    }
    let mut cursor = Cursor::new(symbols);
    let found = read_statement(alloc, &mut cursor, symbols.len());
    whole(found, &mut cursor, end)
}

/// The command that the text is. A text that isn't all tokens is refused where none starts, before brackets are counted and
/// the grammar is tried.
pub fn parse_statement(alloc: Global, text: &str) -> Result<Statement, ParseFault>
    ensures { MatchResult result (λ s. IsStatement text.now (statement_of s)) (IsRefusedText text.now) }
{
    match tokens(alloc, text) {
        Ok(tokens) => match read_symbols(alloc, &tokens) {
            Ok(symbols) => statement_in(alloc, symbols.as_slice(), text.len()),
            Err(_) => Err(ParseFault::Memory),
        },
        Err(fault) => match fault {
            LexFault::Syntax { at } => Err(ParseFault::Syntax { at }),
            LexFault::Memory => Err(ParseFault::Memory),
        },
    }
}
