// What takes memory while a command is read.
ghost use Rattle.std.specs.Prelude.{◌≡◌, ◌∷◌, ◌++◌, [], true, false, IfErr, IfOk, MatchResult, OnErr, OnOk};
ghost use Rattle.kq_read_control.specs.ControlViews.{statement_of};
ghost use Rattle.kq_read_control.specs.Statements.{IsRefusedText, IsStatement};
ghost use Rattle.std.specs.Str.{IsUtf8};
ghost use Rattle.kq_read_literals.specs.Strings.{is_string_token, string_text_of};

use crate::columns::Column;
use kq_read_control::{Statement, parse_statement};
use kq_read_literals::string_text;
use kq_read_queries::ParseFault;
use kq_read_tokens::TokenKind;
use kq_value::{Memory, Text};
use std::alloc::Global;

// Requests for memory, and whether one was refused: only then may a reader answer want of memory.
#[derive(Drop)]
pub(crate) struct Requests {
    alloc: Global,
    refused: bool,
}

impl Requests {
    pub(crate) fn new(alloc: Global) -> Requests
        ensures { result.refused ≡ false }
    {
        Requests {
            alloc,
            refused: false,
        }
    }

    fn refuse(&mut self, error: Memory) -> Memory
        ensures { self.new.refused ≡ true }
    {
        self.refused = true;
        error
    }

    pub(crate) fn text(&mut self, text: &str) -> Result<Text, Memory>
        ensures value { IfOk result (λ t. t ≡ text.now) }
        ensures refused { OnErr result (self.new.refused ≡ true) }
    {
        match Text::from_str(self.alloc, text) {
            Ok(text) => Ok(text),
            Err(error) => Err(self.refuse(error)),
        }
    }

    // The text that a string stands for.
    pub(crate) fn string(&mut self, kind: TokenKind, bytes: &[u8]) -> Result<Text, Memory>
        requires form { is_string_token kind bytes.now ≡ true }
        requires utf8 { IsUtf8 bytes.now }
        ensures value { IfOk result (λ t. t ≡ string_text_of kind bytes.now) }
        ensures refused { OnErr result (self.new.refused ≡ true) }
    {
        match string_text(self.alloc, kind, bytes) {
            Ok(text) => Ok(text),
            Err(error) => Err(self.refuse(error)),
        }
    }

    // A list of nothing, which takes no memory.
    pub(crate) fn empty<T: Drop>(&self) -> Vec<T>
        ensures { result.items ≡ [] }
    {
        Vec::new(self.alloc)
    }

    pub(crate) fn push(&mut self, columns: &mut Vec<Column>, column: Column) -> Result<(), Memory>
        ensures pushed { OnOk result (columns.new.items ≡ columns.old.items ++ column ∷ []) }
        ensures refused { OnErr result (self.new.refused ≡ true) }
    {
        match columns.push(column) {
            Ok(()) => Ok(()),
            Err(error) => Err(self.refuse(error.into())),
        }
    }

    // The command that a text is, before it is looked through for what isn't supported.
    pub(crate) fn statement(&mut self, text: &str) -> Result<Statement, ParseFault>
        ensures answer { MatchResult result (λ s. IsStatement text.now (statement_of s)) (IsRefusedText text.now) }
        ensures refused { IfErr result (λ f. f ≡ ParseFault.Memory → self.new.refused ≡ true) }
    {
        let result = parse_statement(self.alloc, text);
        if matches!(result, Err(ParseFault::Memory)) {
            self.refused = true;
        }
        result
    }
}
