// Tokens and what refuses them.
ghost use Rattle.std.specs.Prelude.{◌≡◌, ◌<◌, ◌↔◌, [], length, All, IfSome, IsTrue, slice_get, slice_range};
ghost use Rattle.kq_read_tokens.specs.Lexed.{StandsIn};

use crate::kind::TokenKind;
use kq_value::{Memory, Text};
use std::alloc::AllocFailed;
use std::marker::Model;

/// A token and its place: `from` is the offset of its first byte, `to` that behind its last.
#[derive(Clone, Copy, PartialEq, Eq)]
pub struct Token {
    pub kind: TokenKind,
    pub from: usize,
    pub to: usize,
}

/// Why a text has no tokens.
#[derive(Drop)]
pub enum LexFault {
    /// The text isn't all tokens, and `at` is the first byte where none starts.
    Syntax { at: usize },
    Memory,
}

impl From<Memory> for LexFault {
    ghost use Rattle.std.specs.Prelude.{◌≡◌};
    ghost use Rattle.kq_read_tokens.specs.declared.token.LexFault.TheVariants.{Memory};

    ghost from_gives = { λ _ e. e ≡ Memory };

    fn from(_: Memory) -> LexFault {
        LexFault::Memory
    }
}

impl<T: Drop> From<AllocFailed<T>> for LexFault {
    ghost use Rattle.std.specs.Prelude.{◌≡◌};
    ghost use Rattle.kq_read_tokens.specs.declared.token.LexFault.TheVariants.{Memory};

    ghost from_gives = { λ _ e. e ≡ Memory };

    fn from(_: AllocFailed<T>) -> LexFault {
        LexFault::Memory
    }
}

/// The tokens of a text in order, with the text. Contracts see both.
#[derive(Drop)]
pub struct Tokens {
    text: Text,
    list: Vec<Token>,
}

impl Model for Tokens {
    ghost use Rattle.std.specs.Prelude.{All};
    ghost use Rattle.kq_read_tokens.specs.Lexed.{Lexed, StandsIn};

    ghost Value = { Lexed };

    ghost view = { λ t. record { text = t.text; tokens = t.list.items } };

    ghost invariant = { λ t. All (StandsIn t.text) t.list.items };
}

impl Tokens {
    pub(crate) fn new(text: Text, list: Vec<Token>) -> Tokens
        requires { All (StandsIn text) list.items }
        ensures text { result.text ≡ text }
        ensures tokens { result.tokens ≡ list.items }
    {
        Tokens { text, list }
    }

    pub fn as_slice(&self) -> &[Token]
        ensures tokens { result.now ≡ self.now.tokens }
        ensures in_text { All (StandsIn self.now.text) result.now }
    {
        self.list.as_slice()
    }

    /// The text that the tokens were read from.
    pub fn text(&self) -> &str
        ensures { result.now ≡ self.now.text }
    {
        self.text.as_str()
    }

    /// The bytes of the token at the index.
    pub fn bytes_of(&self, index: usize) -> &[u8]
        requires { index < length self.now.tokens }
        ensures { IfSome (slice_get self.now.tokens index) (λ t. result.now ≡ slice_range self.now.text t.from t.to) }
    {
        let token = &self.list[index];
        &self.text.as_str().as_bytes()[token.from..token.to]
    }

    pub fn len(&self) -> usize
        ensures { result ≡ length self.now.tokens }
    {
        self.list.len()
    }

    pub fn is_empty(&self) -> bool
        ensures { IsTrue result ↔ (self.now.tokens ≡ []) }
    {
        self.list.is_empty()
    }
}
