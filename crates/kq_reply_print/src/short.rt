// A text that is kept until it is whole.
ghost use Rattle.std.specs.Prelude.{◌≡◌, [], length};
ghost use Rattle.kq_world.specs.Outside.{Puts, HasCause};

use kq_world::{Failed, Sink};
use std::marker::Model;

// The most bytes of a text that is kept.
const SHORT: usize = 4096;

// It takes a short text, and fails at a longer one.
#[derive(Drop)]
pub(crate) struct ShortText {
    bytes: [u8; SHORT],
    len: usize,
    faults: u64,
}

impl Model for ShortText {
    ghost use Rattle.std.specs.Prelude.{◌≤◌, take};
    ghost use Rattle.kq_reply_print.specs.Short.{ShortTextState};

    ghost Value = { ShortTextState };

    ghost view = { λ t. record { accepted = take t.len t.bytes; faults = t.faults } };

    ghost invariant = { λ t. t.len ≤ 4096 };
}

impl ShortText {
    pub(crate) fn new() -> ShortText
        ensures { result ≡ record { accepted = []; faults = 0 } }
    {
        ShortText {
            bytes: [0; SHORT],
            len: 0,
            faults: 0,
        }
    }

    // The text so far.
    pub(crate) fn bytes(&self) -> &[u8]
        ensures { result.now ≡ self.now.accepted }
    {
        &self.bytes[..self.len]
    }
}

impl Sink for ShortText {
    ghost accepted = { λ t. t.accepted };

    ghost faults = { λ t. t.faults };

    fn write(&mut self, piece: &[u8]) -> Result<usize, Failed> {
        let n = piece.len().min(SHORT - self.len);
        if n == 0 {
            self.faults = self.faults.saturating_add(1);
            return Err(Failed);
        }
        let end = self.len + n;
        self.bytes[self.len..end].copy_from_slice(&piece[..n]);
        self.len = end;
        Ok(n)
    }
}
