// What the copies of a text share.
ghost use Rattle.std.specs.Prelude.{◌≡◌, IfOk, IfSome, string_bytes};
ghost use Rattle.std.specs.Fmt.{debug_str};
ghost use Rattle.kq_value.specs.Contents.{bytes_of};

use crate::Memory;
use std::alloc::Global;
use std::fmt::{self, Debug, Formatter, Write};
use std::marker::Model;
use std::mem::size_of;
use std::str;

// As many bytes as fit where a `String` would lie.
const ROOM: usize = 30;

// A text whose bytes lie in place, if it is short, and so need no buffer of their own.
#[derive(Drop)]
pub(crate) enum Content {
    Short(Short),
    Long(String),
}

// So the box of a long text is no larger for the room of a short one.
const _: () = prove!(size_of::<Content>() == 8 + size_of::<String>());

// A text of at most `ROOM` bytes. Contracts see its bytes.
#[derive(Drop)]
pub(crate) struct Short {
    len: u8,
    bytes: [u8; ROOM],
}

impl Model for Short {
    ghost use Rattle.std.specs.Prelude.{◌≤◌, ℕ, List, take, IsUtf8};

    ghost Value = { List ℕ };

    ghost view = { λ s. take s.len s.bytes };

    ghost invariant = { λ s. (s.len ≤ 30) × ∥ IsUtf8 (take s.len s.bytes) ∥₁ };
}

impl Short {
    // A copy of the text, where it is short.
    fn from_str(text: &str) -> Option<Short>
        ensures { IfSome result (λ s. s ≡ text.now) }
    {
        let len = text.len();
        if len > ROOM {
            return None;
        }
        let mut bytes = [0; ROOM];
        bytes[..len].copy_from_slice(text.as_bytes());
        Some(Short {
            len: len as u8,
            bytes,
        })
    }

    fn as_str(&self) -> &str
        ensures { result.now ≡ self.now }
    {
        unsafe { str::from_utf8_unchecked(&self.bytes[..self.len as usize]) }
    }
}

impl Content {
    pub(crate) fn from_str(alloc: Global, text: &str) -> Result<Content, Memory>
        ensures { IfOk result (λ c. bytes_of c ≡ text.now) }
    {
        match Short::from_str(text) {
            Some(short) => Ok(Content::Short(short)),
            None => Ok(Content::Long(String::from_str(alloc, text)?)),
        }
    }

    pub(crate) fn from_string(text: String) -> Content
        ensures { bytes_of result ≡ string_bytes text }
    {
        match Short::from_str(text.as_str()) {
            Some(short) => Content::Short(short),
            None => Content::Long(text),
        }
    }

    pub(crate) fn as_str(&self) -> &str
        ensures { result.now ≡ bytes_of self.now }
    {
        match self {
            Content::Short(text) => text.as_str(),
            Content::Long(text) => text.as_str(),
        }
    }
}

impl Debug for Content {
    ghost debug_output = { λ c. debug_str (bytes_of c) };

    fn fmt<W: Write>(&self, f: &mut Formatter<W>) -> fmt::Result {
        Debug::fmt(&self.as_str(), f)
    }
}
