// The script as a source.
ghost use Rattle.std.specs.Prelude.{◌≡◌, ◌<◌, IfOk, false, length};
ghost use Rattle.kq_world.specs.Outside.{HasCause, Takes};
ghost use Rattle.kq_script_generated.specs.Commands.{script};
ghost use Rattle.kq_script_generated.specs.Source.{script_told};

use crate::script::script_of;
use kq_value::{Bytes, Memory};
use kq_world::{Failed, Source};
use std::alloc::Global;
use std::marker::Model;

/// A source of a generated script. It never fails.
#[derive(Drop)]
pub struct ScriptSource {
    text: Bytes,
    at: usize,
    ended: bool,
}

impl Model for ScriptSource {
    ghost use Rattle.std.specs.Prelude.{◌≡◌, ◌≤◌, length, true};
    ghost use Rattle.kq_script_generated.specs.Source.{ScriptState};

    ghost Value = { ScriptState };

    ghost view = { λ s. record { text = s.text; at = s.at; ended = s.ended } };

    ghost invariant = { λ s. (s.at ≤ length s.text) × (s.ended ≡ true → s.at ≡ length s.text) };
}

impl ScriptSource {
    /// A source of the script of `n` rows.
    pub fn new(alloc: Global, n: u32) -> Result<ScriptSource, Memory>
        ensures { IfOk result (λ s. s ≡ record { text = script n; at = 0; ended = false }) }
    {
        let text = script_of(alloc, n)?;
        Ok(ScriptSource {
            text,
            at: 0,
            ended: false,
        })
    }
}

impl Source for ScriptSource {
    ghost told = { script_told };

    ghost faults = { λ _. 0 };

    fn read(&mut self, buf: &mut [u8]) -> Result<usize, Failed>
        requires { 0 < length buf.old }
        ensures takes { Takes (script_told self.old) (script_told self.new) result buf.new }
        ensures cause { HasCause 0 0 result }
        ensures kept { self.new.text ≡ self.old.text }
    {
        let left = &self.text.as_slice()[self.at..];
        let n = buf.len().min(left.len());
        buf[..n].copy_from_slice(&left[..n]);
        self.at += n;
        self.ended = self.ended || n == 0;
        Ok(n)
    }
}
