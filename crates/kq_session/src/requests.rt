// What a session asks memory for between its replies.
ghost use Rattle.std.specs.Prelude.{◌≡◌, ◌<◌, [], false, IfOk, None, OnErr, OnOk, Some, length, vec_capacity, vec_len};
ghost use Rattle.kq_script_generated.specs.Commands.{script};
ghost use Rattle.kq_script_blocks.specs.Reading.{IsReading, IsUnclosed};
ghost use Rattle.kq_world.specs.Outside.{SourceView};

use crate::receipt::Receipt;
use kq_script_blocks::ScriptReader;
use kq_script_generated::ScriptSource;
use kq_value::Memory;
use std::alloc::Global;
use std::marker::Model;

/// A session's requests for memory between its replies. Contracts see after how many replies the last of them was refused, if one
/// was: the error of a request alone tells that.
#[derive(Drop)]
pub struct Requests {
    refused: Option<u64>,
}

impl Model for Requests {
    ghost use Rattle.std.specs.Prelude.{ℕ, Option};

    ghost Value = { Option ℕ };

    ghost view = { λ r. r.refused };
}

impl Requests {
    pub fn new() -> Requests
        ensures { result ≡ None }
    {
        Requests { refused: None }
    }

    /// A generated script of `n` rows, before the first reply.
    pub fn script(&mut self, alloc: Global, n: u32) -> Result<ScriptSource, Memory>
        ensures script { IfOk result (λ s. s ≡ record { text = script n; at = 0; ended = false }) }
        ensures granted { OnOk result (self.new ≡ self.old) }
        ensures refused { OnErr result (self.new ≡ Some 0) }
    {
        match ScriptSource::new(alloc, n) {
            Ok(script) => Ok(script),
            Err(error) => {
                self.refused = Some(0);
                Err(error)
            }
        }
    }

    // A reader of commands, before the first reply.
    pub(crate) fn reader(
        &mut self,
        alloc: Global,
        command: u64,
        input: u64,
    ) -> Result<ScriptReader, Memory>
        ensures goes_on { IfOk result IsUnclosed }
        ensures reading { IfOk result (λ reader. (source : SourceView) → IsReading command input reader source source [] []) }
        ensures granted { OnOk result (self.new ≡ self.old) }
        ensures refused { OnErr result (self.new ≡ Some 0) }
    {
        match ScriptReader::new(alloc, command, input) {
            Ok(reader) => Ok(reader),
            Err(error) => {
                self.refused = Some(0);
                Err(error)
            }
        }
    }

    // Room for a receipt behind those of the replies so far.
    pub(crate) fn room(&mut self, receipts: &mut Vec<Receipt>) -> Result<(), Memory>
        ensures items { receipts.new.items ≡ receipts.old.items }
        ensures room { OnOk result (vec_len receipts.new < vec_capacity receipts.new) }
        ensures granted { OnOk result (self.new ≡ self.old) }
        ensures refused { OnErr result (self.new ≡ Some (length receipts.new.items)) }
    {
        match receipts.reserve(1) {
            Ok(()) => Ok(()),
            Err(error) => {
                self.refused = Some(receipts.len() as u64);
                Err(error)
            }
        }
    }
}
