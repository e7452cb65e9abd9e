// A reader of a script.
ghost use Rattle.std.specs.Prelude.{◌≡◌, ◌≢◌, ◌++◌, ◌+◌, ◌-◌, ◌^◌, ◌<◌, ◌≤◌, ℕ, List, [], IfOk, IfNone, MatchResult, length, vec_len};
ghost use Rattle.kq_world.specs.Outside.{SourceView, Takes, HasCause};

use crate::block::OpenBlock;
use crate::item::{Item, ScriptFault};
use kq_value::Memory;
use kq_world::{Failed, Source};
use std::alloc::Global;

// How many bytes are asked for at once.
const PIECE: usize = 4096;

/// How far a reader has come.
#[derive(Clone, Copy)]
pub enum Phase {
    /// The end wasn't read.
    Reading,
    /// The end was read, and the last block given.
    Ended,
    /// There is nothing more to ask.
    Closed,
}

/// It reads a script's commands from a source, of which it keeps one piece and the block that stands open.
#[derive(Drop)]
pub struct ScriptReader {
    block: OpenBlock,
    // The last piece taken stands in its front.
    piece: Vec<u8>,
    // From here to `end` the piece wasn't looked at yet.
    at: usize,
    end: usize,
    // How many bytes were taken.
    taken: u64,
    // How many may be.
    input: u64,
    phase: Phase,
    ghost full: { vec_len piece ≡ 4096 },
    ghost unread: { at ≤ end },
    ghost end_within: { end ≤ 4096 },
    ghost counted: { block.count + (end - at) ≤ taken },
    ghost within: { taken ≤ input },
}

impl ScriptReader {
    ghost use Rattle.kq_script_blocks.specs.Script.{Block};
    ghost use Rattle.kq_script_blocks.specs.Reading.{IsReading, IsUnclosed, ReadsItem, CausedBy};
    ghost use Rattle.kq_script_blocks.specs.State.{HasLooked, GivesLast, unread};
    ghost use Rattle.kq_script_blocks.specs.Open.{AreItem};

    /// A reader of commands of at most `command` bytes that takes at most `input` bytes.
    pub fn new(alloc: Global, command: u64, input: u64) -> Result<ScriptReader, Memory>
        ensures goes_on { IfOk result IsUnclosed }
        ensures reading { IfOk result (λ reader. (source : SourceView) → IsReading command input reader source source [] []) }
    {
        let piece = vec![in alloc; 0; PIECE]?;
        Ok(ScriptReader {
            block: OpenBlock::new(alloc, command),
            piece,
            at: 0,
            end: 0,
            taken: 0,
            input,
            phase: Phase::Reading,
        })
    }

    /// The next thing in the script. The source is read only where no closed block is left, a piece of at most 4096
    /// bytes at a time. After a fault or `Finished` the reader isn't to be called again.
    pub fn next_command<S: Source>(&mut self, source: &mut S) -> Result<Item, ScriptFault>
        requires { IsUnclosed self.old }
        ensures cause { CausedBy (S.faults source.old) (S.faults source.new) result }
        ensures goes_on { IfOk result (λ item. item ≢ Item.Finished → IsUnclosed self.new) }
        ensures reads { (command input : ℕ) (first : SourceView) (taken : List ℕ) (given : List Block)
            → IsReading command input self.old first (S.told source.old) taken given
            → ReadsItem command input result self.new first (S.told source.old) (S.told source.new) taken given }
    {
        match self.phase {
            Phase::Reading => self.read_on(source),
            Phase::Ended => {
                self.phase = Phase::Closed;
                Ok(Item::Finished)
            }
            Phase::Closed => unreachable!(),
        }
    }

    // Reads piece by piece, up to the first closed block or the end.
    fn read_on<S: Source>(&mut self, source: &mut S) -> Result<Item, ScriptFault>
        requires { self.old.phase ≡ Phase.Reading }
        ensures cause { CausedBy (S.faults source.old) (S.faults source.new) result }
        ensures goes_on { IfOk result (λ item. item ≢ Item.Finished → IsUnclosed self.new) }
        ensures reads { (command input : ℕ) (first : SourceView) (taken : List ℕ) (given : List Block)
            → IsReading command input self.old first (S.told source.old) taken given
            → ReadsItem command input result self.new first (S.told source.old) (S.told source.new) taken given }
    {
        loop {
            if let Some(item) = self.closed_block() {
                return Ok(item);
            }
            if self.taken == self.input {
                self.phase = Phase::Closed;
                return Err(ScriptFault::InputLimit);
            }
            match self.fill(source) {
                Ok(0) => return Ok(self.last_block()),
                Ok(_) => {}
                Err(Failed) => {
                    self.phase = Phase::Closed;
                    return Err(ScriptFault::ReadFault);
                }
            }
        }
    }

    // Looks at what is left of the piece, up to the first closed block.
    fn closed_block(&mut self) -> Option<Item>
        ensures same { (self.new.taken ≡ self.old.taken) × (self.new.input ≡ self.old.input)
            × (self.new.phase ≡ self.old.phase) × (self.new.block.limit ≡ self.old.block.limit) }
        ensures none { IfNone result (self.new.at ≡ self.new.end) }
        ensures looks { (taken : List ℕ) (given : List Block) → HasLooked self.old.block.limit self.old taken given
            → (blocks : List Block) × AreItem self.old.block.limit result blocks
            × HasLooked self.old.block.limit self.new taken (given ++ blocks) }
    {
        let (n, item) = self.block.add_all(&self.piece[self.at..self.end]);
        self.at += n;
        item
    }

    // Takes the next piece, where the last one was looked at.
    fn fill<S: Source>(&mut self, source: &mut S) -> Result<usize, Failed>
        requires room { self.old.taken < self.old.input }
        requires looked { self.old.at ≡ self.old.end }
        ensures same { (self.new.block ≡ self.old.block) × (self.new.input ≡ self.old.input)
            × (self.new.phase ≡ self.old.phase) }
        ensures taken { MatchResult result (λ n. self.new.taken ≡ self.old.taken + n) (λ _. self.new.taken ≡ self.old.taken) }
        ensures takes { Takes (S.told source.old) (S.told source.new) result (unread self.new) }
        ensures piece { IfOk result (λ n. (length (unread self.new) ≡ n) × (n ≤ 4096)) }
        ensures cause { HasCause (S.faults source.old) (S.faults source.new) result }
    {
        let room = (self.input - self.taken).min(PIECE as u64) as usize;
        let n = read_piece(source, self.piece.as_mut_slice(), room)?;
        self.at = 0;
        self.end = n;
        self.taken += n as u64;
        Ok(n)
    }

    // Gives the last block, which the end closes, or says that there is none.
    fn last_block(&mut self) -> Item
        requires { self.old.block.count < 2 ^ 64 - 1 }
        ensures same { (self.new.taken ≡ self.old.taken) × (self.new.input ≡ self.old.input)
            × (self.new.block.limit ≡ self.old.block.limit) }
        ensures ended { result ≢ Item.Finished → self.new.phase ≡ Phase.Ended }
        ensures gives { (taken : List ℕ) (given : List Block) → HasLooked self.old.block.limit self.old taken given
            → unread self.old ≡ [] → GivesLast self.old.block.limit result self.new.phase taken given }
    {
        match self.block.finish() {
            Some(item) => {
                self.phase = Phase::Ended;
                item
            }
            None => {
                self.phase = Phase::Closed;
                Item::Finished
            }
        }
    }
}

// Reads into the front of the piece, of which `room` bytes may be taken.
fn read_piece<S: Source>(source: &mut S, piece: &mut [u8], room: usize) -> Result<usize, Failed>
    requires some { 0 < room }
    requires within { room ≤ length piece.old }
    ensures room { IfOk result (λ n. n ≤ room) }
    ensures takes { Takes (S.told source.old) (S.told source.new) result piece.new }
    ensures cause { HasCause (S.faults source.old) (S.faults source.new) result }
{
    source.read(&mut piece[..room])
}
