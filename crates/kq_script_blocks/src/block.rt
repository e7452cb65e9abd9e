// The block that stands open.
ghost use Rattle.std.specs.Prelude.{◌≡◌, ◌≢◌, ◌+◌, ◌-◌, ◌^◌, ◌<◌, ◌≤◌, ◌∷◌, ◌++◌, [], List, ℕ, Some, None, if◌then◌else◌, ◌==◌, false, nat_lt, length, take, IfNone};

use crate::item::Item;
use crate::line::Line;
use kq_value::Bytes;
use std::alloc::Global;
use std::mem;

const LF: u8 = b'\n';

/// The bytes since the last blank line. Those of whole lines are a block as soon as a blank line follows them.
#[derive(Drop)]
pub struct OpenBlock {
    alloc: Global,
    pub limit: u64,
    // The first bytes, up to the limit.
    kept: Vec<u8>,
    // Memory couldn't hold them.
    lost: bool,
    /// How many bytes there are.
    pub count: u64,
    // Where the line that stands open starts: after this many bytes.
    start: u64,
    // The whole lines are comments.
    comment: bool,
    // The line that stands open.
    line: Line,
}

impl OpenBlock {
    ghost use Rattle.kq_script_blocks.specs.Script.{block_of, is_blank, script_blocks};
    ghost use Rattle.kq_script_blocks.specs.Open.{IsOpen, AreItem, AddsByte, AppendsItem, open_run, open_line};

    pub fn new(alloc: Global, limit: u64) -> OpenBlock
        ensures limit { result.limit ≡ limit }
        ensures count { result.count ≡ 0 }
        ensures empty { IsOpen result [] [] }
    {
        OpenBlock {
            alloc,
            limit,
            kept: Vec::new(alloc),
            lost: false,
            count: 0,
            start: 0,
            comment: true,
            line: Line::Spaces,
        }
    }

    /// Takes the next byte, and gives the block that it closes.
    pub fn add(&mut self, byte: u8) -> Option<Item>
        requires { self.old.count < 2 ^ 64 - 1 }
        ensures limit { self.new.limit ≡ self.old.limit }
        ensures count { self.new.count ≤ self.old.count + 1 }
        ensures adds { (run : List (List ℕ)) (line : List ℕ) → IsOpen self.old run line
            → AddsByte self.old.limit self.new run line byte result }
    {
        if byte != LF {
            self.put(byte);
            self.line = self.line.with(byte);
            return None;
        }
        if self.line.is_blank() {
            return self.close();
        }
        self.end_line();
        None
    }

    /// Takes the next bytes, up to the first that closes a block, and says how many.
    pub fn add_all(&mut self, bytes: &[u8]) -> (usize, Option<Item>)
        requires { self.old.count + length bytes.now < 2 ^ 64 }
        ensures within { result.0 ≤ length bytes.now }
        ensures all { IfNone result.1 (result.0 ≡ length bytes.now) }
        ensures limit { self.new.limit ≡ self.old.limit }
        ensures count { self.new.count ≤ self.old.count + result.0 }
        ensures adds { (looked : List ℕ) → IsOpen self.old (open_run looked) (open_line looked)
            → IsOpen self.new (open_run (looked ++ take result.0 bytes.now)) (open_line (looked ++ take result.0 bytes.now))
            × AppendsItem self.old.limit result.1 (script_blocks self.old.limit looked false) (script_blocks self.old.limit (looked ++ take result.0 bytes.now) false) }
    {
        for (i, byte) in bytes.iter().enumerate() {
            if let Some(item) = self.add(*byte) {
                return (i + 1, Some(item));
            }
        }
        (bytes.len(), None)
    }

    /// Gives the last block, which the end closes.
    pub fn finish(&mut self) -> Option<Item>
        requires { self.old.count < 2 ^ 64 - 1 }
        ensures limit { self.new.limit ≡ self.old.limit }
        ensures count { self.new.count ≡ 0 }
        ensures last { (run : List (List ℕ)) (line : List ℕ) → IsOpen self.old run line
            → AreItem self.old.limit result (block_of self.old.limit (if is_blank line then run else (run ++ line ∷ []))) }
    {
        if !self.line.is_blank() {
            self.end_line();
        }
        self.close()
    }

    // Counts a byte, and keeps it within the limit.
    fn put(&mut self, byte: u8)
        requires { self.old.count < 2 ^ 64 - 1 }
        ensures count { self.new.count ≡ self.old.count + 1 }
        ensures kept { self.new.lost ≡ false → (self.old.lost ≡ false)
            × (self.new.kept.items ≡ (if nat_lt (length self.old.kept.items) self.old.limit then (self.old.kept.items ++ byte ∷ []) else self.old.kept.items)) }
        ensures others { (self.new.limit ≡ self.old.limit) × (self.new.start ≡ self.old.start)
            × (self.new.comment ≡ self.old.comment) × (self.new.line ≡ self.old.line) }
    {
        self.count += 1;
        if self.lost || self.kept.len() as u64 >= self.limit {
            return;
        }
        if self.kept.push(byte).is_err() {
            self.lost = true;
            self.kept = Vec::new(self.alloc);
        }
    }

    // The line is one of the whole lines.
    fn end_line(&mut self)
        requires { self.old.count < 2 ^ 64 - 1 }
        ensures limit { self.new.limit ≡ self.old.limit }
        ensures count { self.new.count ≡ self.old.count + 1 }
        ensures ends { (run : List (List ℕ)) (line : List ℕ) → IsOpen self.old run line
            → IsOpen self.new (run ++ line ∷ []) [] }
    {
        self.comment &= self.line.is_comment();
        self.put(LF);
        self.start = self.count;
        self.line = Line::Spaces;
    }

    // Starts anew, and gives the block of the whole lines.
    fn close(&mut self) -> Option<Item>
        ensures limit { self.new.limit ≡ self.old.limit }
        ensures count { self.new.count ≡ 0 }
        ensures empty { IsOpen self.new [] [] }
        ensures item { (run : List (List ℕ)) (line : List ℕ) → IsOpen self.old run line
            → AreItem self.old.limit result (block_of self.old.limit run) }
    {
        let next = OpenBlock::new(self.alloc, self.limit);
        mem::replace(self, next).into_item()
    }

    // The block of the whole lines, if they are one.
    fn into_item(self) -> Option<Item>
        ensures item { (run : List (List ℕ)) (line : List ℕ) → IsOpen self run line
            → AreItem self.limit result (block_of self.limit run) }
    {
        if self.start == 0 {
            return None;
        }
        let bytes = self.start - 1;
        if bytes > self.limit {
            return Some(Item::TooLong { bytes });
        }
        if self.comment {
            return None;
        }
        if self.lost {
            return Some(Item::Lost);
        }
        let mut kept = self.kept;
        kept.truncate(bytes as usize);
        Some(Item::Command(Bytes::from_vec(kept)))
    }
}
