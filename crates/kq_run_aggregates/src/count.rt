// Counts of rows.
ghost use Rattle.std.specs.Prelude.{◌≡◌, ◌+◌, ◌<◌, ◌≤◌, ◌^◌, OnOk, OnErr, pos};
ghost use Rattle.kq_value.specs.declared.value.Value.TheVariants.{Long};

use kq_value::{Memory, Value};
use std::alloc::AllocError;
use std::marker::Model;

// The most rows that a count stands for.
const MOST: u64 = 0x7fff_ffff_ffff_ffff;

// The number of rows. Contracts see the number.
#[derive(Drop)]
pub(crate) struct Count {
    rows: u64,
}

impl Model for Count {
    ghost use Rattle.std.specs.Prelude.{ℕ, ◌<◌, ◌^◌};

    ghost Value = { ℕ };

    ghost view = { λ c. c.rows };

    ghost invariant = { λ c. c.rows < 2 ^ 63 };
}

impl Count {
    pub(crate) fn new() -> Count
        ensures { result ≡ 0 }
    {
        Count { rows: 0 }
    }

    pub(crate) fn step(&mut self) -> Result<(), Memory>
        ensures ok { OnOk result (self.new ≡ self.old + 1) }
        ensures err { OnErr result ((self.new ≡ self.old) × (2 ^ 63 ≤ self.old + 1)) }
    {
        if self.rows >= MOST {
            return Err(AllocError);
        }
        self.rows += 1;
        Ok(())
    }

    pub(crate) fn merge(&mut self, other: &Count) -> Result<(), Memory>
        ensures ok { OnOk result (self.new ≡ self.old + other.now) }
        ensures err { OnErr result ((self.new ≡ self.old) × (2 ^ 63 ≤ self.old + other.now)) }
    {
        if self.rows > MOST - other.rows {
            return Err(AllocError);
        }
        self.rows += other.rows;
        Ok(())
    }

    pub(crate) fn finish(&self) -> Value
        ensures { result ≡ Long (pos self.now) }
    {
        Value::Long(self.rows as i64)
    }
}
