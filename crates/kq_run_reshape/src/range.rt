// The rows of a range.
ghost use Rattle.std.specs.Prelude.{◌≡◌, ◌<◌, ◌≤◌, ◌+◌, ℕ, FitsSigned, IfOk, MatchOption, map};
ghost use Rattle.std.specs.Int.{w64};
ghost use Rattle.std.specs.List.{range_with_len};
ghost use Rattle.kq_run_reshape.specs.Range.{Ranges, how_many, number_as, number_at, range_of, numbers_as, row_at_place};
ghost use Rattle.kq_run_reshape.specs.declared.range.RangeFault.TheVariants as fault;

use kq_store_rows::Rows;
use kq_value::{Memory, Ty, Value};
use std::alloc::{AllocError, Global};

// The most rows of a range.
const MOST_ROWS: u64 = 1_048_576;

/// Why there are no rows of a range.
#[derive(Clone, Copy, PartialEq, Eq)]
pub enum RangeFault {
    /// There are more rows than this.
    Full { limit: u64 },
    /// Want of memory.
    Memory,
}

impl From<AllocError> for RangeFault {
    ghost from_gives = { λ _ e. e ≡ fault.Memory };

    fn from(_error: AllocError) -> RangeFault {
        RangeFault::Memory
    }
}

/// A row of one cell for each value from `from` on, each `step` further, up to `to` at most, or at least where the step is negative.
/// Longs go by longs, datetimes and timespans by timespans; anything else, as a null, gives no row.
pub fn range_rows(alloc: Global, from: &Value, to: &Value, step: &Value) -> Result<Rows, RangeFault>
    ensures { Ranges (range_of from.now to.now step.now) result }
{
    match (from, to, step) {
        (Value::Long(a), Value::Long(b), Value::Long(s)) => Numbers::new(*a, *b, *s).rows(
            alloc,
            Ty::Long,
        ),
        (Value::Moment(a), Value::Moment(b), Value::Span(s)) => Numbers::new(*a, *b, *s).rows(
            alloc,
            Ty::Moment,
        ),
        (Value::Span(a), Value::Span(b), Value::Span(s)) => Numbers::new(*a, *b, *s).rows(
            alloc,
            Ty::Span,
        ),
        _ => Ok(Rows::new(alloc)),
    }
}

// Numbers from one on, each a step further, up to another.
#[derive(Clone, Copy)]
struct Numbers {
    from: i64,
    to: i64,
    step: i64,
}

impl Numbers {
    fn new(from: i64, to: i64, step: i64) -> Numbers
        ensures from { result.from ≡ from }
        ensures to { result.to ≡ to }
        ensures step { result.step ≡ step }
    {
        Numbers { from, to, step }
    }

    fn rows(&self, alloc: Global, ty: Ty) -> Result<Rows, RangeFault>
        ensures { Ranges (numbers_as ty self.now.from self.now.to self.now.step) result }
    {
        match self.last_place() {
            None => Ok(Rows::new(alloc)),
            Some(last) if last < MOST_ROWS => Ok(self.first_rows(alloc, ty, last + 1)?),
            Some(_) => Err(RangeFault::Full { limit: MOST_ROWS }),
        }
    }

    // The place of the last, from 0.
    fn last_place(&self) -> Option<u64>
        ensures count { MatchOption result (how_many self.now.from self.now.to self.now.step ≡ 0) (λ last. how_many self.now.from self.now.to self.now.step ≡ last + 1) }
        ensures from { FitsSigned w64 self.now.from }
        ensures to { FitsSigned w64 self.now.to }
    {
        let leads_there = if self.step < 0 {
            self.to <= self.from
        } else {
            self.from <= self.to
        };
        if self.step == 0 || !leads_there {
            return None;
        }
        Some(self.to.abs_diff(self.from) / self.step.unsigned_abs())
    }

    fn first_rows(&self, alloc: Global, ty: Ty, count: u64) -> Result<Rows, Memory>
        requires few { count ≤ 1048576 }
        requires fit { (i : ℕ) → i < count → FitsSigned w64 (number_at self.now.from self.now.step i) }
        ensures { IfOk result (λ rows. rows ≡ map (row_at_place ty self.now.from self.now.step) (range_with_len 0 count)) }
    {
        let mut rows = Rows::new(alloc);
        for i in 0..count {
            let mut row = Vec::new(alloc);
            row.push(self.value_at(ty, i))?;
            rows.push_from(&mut row)?;
        }
        Ok(rows)
    }

    fn value_at(&self, ty: Ty, i: u64) -> Value
        requires few { i < 1048576 }
        requires fits { FitsSigned w64 (number_at self.now.from self.now.step i) }
        ensures { result ≡ number_as ty (number_at self.now.from self.now.step i) }
    {
        let number = (i128::from(self.from) + i as i128 * i128::from(self.step)) as i64;
        match ty {
            Ty::Moment => Value::Moment(number),
            Ty::Span => Value::Span(number),
            _ => Value::Long(number),
        }
    }
}
