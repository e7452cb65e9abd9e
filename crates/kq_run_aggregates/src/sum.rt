// Exact sums.
ghost use Rattle.std.specs.Prelude.{◌≡◌, ◌+◌, ◌+ℤ◌, ◌≤◌, ◌^◌, List, pos, unsigned_abs, OnOk, OnErr};
ghost use Rattle.kq_value.specs.Computed.{Answers};
ghost use Rattle.kq_run_aggregates.specs.Holds.{amount, sum_in};

use kq_value::{EvalFault, Memory, Ty, Value};
use std::alloc::AllocError;
use std::marker::Model;

// The sum of the numbers of some values. Contracts see it.
#[derive(Drop)]
pub(crate) struct Sum {
    total: i128,
}

impl Model for Sum {
    ghost use Rattle.std.specs.Prelude.{ℤ};

    ghost Value = { ℤ };

    ghost view = { λ s. s.total };
}

impl Sum {
    pub(crate) fn new() -> Sum
        ensures { result ≡ pos 0 }
    {
        Sum { total: 0 }
    }

    pub(crate) fn step(&mut self, value: &Value) -> Result<(), Memory>
        ensures ok { OnOk result (self.new ≡ self.old +ℤ amount value.now) }
        ensures err { OnErr result ((self.new ≡ self.old) × (2 ^ 126 ≤ unsigned_abs self.old)) }
    {
        self.step_number(amount(value))
    }

    pub(crate) fn step_number(&mut self, number: i64) -> Result<(), Memory>
        ensures ok { OnOk result (self.new ≡ self.old +ℤ number) }
        ensures err { OnErr result ((self.new ≡ self.old) × (2 ^ 126 ≤ unsigned_abs self.old)) }
    {
        self.add(number as i128)
    }

    pub(crate) fn merge(&mut self, other: &Sum) -> Result<(), Memory>
        ensures ok { OnOk result (self.new ≡ self.old +ℤ other.now) }
        ensures err { OnErr result ((self.new ≡ self.old) × (2 ^ 127 ≤ unsigned_abs self.old + unsigned_abs other.now)) }
    {
        self.add(other.total)
    }

    fn add(&mut self, number: i128) -> Result<(), Memory>
        ensures ok { OnOk result (self.new ≡ self.old +ℤ number) }
        ensures err { OnErr result ((self.new ≡ self.old) × (2 ^ 127 ≤ unsigned_abs self.old + unsigned_abs number)) }
    {
        let Some(total) = self.total.checked_add(number) else {
            return Err(AllocError);
        };
        self.total = total;
        Ok(())
    }

    pub(crate) fn finish(&self, types: &[Ty]) -> Result<Value, EvalFault>
        ensures { Answers (sum_in types.now self.now) result }
    {
        let Ok(total) = i64::try_from(self.total) else {
            return Err(EvalFault::Overflow);
        };
        match types {
            [Ty::Span, ..] => Ok(Value::Span(total)),
            _ => Ok(Value::Long(total)),
        }
    }
}

fn amount(value: &Value) -> i64
    ensures { result ≡ amount value.now }
{
    match value {
        Value::Long(n) | Value::Moment(n) | Value::Span(n) => *n,
        Value::Int(n) => i64::from(*n),
        _ => 0,
    }
}
