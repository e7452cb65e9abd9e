// Rows that may be among the first ones, of rows that come one by one.
ghost use Rattle.std.specs.Prelude.{◌≡◌, ◌++◌, ◌∷◌, ℕ, List, [], IfOk, IfSome, OnOk, false, length};
ghost use Rattle.std.specs.List.{All};
ghost use Rattle.kq_value.specs.Computed.{Is};
ghost use Rattle.kq_plan.specs.Plans.{Sorting, sorting_of};
ghost use Rattle.kq_store_rows.specs.Chunks.{HasWidth};
ghost use Rattle.kq_eval_row.specs.Val.{Surroundings, surroundings};
ghost use Rattle.kq_run_sort.specs.Answered.{AnswersOne};
ghost use Rattle.kq_run_sort.specs.Leading.{IsLastKey, Lead, Settles};
ghost use Rattle.kq_run_sort.specs.Orders.{Row, Topped, keys_at};

use crate::sort::{compare_values, row_in, top_rows, value_of};
use kq_plan::SortKey;
use kq_store_rows::Rows;
use kq_value::{EvalFault, Memory, Value};
use std::alloc::{AllocError, Global};

/// The rows that may be among the first of an order by one key, of all that came so far. Where so many are kept, those behind the bound are passed
/// over.
#[derive(Drop)]
pub struct Leaders {
    rows: Rows,
    bound: Option<Value>,
}

impl Leaders {
    pub fn new(alloc: Global) -> Leaders
        ensures lead { (n : ℕ) (k : Sorting) (s : Surroundings) → Lead n k s [] result }
        ensures rows { result.rows ≡ [] }
    {
        Leaders {
            rows: Rows::new(alloc),
            bound: None,
        }
    }

    /// The number of rows that are kept.
    pub fn len(&self) -> usize
        ensures { result ≡ length self.now.rows }
    {
        self.rows.len()
    }

    /// Whether a row with this value of the key may be among the first ones.
    pub fn asks_for(&self, key: &SortKey, value: &Value) -> bool
        ensures { result ≡ false → (n : ℕ) (s : Surroundings) (all : List Row) (r : Row) → keys_at (sorting_of key.now ∷ []) s r ≡ Is (value.now ∷ []) → Lead n (sorting_of key.now) s all self.now → Lead n (sorting_of key.now) s (all ++ r ∷ []) self.now }
    {
        match &self.bound {
            Some(bound) => compare_values(key, value, bound).is_lt(),
            None => true,
        }
    }

    /// Keeps a row: its cells move in.
    pub fn push(&mut self, row: &mut Vec<Value>) -> Result<(), Memory>
        requires { All (HasWidth (length row.old.items)) self.old.rows }
        ensures lead { OnOk result ((n : ℕ) (k : Sorting) (s : Surroundings) (all : List Row) → Lead n k s all self.old → Lead n k s (all ++ row.old.items ∷ []) self.new) }
        ensures rows { OnOk result (self.new.rows ≡ self.old.rows ++ row.old.items ∷ []) }
        ensures left { OnOk result (row.new.items ≡ []) }
    {
        self.rows.push_from(row)
    }

    /// Keeps the first ones alone, where twice as many are kept. An overflow of a key is one of all rows, whatever comes behind.
    pub fn settle(
        &mut self,
        alloc: Global,
        count: u64,
        key: &SortKey,
        lets: &[Value],
        now: i64,
    ) -> Result<(), EvalFault>
        ensures settles { Settles count (sorting_of key.now) (surroundings now lets.now) self.old self.new result }
        ensures wide { (w : ℕ) → All (HasWidth w) self.old.rows → All (HasWidth w) self.new.rows }
    {
        if self.rows.len() as u64 / 2 < count {
            return Ok(());
        }
        match top_rows(alloc, &self.rows, count, key, lets, now) {
            Ok(few) => {
                let bound = last_key(alloc, &few, count, key, lets, now)?;
                self.rows = few;
                self.bound = bound;
                Ok(())
            }
            Err(fault) => Err(fault),
        }
    }

    /// The first of all rows that came.
    pub fn first(
        &self,
        alloc: Global,
        count: u64,
        key: &SortKey,
        lets: &[Value],
        now: i64,
    ) -> Result<Rows, EvalFault>
        ensures { (all : List Row) → Lead count (sorting_of key.now) (surroundings now lets.now) all self.now → AnswersOne (Topped count (sorting_of key.now) (surroundings now lets.now) all) result }
    {
        top_rows(alloc, &self.rows, count, key, lets, now)
    }
}

// The value of the key over the last row, where there are so many.
fn last_key(
    alloc: Global,
    rows: &Rows,
    count: u64,
    key: &SortKey,
    lets: &[Value],
    now: i64,
) -> Result<Option<Value>, Memory>
    ensures { IfOk result (λ o. IfSome o (IsLastKey count (sorting_of key.now) (surroundings now lets.now) rows.now)) }
{
    if rows.is_empty() || rows.len() as u64 != count {
        return Ok(None);
    }
    let last = row_in(rows, rows.len() - 1);
    match value_of(alloc, &key.value, last, lets, now) {
        Ok(value) => Ok(Some(value)),
        Err(EvalFault::Overflow) => Ok(None),
        Err(EvalFault::Memory) => Err(AllocError),
    }
}
