// The numbers of the keys whose cells stand in several columns.
ghost use Rattle.std.specs.Prelude.{◌≡◌, ◌<◌, ◌+◌, ◌⊎◌, ◌++◌, ◌∷◌, [], IfOk, IfSome, OnOk, get_or, length, map};
ghost use Rattle.kq_store_rows.specs.Chunks.{row_at};
ghost use Rattle.kq_value.specs.Same.{times};
ghost use Rattle.kq_store_column_view.specs.Vectors.{cells_of};
ghost use Rattle.kq_run_aggregates.specs.Across.{across};
ghost use Rattle.kq_run_groups.specs.Columns.{AreNumbersAcross, HaveLength, SameCodes, Tell, rows_of};
ghost use Rattle.kq_run_groups.specs.Keys.{IsTable, Numbers};

use crate::codes::{all_codes, are_same, mixed};
use crate::hint::Hint;
use crate::key_table::KeyTable;
use kq_run_aggregates::row_across;
use kq_store_column_view::Vector;
use kq_value::Memory;
use std::alloc::Global;

impl KeyTable {
    // The numbers of so many keys, whose cells stand in these columns. Each key is looked for once, but for a few that share a place of the hint.
    pub(crate) fn numbers_of_columns(
        &mut self,
        alloc: Global,
        columns: &[Vector<'_>],
        count: usize,
        hint: &mut Hint,
    ) -> Result<Vec<u32>, Memory>
        requires table { IsTable self.old }
        requires wide { self.old.width ≡ length columns.now }
        requires along { HaveLength count (map cells_of columns.now) }
        ensures table { IsTable self.new }
        ensures numbers { IfOk result (λ v. Numbers self.old.keys self.new.keys v.items (rows_of count (map cells_of columns.now))) }
        ensures width { self.new.width ≡ self.old.width }
    {
        let codes = all_codes(alloc, columns)?;
        hint.widen(alloc, count)?;
        let mut numbers = Vec::with_capacity(alloc, count)?;
        for i in 0..count {
            let number = self.number_of_row(
                alloc,
                columns,
                codes.as_slice(),
                i,
                numbers.as_slice(),
                hint,
            )?;
            numbers.push(number)?;
        }
        Ok(numbers)
    }

    // Where the hint names an earlier row, the codes of both are compared, and no key is made.
    fn number_of_row(
        &mut self,
        alloc: Global,
        columns: &[Vector<'_>],
        codes: &[Vec<i64>],
        row: usize,
        numbers: &[u32],
        hint: &mut Hint,
    ) -> Result<u32, Memory>
        requires table { IsTable self.old }
        requires wide { self.old.width ≡ length columns.now }
        requires next { length numbers.now ≡ row }
        requires told { Tell (row + 1) codes.now (map cells_of columns.now) }
        requires so_far { AreNumbersAcross self.old.keys numbers.now (map cells_of columns.now) }
        ensures table { IsTable self.new }
        ensures number { IfOk result (λ n. (n < length self.new.keys) × (row_at self.new.keys n ≡ across (map cells_of columns.now) row)) }
        ensures keys { OnOk result ((self.new.keys ≡ self.old.keys) ⊎ ((times (across (map cells_of columns.now) row) self.old.keys ≡ 0) × (self.new.keys ≡ self.old.keys ++ across (map cells_of columns.now) row ∷ []))) }
        ensures width { self.new.width ≡ self.old.width }
    {
        let mix = mixed(codes, row);
        if let Some(number) = number_at(codes, row, numbers, hint.of(mix)) {
            return Ok(number);
        }
        let number = self.number_across(alloc, columns, row)?;
        hint.note(mix, u32::try_from(row).unwrap_or(u32::MAX));
        Ok(number)
    }

    fn number_across(
        &mut self,
        alloc: Global,
        columns: &[Vector<'_>],
        row: usize,
    ) -> Result<u32, Memory>
        requires table { IsTable self.old }
        requires wide { self.old.width ≡ length columns.now }
        ensures table { IsTable self.new }
        ensures number { IfOk result (λ n. (n < length self.new.keys) × (row_at self.new.keys n ≡ across (map cells_of columns.now) row)) }
        ensures keys { OnOk result ((self.new.keys ≡ self.old.keys) ⊎ ((times (across (map cells_of columns.now) row) self.old.keys ≡ 0) × (self.new.keys ≡ self.old.keys ++ across (map cells_of columns.now) row ∷ []))) }
        ensures width { self.new.width ≡ self.old.width }
    {
        let key = row_across(alloc, columns, row)?;
        self.number(alloc, key.as_slice())
    }
}

// The number of the row at this place, if it is one of those that have numbers and has the same codes.
fn number_at(codes: &[Vec<i64>], row: usize, numbers: &[u32], place: u32) -> Option<u32>
    ensures { IfSome result (λ n. (place < length numbers.now) × (n ≡ get_or numbers.now place 0) × SameCodes place row codes.now) }
{
    let at = place as usize;
    if at < numbers.len() && are_same(codes, at, row) {
        Some(numbers[at])
    } else {
        None
    }
}
