// The numbers of the keys that stand in a column.
ghost use Rattle.std.specs.Prelude.{◌≡◌, ◌<◌, ◌≤◌, ◌⊎◌, ◌++◌, ◌∷◌, [], IfOk, None, Some, OnOk, true, get_or, length, map, replicate, set};
ghost use Rattle.kq_store_rows.specs.Chunks.{row_at};
ghost use Rattle.kq_run_aggregates.specs.Alone.{alone, cell_as, each_alone};
ghost use Rattle.kq_value.specs.Same.{times};
ghost use Rattle.kq_store_column_view.specs.Vectors.{cell_of, cells_of};
ghost use Rattle.kq_run_groups.specs.Keys.{AreKnown, IsTable, Numbers};

use crate::hint::Hint;
use crate::key_table::KeyTable;
use kq_run_aggregates::{Reading, numbers_in};
use kq_store_column_view::Vector;
use kq_value::{Memory, Ty, Value};
use std::alloc::Global;
use std::slice::from_ref;

impl KeyTable {
    // The numbers of so many keys of no cells, which are all the same.
    pub(crate) fn numbers_without_cells(
        &mut self,
        alloc: Global,
        count: usize,
    ) -> Result<Vec<u32>, Memory>
        requires table { IsTable self.old }
        requires wide { self.old.width ≡ 0 }
        ensures table { IsTable self.new }
        ensures numbers { IfOk result (λ v. Numbers self.old.keys self.new.keys v.items (replicate count [])) }
        ensures width { self.new.width ≡ self.old.width }
    {
        if count == 0 {
            return Ok(Vec::new(alloc));
        }
        let number = self.number(alloc, &[])?;
        let numbers = vec![in alloc; number; count]?;
        Ok(numbers)
    }

    // The numbers of keys of one cell each, those of a column, in order. Those that are new come last.
    pub(crate) fn numbers_of_column(
        &mut self,
        alloc: Global,
        column: &Vector<'_>,
        hint: &mut Hint,
    ) -> Result<Vec<u32>, Memory>
        requires table { IsTable self.old }
        requires wide { self.old.width ≡ 1 }
        ensures table { IsTable self.new }
        ensures numbers { IfOk result (λ v. Numbers self.old.keys self.new.keys v.items (each_alone (cells_of column.now))) }
        ensures width { self.new.width ≡ self.old.width }
    {
        if let Some((reading, values)) = numbers_in(column) {
            return self.numbers_by_hint(alloc, reading, values, hint);
        }
        if let Some((words, codes)) = column.words() {
            return self.numbers_of_words(alloc, words, codes);
        }
        self.numbers_of_cells(alloc, column)
    }

    fn numbers_by_hint(
        &mut self,
        alloc: Global,
        reading: Reading,
        values: &[i64],
        hint: &mut Hint,
    ) -> Result<Vec<u32>, Memory>
        requires table { IsTable self.old }
        requires wide { self.old.width ≡ 1 }
        ensures table { IsTable self.new }
        ensures numbers { IfOk result (λ v. Numbers self.old.keys self.new.keys v.items (each_alone (map (cell_as reading) values.now))) }
        ensures width { self.new.width ≡ self.old.width }
    {
        if hint.widen(alloc, self.keys.len())? {
            self.note_all(reading, hint);
        }
        let mut numbers = Vec::with_capacity(alloc, values.len())?;
        for i in 0..values.len() {
            let number = self.number_by_hint(alloc, reading, values[i], hint)?;
            numbers.push(number)?;
        }
        Ok(numbers)
    }

    // Notes the numbers of all keys, which a hint with more buckets has forgotten.
    fn note_all(&self, reading: Reading, hint: &mut Hint)
        requires { IsTable self.now }
    {
        for number in 0..self.keys.len() {
            if let Some(value) = value_of(self.keys.row(number), reading) {
                hint.note(value, number as u32);
            }
        }
    }

    // Where the hint names a number, the key there is compared, and no hash is taken.
    fn number_by_hint(
        &mut self,
        alloc: Global,
        reading: Reading,
        value: i64,
        hint: &mut Hint,
    ) -> Result<u32, Memory>
        requires table { IsTable self.old }
        requires wide { self.old.width ≡ 1 }
        ensures table { IsTable self.new }
        ensures number { IfOk result (λ n. (n < length self.new.keys) × (row_at self.new.keys n ≡ alone (cell_as reading value))) }
        ensures keys { OnOk result ((self.new.keys ≡ self.old.keys) ⊎ ((times (alone (cell_as reading value)) self.old.keys ≡ 0) × (self.new.keys ≡ self.old.keys ++ alone (cell_as reading value) ∷ []))) }
        ensures width { self.new.width ≡ self.old.width }
    {
        let hinted = hint.of(value);
        if self.is_value_at(hinted, reading, value) {
            return Ok(hinted);
        }
        let cell = reading.cell(value);
        let number = self.number(alloc, from_ref(&cell))?;
        hint.note(value, number);
        Ok(number)
    }

    // Whether the key with this number is there and is this number alone.
    fn is_value_at(&self, number: u32, reading: Reading, value: i64) -> bool
        requires { IsTable self.now }
        ensures { result ≡ true → (number < length self.now.keys) × (row_at self.now.keys number ≡ alone (cell_as reading value)) }
    {
        if (number as usize) < self.keys.len() {
            is_value(self.keys.row(number as usize), reading, value)
        } else {
            false
        }
    }

    // Each word is looked for once.
    fn numbers_of_words(
        &mut self,
        alloc: Global,
        words: &[Value],
        codes: &[u32],
    ) -> Result<Vec<u32>, Memory>
        requires table { IsTable self.old }
        requires wide { self.old.width ≡ 1 }
        ensures table { IsTable self.new }
        ensures numbers { IfOk result (λ v. Numbers self.old.keys self.new.keys v.items (each_alone (map (cell_of words.now) codes.now))) }
        ensures width { self.new.width ≡ self.old.width }
    {
        let mut known = vec![in alloc; None; words.len()]?;
        let mut numbers = Vec::with_capacity(alloc, codes.len())?;
        for i in 0..codes.len() {
            let number = self.number_of_code(alloc, words, codes[i], &mut known)?;
            numbers.push(number)?;
        }
        Ok(numbers)
    }

    fn number_of_code(
        &mut self,
        alloc: Global,
        words: &[Value],
        code: u32,
        known: &mut Vec<Option<u32>>,
    ) -> Result<u32, Memory>
        requires table { IsTable self.old }
        requires wide { self.old.width ≡ 1 }
        requires known { AreKnown self.old.keys words.now known.old.items }
        ensures table { IsTable self.new }
        ensures number { IfOk result (λ n. (n < length self.new.keys) × (row_at self.new.keys n ≡ alone (cell_of words.now code))) }
        ensures keys { OnOk result ((self.new.keys ≡ self.old.keys) ⊎ ((times (alone (cell_of words.now code)) self.old.keys ≡ 0) × (self.new.keys ≡ self.old.keys ++ alone (cell_of words.now code) ∷ []))) }
        ensures known { OnOk result (AreKnown self.new.keys words.now known.new.items) }
        ensures width { self.new.width ≡ self.old.width }
    {
        let at = code as usize;
        if let Some(number) = known_at(known, at) {
            return Ok(number);
        }
        let number = self.number_of_word(alloc, words, at)?;
        note(known, at, number);
        Ok(number)
    }

    fn number_of_word(&mut self, alloc: Global, words: &[Value], at: usize) -> Result<u32, Memory>
        requires table { IsTable self.old }
        requires wide { self.old.width ≡ 1 }
        ensures table { IsTable self.new }
        ensures number { IfOk result (λ n. (n < length self.new.keys) × (row_at self.new.keys n ≡ alone (cell_of words.now at))) }
        ensures keys { OnOk result ((self.new.keys ≡ self.old.keys) ⊎ ((times (alone (cell_of words.now at)) self.old.keys ≡ 0) × (self.new.keys ≡ self.old.keys ++ alone (cell_of words.now at) ∷ []))) }
        ensures width { self.new.width ≡ self.old.width }
    {
        if at < words.len() {
            self.number(alloc, from_ref(&words[at]))
        } else {
            self.number(alloc, from_ref(&Value::Null(Ty::Long)))
        }
    }

    pub(crate) fn numbers_of_cells(
        &mut self,
        alloc: Global,
        column: &Vector<'_>,
    ) -> Result<Vec<u32>, Memory>
        requires table { IsTable self.old }
        requires wide { self.old.width ≡ 1 }
        ensures table { IsTable self.new }
        ensures numbers { IfOk result (λ v. Numbers self.old.keys self.new.keys v.items (each_alone (cells_of column.now))) }
        ensures width { self.new.width ≡ self.old.width }
    {
        let mut numbers = Vec::with_capacity(alloc, column.len())?;
        for i in 0..column.len() {
            let number = self.number_of_cell(alloc, column, i)?;
            numbers.push(number)?;
        }
        Ok(numbers)
    }

    fn number_of_cell(
        &mut self,
        alloc: Global,
        column: &Vector<'_>,
        i: usize,
    ) -> Result<u32, Memory>
        requires table { IsTable self.old }
        requires wide { self.old.width ≡ 1 }
        ensures table { IsTable self.new }
        ensures number { IfOk result (λ n. (n < length self.new.keys) × (row_at self.new.keys n ≡ alone (cell_of (cells_of column.now) i))) }
        ensures keys { OnOk result ((self.new.keys ≡ self.old.keys) ⊎ ((times (alone (cell_of (cells_of column.now) i)) self.old.keys ≡ 0) × (self.new.keys ≡ self.old.keys ++ alone (cell_of (cells_of column.now) i) ∷ []))) }
        ensures width { self.new.width ≡ self.old.width }
    {
        let cell = column.cell(i)?;
        self.number(alloc, from_ref(&cell))
    }
}

// The number that a key is, read so.
fn value_of(key: &[Value], reading: Reading) -> Option<i64> {
    match (reading, key) {
        (Reading::Long, [Value::Long(value)]) => Some(*value),
        (Reading::Moment, [Value::Moment(value)]) => Some(*value),
        (Reading::Span, [Value::Span(value)]) => Some(*value),
        _ => None,
    }
}

fn is_value(key: &[Value], reading: Reading, value: i64) -> bool
    ensures { result ≡ true → key.now ≡ alone (cell_as reading value) }
{
    match (reading, key) {
        (Reading::Long, [Value::Long(other)]) => *other == value,
        (Reading::Moment, [Value::Moment(other)]) => *other == value,
        (Reading::Span, [Value::Span(other)]) => *other == value,
        _ => false,
    }
}

fn known_at(known: &[Option<u32>], at: usize) -> Option<u32>
    ensures { result ≡ get_or known.now at None }
{
    if at < known.len() { known[at] } else { None }
}

// Notes a number, where there is room for it.
fn note(known: &mut Vec<Option<u32>>, at: usize, number: u32)
    ensures within { at < length known.old.items → known.new.items ≡ set known.old.items at (Some number) }
    ensures past { length known.old.items ≤ at → known.new.items ≡ known.old.items }
{
    if at < known.len() {
        known[at] = Some(number);
    }
}
