// Codes that tell the rows of several columns apart.
ghost use Rattle.std.specs.Prelude.{◌≡◌, ℕ, IfOk, map, pos, true};
ghost use Rattle.kq_store_column_view.specs.Vectors.{cells_of};
ghost use Rattle.kq_run_groups.specs.Columns.{HaveLength, SameCodes, Tell, TellCells, code_of};

use crate::key_table::KeyTable;
use kq_run_aggregates::numbers_in;
use kq_store_column_view::Vector;
use kq_value::Memory;
use std::alloc::Global;

// Multiples of it spread over all bits: 2^64 divided by the golden ratio.
const SPREAD: u64 = 0x9e37_79b9_7f4a_7c15;

// For each of the columns a code for each cell.
pub(crate) fn all_codes(alloc: Global, columns: &[Vector<'_>]) -> Result<Vec<Vec<i64>>, Memory>
    ensures { IfOk result (λ v. (n : ℕ) → HaveLength n (map cells_of columns.now) → Tell n v.items (map cells_of columns.now)) }
{
    let mut codes = Vec::with_capacity(alloc, columns.len())?;
    for column in columns {
        codes.push(codes_of(alloc, column)?)?;
    }
    Ok(codes)
}

// A number is its own code, and the code of a word is one of the column's. Other cells are numbered.
fn codes_of(alloc: Global, column: &Vector<'_>) -> Result<Vec<i64>, Memory>
    ensures { IfOk result (λ v. TellCells v.items (cells_of column.now)) }
{
    if let Some((_, values)) = numbers_in(column) {
        return values.to_vec(alloc);
    }
    if let Some((_, codes)) = column.words() {
        return widened(alloc, codes);
    }
    codes_of_cells(alloc, column)
}

fn codes_of_cells(alloc: Global, column: &Vector<'_>) -> Result<Vec<i64>, Memory>
    ensures { IfOk result (λ v. TellCells v.items (cells_of column.now)) }
{
    let mut table = KeyTable::new(alloc, 1)?;
    let numbers = table.numbers_of_cells(alloc, column)?;
    widened(alloc, numbers.as_slice())
}

fn widened(alloc: Global, codes: &[u32]) -> Result<Vec<i64>, Memory>
    ensures { IfOk result (λ v. v.items ≡ map pos codes.now) }
{
    let mut wide = Vec::with_capacity(alloc, codes.len())?;
    for code in codes {
        wide.push(i64::from(*code))?;
    }
    Ok(wide)
}

// Whether two rows have the same code in each column.
pub(crate) fn are_same(codes: &[Vec<i64>], p: usize, q: usize) -> bool
    ensures { result ≡ true → SameCodes p q codes.now }
{
    for one in codes {
        if code_at(one.as_slice(), p) != code_at(one.as_slice(), q) {
            return false;
        }
    }
    true
}

// A number for the codes of a row, of which nothing is claimed.
pub(crate) fn mixed(codes: &[Vec<i64>], row: usize) -> i64 {
    let mut mix: u64 = 0;
    for one in codes {
        let code = code_at(one.as_slice(), row).cast_unsigned();
        mix = mix.wrapping_mul(SPREAD).wrapping_add(code);
    }
    mix.cast_signed()
}

fn code_at(codes: &[i64], row: usize) -> i64
    ensures { result ≡ code_of codes.now row }
{
    if row < codes.len() { codes[row] } else { 0 }
}
