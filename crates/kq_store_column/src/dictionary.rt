// Columns whose words repeat.
ghost use Rattle.std.specs.Prelude.{◌≡◌, ◌<◌, ◌≤◌, ◌-◌, ◌^◌, ◌∷◌, ◌++◌, All, flat_map, get_or, length, map, take, drop, IfOk, IfSome, OnErr, OnOk, Some, slice_get};
ghost use Rattle.kq_store_column.specs.Built.{AreCoded};
ghost use Rattle.kq_store_column.specs.Cells.{column_of, IsWider};
ghost use Rattle.kq_store_column.specs.Words.{word_at};
ghost use Rattle.kq_store_column_view.specs.Vectors.{cell_of, cells_of};

use crate::cells::cell_at;
use crate::hint::Hint;
use crate::zone::Cellwise;
use kq_store_column_view::{Vector, copies};
use kq_store_rows::Rows;
use kq_value::{Memory, Value};
use std::alloc::Global;
use std::marker::Model;

// Fewer rows than these keep their values as they are.
pub(crate) const FEWEST_ROWS: usize = 64;

// A dictionary has at most so many words, and one more for each four rows.
pub(crate) const FEW_WORDS: usize = 64;

// So many words of a bucket are looked at, so that words whose hashes are made to meet cost no long walks. A word further back is put in again.
const LONGEST_WALK: usize = 64;

// Words, and for each row the code of its cell: the place of it among the words. Contracts see the cells.
#[derive(Drop)]
pub(crate) struct Dictionary {
    words: Vec<Value>,
    codes: Vec<u32>,
}

impl Model for Dictionary {
    ghost use Rattle.std.specs.Prelude.{◌<◌, All, List, map, length};
    ghost use Rattle.kq_value.specs.declared.value.Value.{Value as Cell};
    ghost use Rattle.std.specs.Coded.{coded_list};
    ghost use Rattle.kq_value.specs.contracts.value.Value as cell;
    ghost use Rattle.kq_store_column.specs.Words.{word_at};

    ghost Value = { List Cell };

    ghost coded = { coded_list cell.the_row.coded };

    ghost view = { λ c. map (word_at c.words.items) c.codes.items };

    ghost invariant = { λ c. All (λ code. code < length c.words.items) c.codes.items };
}

// The code of a cell that is among the newest words of its bucket.
fn find(words: &[Value], hint: &Hint, cell: &Value, hash: u64) -> Option<u32>
    ensures { IfSome result (λ code. slice_get words.now code ≡ Some cell.now) }
{
    let mut word = hint.newest(hash);
    for _ in 0..LONGEST_WALK {
        let code = word.checked_sub(1)?;
        if words.get(code as usize)?.same(cell) {
            return Some(code);
        }
        word = hint.before(word);
    }
    None
}

// The code of a cell, which is put among the words where it isn't found.
pub(crate) fn code_of(words: &mut Vec<Value>, hint: &mut Hint, cell: &Value) -> Result<u32, Memory>
    requires { length words.old.items < 2 ^ 32 }
    ensures code { IfOk result (λ code. slice_get words.new.items code ≡ Some cell.now) }
    ensures words { OnOk result (take (length words.old.items) words.new.items ≡ words.old.items) }
    ensures err { OnErr result (words.new.items ≡ words.old.items) }
{
    let hash = cell.hash64();
    if let Some(code) = find(words.as_slice(), hint, cell, hash) {
        return Ok(code);
    }
    let code = words.len() as u32;
    let word = cell.clone_in()?;
    hint.add(hash)?;
    words.push(word)?;
    Ok(code)
}

impl Dictionary {
    pub fn from_parts(words: Vec<Value>, codes: Vec<u32>) -> Dictionary
        requires { All (λ code. code < length words.items) codes.items }
        ensures { result ≡ map (word_at words.items) codes.items }
    {
        Dictionary { words, codes }
    }

    /// The cells of a column of rows; None where they repeat so little that a dictionary doesn't pay.
    pub fn build(alloc: Global, rows: &Rows, column: usize) -> Result<Option<Dictionary>, Memory>
        requires { All (IsWider column) rows.now }
        ensures { IfOk result (λ found. IfSome found (λ c. c ≡ column_of column rows.now)) }
    {
        if rows.len() < FEWEST_ROWS {
            return Ok(None);
        }
        let mut words = Vec::new(alloc);
        let mut codes = Vec::with_capacity(alloc, rows.len())?;
        let mut hint = Hint::new(alloc, FEW_WORDS + rows.len() / 4)?;
        for i in 0..rows.len() {
            if words.len() >= FEW_WORDS + i / 4 || words.len() >= u32::MAX as usize {
                return Ok(None);
            }
            let code = code_of(&mut words, &mut hint, cell_at(rows, column, i))?;
            codes.push(code)?;
        }
        Ok(Some(Dictionary { words, codes }))
    }

    pub fn len(&self) -> usize
        ensures count { result ≡ length self.now }
        ensures small { result < 2 ^ 63 }
    {
        self.codes.len()
    }

    /// A cell, lent.
    pub fn cell(&self, index: usize) -> &Value
        requires { index < length self.now }
        ensures { slice_get self.now index ≡ Some result.now }
    {
        &self.words[self.codes[index] as usize]
    }

    /// The cells from a place on, up to another, lent.
    pub fn lend(&self, from: usize, to: usize) -> Vector<'_>
        requires { (from ≤ to) × (to ≤ length self.now) }
        ensures { cells_of result ≡ take (to - from) (drop from self.now) }
    {
        Vector::Words(&self.words, &self.codes[from..to])
    }

    /// The cells of parts, one part after another; None where they are few, or repeat so little that a dictionary doesn't pay.
    pub fn joined(alloc: Global, parts: &[Vector]) -> Result<Option<Dictionary>, Memory>
        ensures { IfOk result (λ found. IfSome found (λ c. c ≡ flat_map cells_of parts.now)) }
    {
        let count = count_in(parts);
        if count < FEWEST_ROWS {
            return Ok(None);
        }
        let most = FEW_WORDS + count / 4;
        let mut words = Vec::new(alloc);
        let mut codes = Vec::with_capacity(alloc, count)?;
        let mut hint = Hint::new(alloc, most)?;
        for part in parts {
            match part_codes(alloc, part, most, &mut words, &mut hint)? {
                Some(more) => codes.extend_from_slice(&more)?,
                None => return Ok(None),
            }
        }
        Ok(Some(Dictionary { words, codes }))
    }
}

impl Cellwise for Dictionary {
    ghost cells = { λ c. c };

    fn count(&self) -> usize {
        self.len()
    }

    fn lent(&self, index: usize) -> &Value {
        self.cell(index)
    }
}

// How many cells the parts have.
fn count_in(parts: &[Vector]) -> usize {
    let mut count: usize = 0;
    for part in parts {
        count = count.saturating_add(part.len());
    }
    count
}

// The codes of the cells of a part, which are put among the words where they aren't found; None once there are so many words. Of a part that has
// a dictionary of its own each word is looked for once.
fn part_codes(
    alloc: Global,
    part: &Vector,
    most: usize,
    words: &mut Vec<Value>,
    hint: &mut Hint,
) -> Result<Option<Vec<u32>>, Memory>
    ensures codes { IfOk result (λ found. IfSome found (λ codes. AreCoded words.new.items codes.items (cells_of part.now))) }
    ensures words { OnOk result (take (length words.old.items) words.new.items ≡ words.old.items) }
{
    if let Some((lent, codes)) = part.words() {
        return renamed_codes(alloc, lent, codes, most, words, hint);
    }
    if let Some(cells) = part.cells() {
        return codes_of(alloc, cells, most, words, hint);
    }
    let cells = copies(alloc, part)?;
    codes_of(alloc, &cells, most, words, hint)
}

// The same of cells that have words and codes already.
fn renamed_codes(
    alloc: Global,
    lent: &[Value],
    old: &[u32],
    most: usize,
    words: &mut Vec<Value>,
    hint: &mut Hint,
) -> Result<Option<Vec<u32>>, Memory>
    ensures codes { IfOk result (λ found. IfSome found (λ codes. AreCoded words.new.items codes.items (map (cell_of lent.now) old.now))) }
    ensures words { OnOk result (take (length words.old.items) words.new.items ≡ words.old.items) }
{
    match codes_of(alloc, lent, most, words, hint)? {
        Some(new) => renamed(alloc, &new, old),
        None => Ok(None),
    }
}

// The same of cells that stand by themselves.
fn codes_of(
    alloc: Global,
    cells: &[Value],
    most: usize,
    words: &mut Vec<Value>,
    hint: &mut Hint,
) -> Result<Option<Vec<u32>>, Memory>
    ensures codes { IfOk result (λ found. IfSome found (λ codes. AreCoded words.new.items codes.items cells.now)) }
    ensures words { OnOk result (take (length words.old.items) words.new.items ≡ words.old.items) }
{
    let mut codes = Vec::with_capacity(alloc, cells.len())?;
    for i in 0..cells.len() {
        if words.len() >= most || words.len() >= u32::MAX as usize {
            return Ok(None);
        }
        let code = code_of(words, hint, &cells[i])?;
        codes.push(code)?;
    }
    Ok(Some(codes))
}

// The new codes of old ones; None where one has none.
fn renamed(alloc: Global, new: &[u32], old: &[u32]) -> Result<Option<Vec<u32>>, Memory>
    ensures known { IfOk result (λ found. IfSome found (λ codes. All (λ code. code < length new.now) old.now)) }
    ensures codes { IfOk result (λ found. IfSome found (λ codes. codes.items ≡ map (λ code. get_or new.now code 0) old.now)) }
{
    let mut codes = Vec::with_capacity(alloc, old.len())?;
    for code in old {
        if *code as usize >= new.len() {
            return Ok(None);
        }
        codes.push(new[*code as usize])?;
    }
    Ok(Some(codes))
}
