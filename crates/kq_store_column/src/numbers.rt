// Columns of numbers.
ghost use Rattle.std.specs.Prelude.{◌≡◌, ◌<◌, ◌≤◌, ◌-◌, ◌^◌, ◌||◌, ◌++◌, ◌∷◌, [], All, Bool, List, flat_map, false, length, map, replicate, FitsSigned, IfOk, IfSome, IsTrue, OnErr, OnOk, Some, slice_get, take, drop};
ghost use Rattle.std.specs.Int.{w32};
ghost use Rattle.kq_value.specs.declared.ty.Ty.TheVariants.{Int};
ghost use Rattle.kq_value.specs.declared.value.Value.{Value as Cell};
ghost use Rattle.kq_value.specs.Typed.{HasType};
ghost use Rattle.kq_store_column.specs.Built.{AreBuilt};
ghost use Rattle.kq_store_column.specs.Cells.{column_of, IsWider};
ghost use Rattle.kq_store_column.specs.Growing.{AreGrown};
ghost use Rattle.kq_store_column_view.specs.Numbers.{marked, number_cell, AreNumbers, IsOfNumbers};
ghost use Rattle.kq_store_column.specs.Zones.{is_zone};
ghost use Rattle.kq_store_column_view.specs.Vectors.{cells_of};

use crate::cells::cell_at;
use kq_store_column_view::{MarkedNumbers, Vector, lent_numbers, value_of};
use kq_store_rows::Rows;
use kq_value::{Memory, Ty, Value};
use std::alloc::Global;
use std::marker::Model;

// Numbers of one type, with a mark for each that says whether it is null; the marks are left out where none is. Contracts see the cells.
#[derive(Drop)]
pub(crate) struct Numbers {
    ty: Ty,
    numbers: Vec<i64>,
    nulls: Vec<bool>,
}

impl Model for Numbers {
    ghost use Rattle.std.specs.Prelude.{List, map};
    ghost use Rattle.kq_value.specs.declared.value.Value.{Value as Cell};
    ghost use Rattle.std.specs.Coded.{coded_list};
    ghost use Rattle.kq_value.specs.contracts.value.Value as cell;
    ghost use Rattle.kq_store_column_view.specs.Numbers.{marked, number_cell, AreNumbers};

    ghost Value = { List Cell };

    ghost coded = { coded_list cell.the_row.coded };

    ghost view = { λ c. map (number_cell c.ty) (marked c.nulls.items c.numbers.items) };

    ghost invariant = { λ c. AreNumbers c.ty c.nulls.items c.numbers.items };
}

// The number that stands for a value, none for a null.
fn number_of(ty: Ty, value: &Value) -> Option<i64>
    requires numbers { IsOfNumbers ty }
    requires typed { HasType ty value.now }
    ensures stands { number_cell ty result ≡ value.now }
    ensures fits { ty ≡ Int → IfSome result (FitsSigned w32) }
{
    match value {
        Value::Long(n) | Value::Moment(n) | Value::Span(n) => Some(*n),
        Value::Int(n) => Some(i64::from(*n)),
        Value::Bool(b) => Some(*b as i64),
        Value::Null(_) | Value::Text(_) | Value::Dynamic(_) => None,
    }
}

// The least and the greatest cell that numbers of a type stand for, nulls aside.
fn numbers_zone(ty: Ty, numbers: &[i64], nulls: &[bool]) -> Option<(Value, Value)>
    requires { AreNumbers ty nulls.now numbers.now }
    ensures { IsTrue (is_zone (map (number_cell ty) (marked nulls.now numbers.now)) result) }
{
    let mut bounds: Option<(i64, i64)> = None;
    for i in 0..numbers.len() {
        if i < nulls.len() && nulls[i] {
            continue;
        }
        let number = numbers[i];
        bounds = Some(match bounds {
            None => (number, number),
            Some((least, greatest)) => (number.min(least), number.max(greatest)),
        });
    }
    let (least, greatest) = bounds?;
    Some((value_of(ty, least), value_of(ty, greatest)))
}

impl Numbers {
    pub fn from_parts(ty: Ty, numbers: Vec<i64>, nulls: Vec<bool>) -> Numbers
        requires { AreNumbers ty nulls.items numbers.items }
        ensures { result ≡ map (number_cell ty) (marked nulls.items numbers.items) }
    {
        Numbers { ty, numbers, nulls }
    }

    /// The cells of a column of rows.
    pub fn build(alloc: Global, ty: Ty, rows: &Rows, column: usize) -> Result<Numbers, Memory>
        requires numbers { IsOfNumbers ty }
        requires wide { All (IsWider column) rows.now }
        requires typed { All (HasType ty) (column_of column rows.now) }
        ensures { IfOk result (λ c. c ≡ column_of column rows.now) }
    {
        let mut numbers = Vec::with_capacity(alloc, rows.len())?;
        let mut nulls = Vec::with_capacity(alloc, rows.len())?;
        let mut any = false;
        for i in 0..rows.len() {
            let null = add_cell(ty, cell_at(rows, column, i), &mut numbers, &mut nulls)?;
            any = any | null;
        }
        Ok(Numbers::from_marks(ty, numbers, nulls, any))
    }

    // Numbers whose marks are left out where none is null.
    pub fn from_marks(ty: Ty, numbers: Vec<i64>, nulls: Vec<bool>, any: bool) -> Numbers
        requires { AreGrown ty nulls.items numbers.items any }
        ensures { result ≡ map (number_cell ty) (marked nulls.items numbers.items) }
    {
        if any {
            return Numbers::from_parts(ty, numbers, nulls);
        }
        let plain = Vec::new(*numbers.allocator());
        Numbers::from_parts(ty, numbers, plain)
    }

    pub fn len(&self) -> usize
        ensures count { result ≡ length self.now }
        ensures small { result < 2 ^ 63 }
    {
        self.numbers.len()
    }

    /// The least and the greatest cell, nulls aside.
    pub fn zone(&self) -> Option<(Value, Value)>
        ensures { IsTrue (is_zone self.now result) }
    {
        numbers_zone(self.ty, &self.numbers, &self.nulls)
    }

    /// A cell, which takes no memory.
    pub fn cell(&self, index: usize) -> Value
        requires { index < length self.now }
        ensures { slice_get self.now index ≡ Some result }
    {
        if index < self.nulls.len() && self.nulls[index] {
            Value::Null(self.ty)
        } else {
            value_of(self.ty, self.numbers[index])
        }
    }

    /// The cells from a place on, up to another, lent.
    pub fn lend(&self, from: usize, to: usize) -> Vector<'_>
        requires { (from ≤ to) × (to ≤ length self.now) }
        ensures { cells_of result ≡ take (to - from) (drop from self.now) }
    {
        lent_numbers(MarkedNumbers {
            ty: self.ty,
            numbers: part(&self.numbers, from, to),
            nulls: marks(&self.nulls, from, to),
        })
    }

    /// The cells of parts, one part after another.
    pub fn joined(alloc: Global, ty: Ty, parts: &[Vector]) -> Result<Numbers, Memory>
        requires numbers { IsOfNumbers ty }
        requires typed { All (λ p. All (HasType ty) (cells_of p)) parts.now }
        ensures { IfOk result (λ c. c ≡ flat_map cells_of parts.now) }
    {
        let mut numbers = Vec::new(alloc);
        let mut nulls = Vec::new(alloc);
        let mut any = false;
        for part in parts {
            let more = add_part(ty, part, &mut numbers, &mut nulls)?;
            any = any | more;
        }
        Ok(Numbers::from_marks(ty, numbers, nulls, any))
    }
}

// Adds the cells of a part behind others, and tells whether it may have marked one.
fn add_part(
    ty: Ty,
    part: &Vector,
    numbers: &mut Vec<i64>,
    nulls: &mut Vec<bool>,
) -> Result<bool, Memory>
    requires numbers { IsOfNumbers ty }
    requires typed { All (HasType ty) (cells_of part.now) }
    ensures { IfOk result (λ more. (any : Bool) (cells : List Cell) → AreBuilt ty nulls.old.items numbers.old.items any cells → AreBuilt ty nulls.new.items numbers.new.items (any || more) (cells ++ cells_of part.now)) }
{
    match part.marked() {
        Some(lent) if lent.ty.same(ty) => add_numbers(ty, lent.numbers, lent.nulls, numbers, nulls),
        _ => add_each(ty, part, numbers, nulls),
    }
}

// The same of numbers of the type, with their marks.
fn add_numbers(
    ty: Ty,
    lent: &[i64],
    marks: &[bool],
    numbers: &mut Vec<i64>,
    nulls: &mut Vec<bool>,
) -> Result<bool, Memory>
    requires { AreNumbers ty marks.now lent.now }
    ensures { IfOk result (λ more. (any : Bool) (cells : List Cell) → AreBuilt ty nulls.old.items numbers.old.items any cells → AreBuilt ty nulls.new.items numbers.new.items (any || more) (cells ++ map (number_cell ty) (marked marks.now lent.now))) }
{
    numbers.extend_from_slice(lent)?;
    if marks.len() > 0 {
        nulls.extend_from_slice(marks)?;
        Ok(true)
    } else {
        add_plain(nulls, lent.len())?;
        Ok(false)
    }
}

// So many marks more that say that nothing is null.
fn add_plain(nulls: &mut Vec<bool>, count: usize) -> Result<(), Memory>
    ensures { OnOk result (nulls.new.items ≡ nulls.old.items ++ replicate count false) }
{
    for _n in 0..count {
        nulls.push(false)?;
    }
    Ok(())
}

// The same as of a part of any form, cell by cell.
fn add_each(
    ty: Ty,
    part: &Vector,
    numbers: &mut Vec<i64>,
    nulls: &mut Vec<bool>,
) -> Result<bool, Memory>
    requires numbers { IsOfNumbers ty }
    requires typed { All (HasType ty) (cells_of part.now) }
    ensures { IfOk result (λ more. (any : Bool) (cells : List Cell) → AreBuilt ty nulls.old.items numbers.old.items any cells → AreBuilt ty nulls.new.items numbers.new.items (any || more) (cells ++ cells_of part.now)) }
{
    let mut any = false;
    for i in 0..part.len() {
        let cell = part.cell(i)?;
        let null = add_cell(ty, &cell, numbers, nulls)?;
        any = any | null;
    }
    Ok(any)
}

// The same of one cell. Where memory is refused all stays as it was.
pub(crate) fn add_cell(
    ty: Ty,
    cell: &Value,
    numbers: &mut Vec<i64>,
    nulls: &mut Vec<bool>,
) -> Result<bool, Memory>
    requires numbers { IsOfNumbers ty }
    requires typed { HasType ty cell.now }
    ensures ok { IfOk result (λ null. (any : Bool) (cells : List Cell) → AreBuilt ty nulls.old.items numbers.old.items any cells → AreBuilt ty nulls.new.items numbers.new.items (any || null) (cells ++ cell.now ∷ [])) }
    ensures numbers { OnErr result (numbers.new.items ≡ numbers.old.items) }
    ensures marks { OnErr result (nulls.new.items ≡ nulls.old.items) }
{
    let number = number_of(ty, cell);
    numbers.reserve(1)?;
    nulls.push(number.is_none())?;
    numbers.push_reserved(number.unwrap_or(0));
    Ok(number.is_none())
}

// The numbers from a place on, up to another.
fn part(numbers: &[i64], from: usize, to: usize) -> &[i64]
    requires { (from ≤ to) × (to ≤ length numbers.now) }
    ensures { result.now ≡ take (to - from) (drop from numbers.now) }
{
    &numbers[from..to]
}

// Their marks, which may be left out.
fn marks(nulls: &[bool], from: usize, to: usize) -> &[bool]
    requires { (from ≤ to) × (0 < length nulls.now → to ≤ length nulls.now) }
    ensures { result.now ≡ take (to - from) (drop from nulls.now) }
{
    if nulls.len() > 0 {
        &nulls[from..to]
    } else {
        nulls
    }
}
