// One cell.
ghost use Rattle.std.specs.Prelude.{◌≡◌, map, option_map, replicate, IfOk};
ghost use Rattle.kq_value.specs.declared.value.Value.TheVariants.{Long, Bool as Truth, Moment, Span};
ghost use Rattle.kq_store_column_view.specs.Vectors.{cell_of, dynamic_of};

use kq_value::{Dyn, Memory, Ty, Value};
use std::alloc::Global;

pub(crate) fn long_at(longs: &[i64], i: usize) -> Value
    ensures { result ≡ cell_of (map Long longs.now) i }
{
    if i < longs.len() {
        Value::Long(longs[i])
    } else {
        Value::Null(Ty::Long)
    }
}

pub(crate) fn moment_at(ticks: &[i64], i: usize) -> Value
    ensures { result ≡ cell_of (map Moment ticks.now) i }
{
    if i < ticks.len() {
        Value::Moment(ticks[i])
    } else {
        Value::Null(Ty::Long)
    }
}

pub(crate) fn span_at(ticks: &[i64], i: usize) -> Value
    ensures { result ≡ cell_of (map Span ticks.now) i }
{
    if i < ticks.len() {
        Value::Span(ticks[i])
    } else {
        Value::Null(Ty::Long)
    }
}

pub(crate) fn truth_at(truths: &[bool], i: usize) -> Value
    ensures { result ≡ cell_of (map Truth truths.now) i }
{
    if i < truths.len() {
        Value::Bool(truths[i])
    } else {
        Value::Null(Ty::Long)
    }
}

pub(crate) fn word_at(words: &[Value], codes: &[u32], i: usize) -> Result<Value, Memory>
    ensures { IfOk result (λ v. v ≡ cell_of (map (cell_of words.now) codes.now) i) }
{
    if i < codes.len() {
        cell_at(words, codes[i] as usize)
    } else {
        Ok(Value::Null(Ty::Long))
    }
}

pub(crate) fn placed_at(cells: &[Value], places: &[usize], i: usize) -> Result<Value, Memory>
    ensures { IfOk result (λ v. v ≡ cell_of (map (cell_of cells.now) places.now) i) }
{
    if i < places.len() {
        cell_at(cells, places[i])
    } else {
        Ok(Value::Null(Ty::Long))
    }
}

pub(crate) fn same_at(value: &Value, count: usize, i: usize) -> Result<Value, Memory>
    ensures { IfOk result (λ v. v ≡ cell_of (replicate count value.now) i) }
{
    if i < count {
        value.clone_in()
    } else {
        Ok(Value::Null(Ty::Long))
    }
}

/// A copy of a cell, and a null past the end.
pub fn cell_at(cells: &[Value], i: usize) -> Result<Value, Memory>
    ensures { IfOk result (λ v. v ≡ cell_of cells.now i) }
{
    if i < cells.len() {
        cells[i].clone_in()
    } else {
        Ok(Value::Null(Ty::Long))
    }
}

// A dynamic of its own, equal to the part.
pub(crate) fn part_at(alloc: Global, parts: &[Option<&Dyn>], i: usize) -> Result<Value, Memory>
    ensures { IfOk result (λ v. v ≡ cell_of (map (λ o. dynamic_of (option_map (λ d. d.now) o)) parts.now) i) }
{
    if i < parts.len() {
        copied_part(alloc, parts[i])
    } else {
        Ok(Value::Null(Ty::Long))
    }
}

fn copied_part(alloc: Global, part: Option<&Dyn>) -> Result<Value, Memory>
    ensures { IfOk result (λ v. v ≡ dynamic_of (option_map (λ d. d.now) part.entry)) }
{
    match part {
        Some(dynamic) => Value::dynamic(alloc, dynamic.clone_in()?),
        None => Value::dynamic(alloc, Dyn::Null),
    }
}
