// Functions of parts of dynamics, where they lie.
ghost use Rattle.std.specs.Prelude.{◌≡◌, [], ◌∷◌, map, IfOk, IfSome};
ghost use Rattle.kq_value.specs.Computed.{Is};
ghost use Rattle.kq_value.specs.declared.dynamic.Dyn.TheVariants as dyn;
ghost use Rattle.kq_value.specs.declared.value.Value.TheVariants.{Long, Text as Printed, Bool as Truth, Dynamic};
ghost use Rattle.kq_value_arithmetic.specs.Logic.{negation};
ghost use Rattle.kq_eval_row.specs.kq_value_string_functions.Texts.{found};
ghost use Rattle.kq_eval_row.specs.kq_value_conversions.Converted.{as_long, as_text, printed};
ghost use Rattle.kq_eval_row.specs.Applied.{applied};
ghost use Rattle.kq_store_column_view.specs.Vectors.{cells_of};
ghost use Rattle.kq_eval_columns.specs.Seen.{cells_in_parts, part_cell, paired};

use kq_plan_functions::{FindKind, Function, find_text};
use kq_store_column_view::Vector;
use kq_value::{Dyn, Memory, Text, Ty, Value};
use std::alloc::Global;

/// The parts of a column that has these alone.
pub fn parts_in<'a, 'b>(column: &'a Vector<'b>) -> Option<&'a [Option<&'b Dyn>]>
    ensures { IfSome result (λ ps. cells_of column.now ≡ cells_in_parts ps.now) }
{
    match column {
        Vector::Parts(parts) => Some(parts.as_slice()),
        _ => None,
    }
}

/// The truth that a function gives of a part and a text.
pub fn test_of_part(function: Function, part: Option<&Dyn>, value: &Value) -> Option<bool>
    ensures { IfSome result (λ b. paired function (part_cell part.entry) value.now ≡ Is (Truth b)) }
{
    match value {
        Value::Text(text) => test_of_printed(function, part, text.as_str()),
        _ => None,
    }
}

fn test_of_printed(function: Function, part: Option<&Dyn>, text: &str) -> Option<bool>
    ensures { IfSome result (λ b. paired function (part_cell part.entry) (Printed text.now) ≡ Is (Truth b)) }
{
    match function {
        Function::Find(kind) => found_in_part(kind, part, text),
        Function::FindNot(kind) => not_found_in_part(kind, part, text),
        _ => None,
    }
}

fn found_in_part(kind: FindKind, part: Option<&Dyn>, text: &str) -> Option<bool>
    ensures { IfSome result (λ b. found kind (part_cell part.entry) (Printed text.now) ≡ Truth b) }
{
    match printed_part(part) {
        Some(printed) => Some(find_text(kind, printed, text)),
        None => None,
    }
}

fn not_found_in_part(kind: FindKind, part: Option<&Dyn>, text: &str) -> Option<bool>
    ensures { IfSome result (λ b. negation (found kind (part_cell part.entry) (Printed text.now)) ≡ Truth b) }
{
    match found_in_part(kind, part, text) {
        Some(found) => Some(!found),
        None => None,
    }
}

// What `tostring` makes of a part, where it takes no memory.
fn printed_part<'a>(part: Option<&'a Dyn>) -> Option<&'a str>
    ensures { IfSome result (λ text. printed (part_cell part.entry) ≡ text.now) }
{
    match part {
        Some(dynamic) => printed_dynamic(dynamic),
        None => Some(""),
    }
}

fn printed_dynamic(dynamic: &Dyn) -> Option<&str>
    ensures { IfSome result (λ text. printed (Dynamic dynamic.now) ≡ text.now) }
{
    match dynamic {
        Dyn::Null => Some(""),
        Dyn::Text(text) => Some(text.as_str()),
        _ => None,
    }
}

/// What a conversion gives of each part of a column of these, where they are longs, strings or null as it wants them.
pub fn converted<'v>(
    alloc: Global,
    function: Function,
    column: &Vector,
    now: i64,
) -> Result<Option<Vector<'v>>, Memory>
    ensures { IfOk result (λ o. IfSome o (λ c. map (λ x. applied function now (x ∷ [])) (cells_of column.now) ≡ map Is (cells_of c))) }
{
    let _ = now;
    let Some(parts) = parts_in(column) else {
        return Ok(None);
    };
    match function {
        Function::ToLong => as_longs(alloc, parts),
        Function::ToText => as_texts(alloc, parts),
        _ => Ok(None),
    }
}

fn as_longs<'v>(alloc: Global, parts: &[Option<&Dyn>]) -> Result<Option<Vector<'v>>, Memory>
    ensures { IfOk result (λ o. IfSome o (λ c. map as_long (cells_in_parts parts.now) ≡ cells_of c)) }
{
    if let Some(longs) = longs_of_parts(alloc, parts)? {
        return Ok(Some(Vector::Longs(longs)));
    }
    match long_cells(alloc, parts)? {
        Some(cells) => Ok(Some(Vector::Cells(cells))),
        None => Ok(None),
    }
}

#[tactic(auto, using(crate::proofs::Rows::map_more))]
fn longs_of_parts(alloc: Global, parts: &[Option<&Dyn>]) -> Result<Option<Vec<i64>>, Memory>
    ensures { IfOk result (λ o. IfSome o (λ zs. map as_long (cells_in_parts parts.now) ≡ map Long zs.items)) }
{
    let mut longs = Vec::with_capacity(alloc, parts.len())?;
    for i in 0..parts.len() {
        match long_of_part(parts[i]) {
            Some(long) => longs.push(long)?,
            None => return Ok(None),
        }
    }
    Ok(Some(longs))
}

fn long_of_part(part: Option<&Dyn>) -> Option<i64>
    ensures { IfSome result (λ z. as_long (part_cell part.entry) ≡ Long z) }
{
    match part {
        Some(dynamic) => long_of_dynamic(dynamic),
        None => None,
    }
}

fn long_of_dynamic(dynamic: &Dyn) -> Option<i64>
    ensures { IfSome result (λ z. dynamic.now ≡ dyn.Long z) }
{
    match dynamic {
        Dyn::Long(long) => Some(*long),
        _ => None,
    }
}

#[tactic(auto, using(crate::proofs::Rows::map_more))]
fn long_cells(alloc: Global, parts: &[Option<&Dyn>]) -> Result<Option<Vec<Value>>, Memory>
    ensures { IfOk result (λ o. IfSome o (λ vs. map as_long (cells_in_parts parts.now) ≡ vs.items)) }
{
    let mut cells = Vec::with_capacity(alloc, parts.len())?;
    for i in 0..parts.len() {
        match long_cell(parts[i]) {
            Some(cell) => cells.push(cell)?,
            None => return Ok(None),
        }
    }
    Ok(Some(cells))
}

fn long_cell(part: Option<&Dyn>) -> Option<Value>
    ensures { IfSome result (λ v. as_long (part_cell part.entry) ≡ v) }
{
    match part {
        Some(dynamic) => long_cell_of(dynamic),
        None => Some(Value::Null(Ty::Long)),
    }
}

fn long_cell_of(dynamic: &Dyn) -> Option<Value>
    ensures { IfSome result (λ v. as_long (Dynamic dynamic.now) ≡ v) }
{
    match dynamic {
        Dyn::Null => Some(Value::Null(Ty::Long)),
        Dyn::Long(long) => Some(Value::Long(*long)),
        _ => None,
    }
}

fn as_texts<'v>(alloc: Global, parts: &[Option<&Dyn>]) -> Result<Option<Vector<'v>>, Memory>
    ensures { IfOk result (λ o. IfSome o (λ c. map as_text (cells_in_parts parts.now) ≡ cells_of c)) }
{
    match text_cells(alloc, parts)? {
        Some(cells) => Ok(Some(Vector::Cells(cells))),
        None => Ok(None),
    }
}

#[tactic(auto, using(crate::proofs::Rows::map_more))]
fn text_cells(alloc: Global, parts: &[Option<&Dyn>]) -> Result<Option<Vec<Value>>, Memory>
    ensures { IfOk result (λ o. IfSome o (λ vs. map as_text (cells_in_parts parts.now) ≡ vs.items)) }
{
    let mut cells = Vec::with_capacity(alloc, parts.len())?;
    for i in 0..parts.len() {
        match text_cell(alloc, parts[i])? {
            Some(cell) => cells.push(cell)?,
            None => return Ok(None),
        }
    }
    Ok(Some(cells))
}

fn text_cell(alloc: Global, part: Option<&Dyn>) -> Result<Option<Value>, Memory>
    ensures { IfOk result (λ o. IfSome o (λ v. as_text (part_cell part.entry) ≡ v)) }
{
    match part {
        Some(dynamic) => text_cell_of(alloc, dynamic),
        None => Ok(Some(Value::Text(Text::from_str(alloc, "")?))),
    }
}

fn text_cell_of(alloc: Global, dynamic: &Dyn) -> Result<Option<Value>, Memory>
    ensures { IfOk result (λ o. IfSome o (λ v. as_text (Dynamic dynamic.now) ≡ v)) }
{
    match dynamic {
        Dyn::Null => Ok(Some(Value::Text(Text::from_str(alloc, "")?))),
        Dyn::Text(text) => Ok(Some(Value::Text(text.clone_in()?))),
        _ => Ok(None),
    }
}
