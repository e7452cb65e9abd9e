// The text of a cell, read as a value.
ghost use Rattle.std.specs.Prelude.{◌≡◌, ◌≢◌, IfOk, IsOk, option_map};
ghost use Rattle.kq_value_formats.specs.Cells.{cell_of};
ghost use Rattle.kq_value.specs.declared.ty.Ty.TheVariants as types;
ghost use Rattle.kq_store_ingest.specs.Ingestion.{cell_in};

use crate::dynamic::read_shared;
use crate::shared::Kept;
use kq_value::{Dyn, Memory, Ty, Value};
use kq_value_formats::{read_bool, read_int, read_long, trim};
use kq_value_time::{read_datetime, read_timespan};
use std::alloc::Global;

fn long_cell(text: &str) -> Value
    ensures { result ≡ cell_of types.Long text.now }
{
    match read_long(trim(text)) {
        Some(number) => Value::Long(number),
        None => Value::Null(Ty::Long),
    }
}

fn int_cell(text: &str) -> Value
    ensures { result ≡ cell_of types.Int text.now }
{
    match read_int(trim(text)) {
        Some(number) => Value::Int(number),
        None => Value::Null(Ty::Int),
    }
}

fn bool_cell(text: &str) -> Value
    ensures { result ≡ cell_of types.Bool text.now }
{
    match read_bool(trim(text)) {
        Some(truth) => Value::Bool(truth),
        None => Value::Null(Ty::Bool),
    }
}

fn moment_cell(text: &str) -> Value
    ensures { result ≡ cell_of types.Moment text.now }
{
    match read_datetime(trim(text)) {
        Some(ticks) => Value::Moment(ticks),
        None => Value::Null(Ty::Moment),
    }
}

fn span_cell(text: &str) -> Value
    ensures { result ≡ cell_of types.Span text.now }
{
    match read_timespan(trim(text)) {
        Some(ticks) => Value::Span(ticks),
        None => Value::Null(Ty::Span),
    }
}

fn dynamic_cell(alloc: Global, kept: &mut Kept, text: &str) -> Result<Value, Memory>
    ensures { IfOk result (λ cell. cell ≡ cell_of types.Dynamic text.now) }
{
    if text.is_empty() {
        return Value::dynamic(alloc, Dyn::Null);
    }
    match read_shared(alloc, kept, text)? {
        Some(dynamic) => Value::dynamic(alloc, dynamic),
        None => Value::dynamic(alloc, Dyn::Text(kept.texts.text(alloc, text)?)),
    }
}

fn cell_from(alloc: Global, kept: &mut Kept, ty: Ty, text: &str) -> Result<Value, Memory>
    ensures value { IfOk result (λ cell. cell ≡ cell_of ty text.now) }
    ensures numbers { ty ≢ types.Text → ty ≢ types.Dynamic → IsOk result }
{
    match ty {
        Ty::Long => Ok(long_cell(text)),
        Ty::Int => Ok(int_cell(text)),
        Ty::Text => Ok(Value::Text(kept.texts.text(alloc, text)?)),
        Ty::Bool => Ok(bool_cell(text)),
        Ty::Moment => Ok(moment_cell(text)),
        Ty::Span => Ok(span_cell(text)),
        Ty::Dynamic => dynamic_cell(alloc, kept, text),
    }
}

// The cell of a column of this type, from the text in its place, if there is one. Only a string and a dynamic take memory.
pub(crate) fn read_cell(
    alloc: Global,
    kept: &mut Kept,
    ty: Ty,
    text: Option<&str>,
) -> Result<Value, Memory>
    ensures value { IfOk result (λ cell. cell ≡ cell_in ty (option_map (λ t. t.now) text.entry)) }
    ensures numbers { ty ≢ types.Text → ty ≢ types.Dynamic → IsOk result }
{
    match text {
        Some(text) => cell_from(alloc, kept, ty, text),
        None => Value::missing(alloc, ty),
    }
}
