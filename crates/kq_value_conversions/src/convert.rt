// Conversions.
ghost use Rattle.std.specs.Prelude.{◌≡◌, IfOk};
ghost use Rattle.kq_value.specs.Seen.{tree_of};
ghost use Rattle.kq_value_formats.specs.Conversions as conversions;
ghost use Rattle.kq_value.specs.declared.value.Value.TheVariants as variant;
ghost use Rattle.kq_value_conversions.specs.Converted as converted;

use crate::print::text_of_value;
use kq_value::{Dyn, Memory, Text, Ty, Value, is_moment};
use kq_value_formats::{read_bool, read_long, trim};
use kq_value_json::read_dyn;
use kq_value_time::{read_datetime, read_timespan};
use std::alloc::Global;

/// `tostring`.
pub fn as_text(alloc: Global, value: &Value) -> Result<Value, Memory>
    ensures { IfOk result (λ v. v ≡ converted.as_text value.now) }
{
    Ok(Value::Text(text_of_value(alloc, value)?))
}

/// `tolong`.
pub fn as_long(value: &Value) -> Value
    ensures { result ≡ converted.as_long value.now }
{
    match to_long(value) {
        Some(n) => Value::Long(n),
        None => Value::Null(Ty::Long),
    }
}

/// `toint`.
pub fn as_int(value: &Value) -> Value
    ensures { result ≡ converted.as_int value.now }
{
    match to_long(value) {
        Some(n) => int_or_null(n),
        None => Value::Null(Ty::Int),
    }
}

/// `tobool`.
pub fn as_bool(value: &Value) -> Value
    ensures { result ≡ converted.as_bool value.now }
{
    match to_bool(value) {
        Some(b) => Value::Bool(b),
        None => Value::Null(Ty::Bool),
    }
}

/// `todatetime`.
pub fn as_moment(value: &Value) -> Value
    ensures { result ≡ converted.as_moment value.now }
{
    match to_datetime(value) {
        Some(ticks) => Value::Moment(ticks),
        None => Value::Null(Ty::Moment),
    }
}

/// `totimespan`.
pub fn as_span(value: &Value) -> Value
    ensures { result ≡ converted.as_span value.now }
{
    match to_timespan(value) {
        Some(ticks) => Value::Span(ticks),
        None => Value::Null(Ty::Span),
    }
}

/// `todynamic`. A dynamic is shared.
pub fn as_dynamic(alloc: Global, value: &Value) -> Result<Value, Memory>
    ensures { IfOk result (λ v. v ≡ converted.as_dynamic value.now) }
{
    if let Value::Dynamic(dynamic) = value {
        return Ok(Value::Dynamic(dynamic.clone_in()?));
    }
    let dynamic = to_dynamic(alloc, value)?;
    Value::dynamic(alloc, dynamic)
}

fn to_long(value: &Value) -> Option<i64>
    ensures { result ≡ conversions.to_long value.now }
{
    match value {
        Value::Null(_) => None,
        Value::Long(n) | Value::Moment(n) | Value::Span(n) => Some(*n),
        Value::Int(n) => Some(i64::from(*n)),
        Value::Text(text) => read_long(trim(text.as_str())),
        Value::Bool(b) => Some(i64::from(*b)),
        Value::Dynamic(dynamic) => dynamic_to_long(dynamic.as_dyn()),
    }
}

fn dynamic_to_long(dynamic: &Dyn) -> Option<i64>
    ensures { result ≡ conversions.tree_to_long (tree_of dynamic.now) }
{
    match dynamic {
        Dyn::Bool(b) => Some(i64::from(*b)),
        Dyn::Long(n) => Some(*n),
        Dyn::Text(text) => read_long(trim(text.as_str())),
        Dyn::Null | Dyn::List(_) | Dyn::Bag(_) => None,
    }
}

fn int_or_null(n: i64) -> Value
    ensures { result ≡ converted.as_int (variant.Long n) }
{
    match i32::try_from(n) {
        Ok(n) => Value::Int(n),
        Err(_) => Value::Null(Ty::Int),
    }
}

fn to_bool(value: &Value) -> Option<bool>
    ensures { result ≡ conversions.to_bool value.now }
{
    match value {
        Value::Null(_) | Value::Moment(_) | Value::Span(_) => None,
        Value::Long(n) => Some(*n != 0),
        Value::Int(n) => Some(*n != 0),
        Value::Text(text) => read_bool(trim(text.as_str())),
        Value::Bool(b) => Some(*b),
        Value::Dynamic(dynamic) => dynamic_to_bool(dynamic.as_dyn()),
    }
}

fn dynamic_to_bool(dynamic: &Dyn) -> Option<bool>
    ensures { result ≡ conversions.tree_to_bool (tree_of dynamic.now) }
{
    match dynamic {
        Dyn::Bool(b) => Some(*b),
        Dyn::Long(n) => Some(*n != 0),
        Dyn::Text(text) => read_bool(trim(text.as_str())),
        Dyn::Null | Dyn::List(_) | Dyn::Bag(_) => None,
    }
}

fn to_datetime(value: &Value) -> Option<i64>
    ensures { result ≡ conversions.to_datetime value.now }
{
    match value {
        Value::Moment(ticks) => Some(*ticks),
        Value::Text(text) => read_datetime(trim(text.as_str())),
        Value::Dynamic(dynamic) => match dynamic.as_dyn() {
            Dyn::Text(text) => read_datetime(trim(text.as_str())),
            _ => None,
        },
        _ => None,
    }
}

fn to_timespan(value: &Value) -> Option<i64>
    ensures { result ≡ conversions.to_timespan value.now }
{
    match value {
        Value::Span(ticks) => Some(*ticks),
        Value::Text(text) => read_timespan(trim(text.as_str())),
        Value::Dynamic(dynamic) => match dynamic.as_dyn() {
            Dyn::Text(text) => read_timespan(trim(text.as_str())),
            _ => None,
        },
        _ => None,
    }
}

fn to_dynamic(alloc: Global, value: &Value) -> Result<Dyn, Memory>
    ensures { IfOk result (λ d. tree_of d ≡ conversions.to_dynamic (converted.in_range value.now)) }
{
    match value {
        Value::Null(_) => Ok(Dyn::Null),
        Value::Long(n) => Ok(Dyn::Long(*n)),
        Value::Int(n) => Ok(Dyn::Long(i64::from(*n))),
        Value::Text(text) => text_to_dynamic(alloc, text),
        Value::Bool(b) => Ok(Dyn::Bool(*b)),
        Value::Moment(ticks) => if is_moment(*ticks) {
            Ok(Dyn::Text(text_of_value(alloc, value)?))
        } else {
            Ok(Dyn::Null)
        },
        Value::Span(_) => Ok(Dyn::Text(text_of_value(alloc, value)?)),
        Value::Dynamic(dynamic) => dynamic.as_dyn().clone_in(),
    }
}

fn text_to_dynamic(alloc: Global, text: &Text) -> Result<Dyn, Memory>
    ensures { IfOk result (λ d. tree_of d ≡ conversions.to_dynamic (variant.Text text.now)) }
{
    if text.is_empty() {
        return Ok(Dyn::Null);
    }
    match read_dyn(alloc, text.as_str())? {
        Some(dynamic) => Ok(dynamic),
        None => Ok(Dyn::Text(text.clone_in()?)),
    }
}
