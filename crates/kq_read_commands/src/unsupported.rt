// What of a command isn't supported.
ghost use Rattle.std.specs.Prelude.{◌≡◌, ◌∷◌, true, All, IfOk, OnErr};
ghost use Rattle.std.specs.Option.{option_map};
ghost use Rattle.kq_read_commands.specs.InText.{ColumnIn, ColumnsIn, ControlIn, PropertiesIn, PropertyIn};
ghost use Rattle.kq_read_commands.specs.Unsupported.{column_fault as column_fault_of, control_fault, first_of, ingest_fault as ingest_fault_of, properties_fault, unless as unless_of, view_fault as view_fault_of};
ghost use Rattle.kq_read_control.specs.ControlViews.{columns_of, control_of, properties_of};

use crate::meanings::{piece, string_at};
use crate::memory::Requests;
use kq_read_control::{ColumnList, Control, Property, PropertyList};
use kq_read_grammar::Column;
use kq_read_meanings::ty_of;
use kq_read_symbols::Class;
use kq_value::Memory;

fn column_fault(text: &str, column: Column) -> Option<usize>
    requires { ColumnIn text.now column }
    ensures { result ≡ column_fault_of text.now column }
{
    match ty_of(piece(text, column.ty).as_bytes()) {
        Some(_) => None,
        None => Some(column.ty.from),
    }
}

fn first_column_fault(text: &str, columns: &[Column]) -> Option<usize>
    requires { All (ColumnIn text.now) columns.now }
    ensures { result ≡ first_of (column_fault_of text.now) columns.now }
{
    for column in columns {
        if let Some(at) = column_fault(text, *column) {
            return Some(at);
        }
    }
    None
}

fn columns_fault(text: &str, list: &ColumnList) -> Option<usize>
    requires { ColumnsIn text.now (columns_of list.now) }
    ensures { result ≡ first_of (column_fault_of text.now) (list.now.first ∷ list.now.others.items) }
{
    if let Some(at) = column_fault(text, list.first) {
        return Some(at);
    }
    first_column_fault(text, list.others.as_slice())
}

fn unless(fine: bool, at: usize) -> Option<usize>
    ensures { result ≡ unless_of fine at }
{
    if fine { None } else { Some(at) }
}

// The fault of a property of an ingestion.
fn ingest_fault(
    memory: &mut Requests,
    text: &str,
    property: Property,
) -> Result<Option<usize>, Memory>
    requires { PropertyIn text.now property }
    ensures value { IfOk result (λ o. o ≡ ingest_fault_of text.now property) }
    ensures refused { OnErr result (memory.new.refused ≡ true) }
{
    let name = piece(text, property.name).as_bytes();
    let is_string = Class::Text.contains(property.value.kind);
    let at = property.value.from;
    if name == b"format".as_slice() {
        if !is_string {
            return Ok(Some(at));
        }
        let format = string_at(memory, text, property.value)?;
        return Ok(unless(format.as_str().as_bytes() == b"csv".as_slice(), at));
    }
    if name == b"tags".as_slice() {
        return Ok(unless(is_string, at));
    }
    if name == b"ingestIfNotExists".as_slice() {
        return Ok(unless(is_string, at));
    }
    if name == b"ignoreFirstRecord".as_slice() {
        return Ok(unless(Class::Truth.contains(property.value.kind), at));
    }
    Ok(Some(property.name.from))
}

// The fault of a property of a view.
fn view_fault(text: &str, property: Property) -> Option<usize>
    requires { PropertyIn text.now property }
    ensures { result ≡ view_fault_of text.now property }
{
    let name = piece(text, property.name).as_bytes();
    if name == b"backfill".as_slice() {
        return unless(
            Class::Truth.contains(property.value.kind),
            property.value.from,
        );
    }
    Some(property.name.from)
}

fn first_ingest_fault(
    memory: &mut Requests,
    text: &str,
    properties: &[Property],
) -> Result<Option<usize>, Memory>
    requires { All (PropertyIn text.now) properties.now }
    ensures value { IfOk result (λ o. o ≡ first_of (ingest_fault_of text.now) properties.now) }
    ensures refused { OnErr result (memory.new.refused ≡ true) }
{
    for property in properties {
        if let Some(at) = ingest_fault(memory, text, *property)? {
            return Ok(Some(at));
        }
    }
    Ok(None)
}

fn first_view_fault(text: &str, properties: &[Property]) -> Option<usize>
    requires { All (PropertyIn text.now) properties.now }
    ensures { result ≡ first_of (view_fault_of text.now) properties.now }
{
    for property in properties {
        if let Some(at) = view_fault(text, *property) {
            return Some(at);
        }
    }
    None
}

fn ingestion_fault(
    memory: &mut Requests,
    text: &str,
    list: &Option<PropertyList>,
) -> Result<Option<usize>, Memory>
    requires { PropertiesIn text.now (option_map properties_of list.now) }
    ensures value { IfOk result (λ o. o ≡ properties_fault (ingest_fault_of text.now) (option_map properties_of list.now)) }
    ensures refused { OnErr result (memory.new.refused ≡ true) }
{
    let Some(list) = list else {
        return Ok(None);
    };
    if let Some(at) = ingest_fault(memory, text, list.first)? {
        return Ok(Some(at));
    }
    first_ingest_fault(memory, text, list.others.as_slice())
}

fn definition_fault(text: &str, list: &Option<PropertyList>) -> Option<usize>
    requires { PropertiesIn text.now (option_map properties_of list.now) }
    ensures { result ≡ properties_fault (view_fault_of text.now) (option_map properties_of list.now) }
{
    let Some(list) = list else {
        return None;
    };
    if let Some(at) = view_fault(text, list.first) {
        return Some(at);
    }
    first_view_fault(text, list.others.as_slice())
}

// The place of the first symbol of the command that isn't supported.
pub(crate) fn unsupported(
    memory: &mut Requests,
    text: &str,
    control: &Control,
) -> Result<Option<usize>, Memory>
    requires { ControlIn text.now (control_of control.now) }
    ensures value { IfOk result (λ o. o ≡ control_fault text.now (control_of control.now)) }
    ensures refused { OnErr result (memory.new.refused ≡ true) }
{
    match control {
        Control::CreateTable(_, columns) => Ok(columns_fault(text, columns)),
        Control::AlterMerge(_, columns) => Ok(columns_fault(text, columns)),
        Control::Ingest(_, list, _) => ingestion_fault(memory, text, list),
        Control::CreateView(view) => Ok(definition_fault(text, &view.properties)),
        _ => Ok(None),
    }
}
