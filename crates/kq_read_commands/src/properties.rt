// What the properties of an ingestion or a view say.
ghost use Rattle.std.specs.Prelude.{◌≡◌, ◌∷◌, None, true, All, IfOk, IfSome, OnErr};
ghost use Rattle.std.specs.Option.{option_map};
ghost use Rattle.kq_read_commands.specs.Definitions.{given as given_of, is_backfilled as is_backfilled_by};
ghost use Rattle.kq_read_commands.specs.InText.{IsString, PropertiesIn, PropertyIn};
ghost use Rattle.kq_read_commands.specs.Ingestions.{first_named as the_first_named, is_true as says_true, properties_of, quoted_of, repeated_of};
ghost use Rattle.kq_read_commands.specs.Meanings.{piece as piece_of};
ghost use Rattle.kq_read_commands.specs.Unsupported.{ingest_fault, properties_fault};
ghost use Rattle.kq_read_control.specs.ControlViews.{properties_of as properties_view};
ghost use Rattle.kq_read_meanings.specs.Types.{same};

use crate::ingestion::{Properties, Quoted};
use crate::meanings::{piece, string_at};
use crate::memory::Requests;
use kq_read_control::{Property, PropertyList};
use kq_read_symbols::{Class, ReservedWord};
use kq_value::Memory;

fn has_name(text: &str, property: Property, name: &[u8]) -> bool
    requires { PropertyIn text.now property }
    ensures { result ≡ same (piece_of text.now property.name) name.now }
{
    piece(text, property.name).as_bytes() == name
}

fn first_named(text: &str, properties: &[Property], name: &[u8]) -> Option<Property>
    requires { All (PropertyIn text.now) properties.now }
    ensures { result ≡ the_first_named text.now name.now properties.now }
{
    for property in properties {
        if has_name(text, *property, name) {
            return Some(*property);
        }
    }
    None
}

fn named(text: &str, first: Property, others: &[Property], name: &[u8]) -> Option<Property>
    requires { PropertyIn text.now first × All (PropertyIn text.now) others.now }
    ensures { result ≡ the_first_named text.now name.now (first ∷ others.now) }
{
    if has_name(text, first, name) {
        return Some(first);
    }
    first_named(text, others, name)
}

// The place of the first of the others whose name stands before it.
fn repeated(text: &str, first: Property, others: &[Property]) -> Option<usize>
    requires { PropertyIn text.now first × All (PropertyIn text.now) others.now }
    ensures { result ≡ repeated_of text.now (first ∷ others.now) }
{
    for (i, property) in others.iter().enumerate() {
        let name = piece(text, property.name).as_bytes();
        if named(text, first, &others[..i], name).is_some() {
            return Some(property.name.from);
        }
    }
    None
}

fn is_true(property: Option<Property>) -> bool
    ensures { result ≡ says_true property }
{
    match property {
        Some(property) => Class::Reserved(ReservedWord::True).contains(property.value.kind),
        None => false,
    }
}

fn quoted(
    memory: &mut Requests,
    text: &str,
    property: Option<Property>,
) -> Result<Option<Quoted>, Memory>
    requires { IfSome property (λ q. IsString text.now q.value) }
    ensures value { IfOk result (λ o. o ≡ option_map (quoted_of text.now) property) }
    ensures refused { OnErr result (memory.new.refused ≡ true) }
{
    let Some(property) = property else {
        return Ok(None);
    };
    Ok(Some(Quoted {
        text: string_at(memory, text, property.value)?,
        at: property.value.from,
    }))
}

// The properties that are given, all of which are supported.
fn given(memory: &mut Requests, text: &str, list: &PropertyList) -> Result<Properties, Memory>
    requires stand { PropertiesIn text.now (Some (properties_view list.now)) }
    requires supported { properties_fault (ingest_fault text.now) (Some (properties_view list.now)) ≡ None }
    ensures value { IfOk result (λ p. p ≡ properties_of text.now (Some (properties_view list.now))) }
    ensures refused { OnErr result (memory.new.refused ≡ true) }
{
    let (first, others) = (list.first, list.others.as_slice());
    let tags = named(text, first, others, b"tags");
    let if_not_exists = named(text, first, others, b"ingestIfNotExists");
    let tags = quoted(memory, text, tags)?;
    let if_not_exists = quoted(memory, text, if_not_exists)?;
    Ok(Properties {
        tags,
        if_not_exists,
        ignore_first: is_true(named(text, first, others, b"ignoreFirstRecord")),
        repeated: repeated(text, first, others),
    })
}

// Whether `backfill` is given `true`.
pub(crate) fn is_backfilled(text: &str, list: &Option<PropertyList>) -> bool
    requires { PropertiesIn text.now (option_map properties_view list.now) }
    ensures { result ≡ is_backfilled_by text.now (option_map properties_view list.now) }
{
    match list {
        Some(list) => is_true(named(text, list.first, list.others.as_slice(), b"backfill")),
        None => false,
    }
}

// The place of the first property whose name stands before it.
pub(crate) fn repeated_in(text: &str, list: &Option<PropertyList>) -> Option<usize>
    requires { PropertiesIn text.now (option_map properties_view list.now) }
    ensures { result ≡ repeated_of text.now (given_of (option_map properties_view list.now)) }
{
    match list {
        Some(list) => repeated(text, list.first, list.others.as_slice()),
        None => None,
    }
}

// What the properties say, all of which are supported.
pub(crate) fn read_properties(
    memory: &mut Requests,
    text: &str,
    list: &Option<PropertyList>,
) -> Result<Properties, Memory>
    requires stand { PropertiesIn text.now (option_map properties_view list.now) }
    requires supported { properties_fault (ingest_fault text.now) (option_map properties_view list.now) ≡ None }
    ensures value { IfOk result (λ p. p ≡ properties_of text.now (option_map properties_view list.now)) }
    ensures refused { OnErr result (memory.new.refused ≡ true) }
{
    match list {
        Some(list) => given(memory, text, list),
        None => Ok(Properties {
            tags: None,
            if_not_exists: None,
            ignore_first: false,
            repeated: None,
        }),
    }
}
