// What control commands are made of.
ghost use Rattle.std.specs.Prelude.{◌≡◌};
ghost use Rattle.std.specs.Option.{option_map};
ghost use Rattle.kq_read_control.specs.ControlReading as spec;
ghost use Rattle.kq_read_control.specs.ControlViews.{body_of, columns_of, properties_of};
ghost use Rattle.kq_read_control.specs.declared.tree.Property.{Property as Shown};
ghost use Rattle.kq_read_symbols.specs.Outcomes.{IsOutcome};

use crate::tree::{Body, ColumnList, Property, PropertyList};
use kq_read_clauses::read_columns;
use kq_read_expressions::read_name;
use kq_read_grammar::Name;
use kq_read_queries::read_tabular;
use kq_read_symbols::{Behind, Class, ControlWord, Cursor, Part, Stop, more};
use kq_read_tokens::{Operator, Punctuation};
use std::alloc::Global;

// One property.
#[derive(Clone, Copy)]
struct AProperty;

impl Part for AProperty {
    type Value = Property;

    ghost Shape = { Shown };

    ghost view = { λ q. q };

    ghost reader = { λ _. spec.property };

    ghost callable = { λ _. Unit {0} };

    #[tactic(auto, unfolding(crate::specs::ControlReading::property))]
    fn read(&self, cursor: &mut Cursor<'_>) -> Result<Property, Stop> {
        let name = cursor.expect(Class::Word)?;
        cursor.expect(Class::Operator(Operator::Assign))?;
        let value = cursor.expect(Class::PropertyValue)?;
        Ok(Property { name, value })
    }
}

// Properties in parentheses.
#[tactic(auto, unfolding(crate::specs::ControlReading::property_list))]
pub(crate) fn property_list(
    alloc: Global,
    cursor: &mut Cursor<'_>,
    budget: usize,
) -> Result<PropertyList, Stop>
    ensures { IsOutcome properties_of (spec.property_list budget cursor.old) result cursor.new }
{
    cursor.expect(Class::Sign(Punctuation::OpenParenthesis))?;
    let first = AProperty.read(cursor)?;
    let next = Behind {
        class: Class::Sign(Punctuation::Comma),
        part: &AProperty,
    };
    let others = more(
        budget,
        Class::Sign(Punctuation::Comma),
        &next,
        cursor,
        Vec::new(alloc),
    )?;
    cursor.expect(Class::Sign(Punctuation::CloseParenthesis))?;
    Ok(PropertyList { first, others })
}

// `with` and properties.
#[tactic(auto, unfolding(crate::specs::ControlReading::properties))]
fn properties(alloc: Global, cursor: &mut Cursor<'_>, budget: usize) -> Result<PropertyList, Stop>
    ensures { IsOutcome properties_of (spec.properties budget cursor.old) result cursor.new }
{
    cursor.expect(Class::Control(ControlWord::With))?;
    property_list(alloc, cursor, budget)
}

// `with` and properties, where they are there.
pub(crate) fn maybe_properties(
    alloc: Global,
    cursor: &mut Cursor<'_>,
    budget: usize,
) -> Result<Option<PropertyList>, Stop>
    ensures { IsOutcome (option_map properties_of) (spec.maybe_properties budget cursor.old) result cursor.new }
{
    if !cursor.sees(Class::Control(ControlWord::With)) {
        return Ok(None);
    }
    let list = properties(alloc, cursor, budget)?;
    Ok(Some(list))
}

// `table`, a name, and columns in parentheses.
#[tactic(auto, unfolding(crate::specs::ControlReading::table_columns))]
pub(crate) fn table_columns(
    alloc: Global,
    cursor: &mut Cursor<'_>,
    budget: usize,
) -> Result<(Name, ColumnList), Stop>
    ensures { IsOutcome (λ p. (p.0, columns_of p.1)) (spec.table_columns budget cursor.old) result cursor.new }
{
    cursor.expect(Class::Control(ControlWord::Table))?;
    let name = read_name(cursor)?;
    cursor.expect(Class::Sign(Punctuation::OpenParenthesis))?;
    let (first, others) = read_columns(alloc, cursor, budget)?;
    cursor.expect(Class::Sign(Punctuation::CloseParenthesis))?;
    Ok((name, ColumnList { first, others }))
}

// `table` and a name.
#[tactic(auto, unfolding(crate::specs::ControlReading::table_name))]
pub(crate) fn table_name(cursor: &mut Cursor<'_>) -> Result<Name, Stop>
    ensures { IsOutcome (λ n. n) (spec.table_name cursor.old) result cursor.new }
{
    cursor.expect(Class::Control(ControlWord::Table))?;
    read_name(cursor)
}

// A query in braces.
#[tactic(auto, unfolding(crate::specs::ControlReading::body))]
pub(crate) fn body(alloc: Global, cursor: &mut Cursor<'_>, budget: usize) -> Result<Body, Stop>
    ensures { IsOutcome body_of (spec.body budget cursor.old) result cursor.new }
{
    cursor.expect(Class::Sign(Punctuation::OpenBrace))?;
    let body = spanned(alloc, cursor, budget)?;
    cursor.expect(Class::Sign(Punctuation::CloseBrace))?;
    Ok(body)
}

// A query with its first and its last symbol.
#[tactic(auto, unfolding(crate::specs::ControlReading::spanned_tabular))]
fn spanned(alloc: Global, cursor: &mut Cursor<'_>, budget: usize) -> Result<Body, Stop>
    ensures { IsOutcome body_of (spec.spanned_tabular budget cursor.old) result cursor.new }
{
    let start = cursor.rest();
    let query = read_tabular(alloc, cursor, budget)?;
    let taken = &start[..start.len().saturating_sub(cursor.left())];
    match (taken.first().copied(), taken.last().copied()) {
        (Some(first), Some(last)) => Ok(Body { first, last, query }),
        _ => Err(Stop::Syntax),
    }
}
