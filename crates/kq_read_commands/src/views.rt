// Reading what a view or an export is to be.
ghost use Rattle.std.specs.Prelude.{◌≡◌, true, IfOk, OnErr};
ghost use Rattle.kq_read_commands.specs.Definitions.{IsExportOf, IsViewOf, query_bytes};
ghost use Rattle.kq_read_commands.specs.InText.{BodyIn, ExportIn, IsPiece, NameIn, ViewIn};
ghost use Rattle.kq_read_commands.specs.Meanings.{identifier_of};
ghost use Rattle.kq_read_control.specs.ControlViews.{body_of, export_of, view_of};

use crate::columns::Identifier;
use crate::command::Query;
use crate::definition::{NewExport, NewView};
use crate::meanings::identifier;
use crate::memory::Requests;
use crate::properties::{is_backfilled, repeated_in};
use kq_read_control::{Body, ExportDefinition, ViewDefinition};
use kq_read_grammar::{Name, Query as WrittenQuery};
use kq_read_symbols::Symbol;
use kq_value::{Memory, Text};

// What stands in the text from the query's first to its last token.
fn query_text<'a>(text: &'a str, body: &Body) -> &'a str
    requires { BodyIn text.now (body_of body.now) }
    ensures { result.now ≡ query_bytes text.now (body_of body.now) }
{
    &text[body.first.from..body.last.to]
}

// The names and the texts of what is to be made.
#[derive(Drop)]
struct Parts {
    name: Identifier,
    table: Identifier,
    // The whole text of the command.
    whole: Text,
    query: Text,
}

// What the text says of a view or an export of this name on this table.
fn parts_of(
    memory: &mut Requests,
    text: &str,
    name: Name,
    table: Name,
    body: &Body,
) -> Result<Parts, Memory>
    requires names { NameIn text.now name × NameIn text.now table }
    requires query { BodyIn text.now (body_of body.now) }
    ensures name { IfOk result (λ p. p.name ≡ identifier_of text.now name) }
    ensures table { IfOk result (λ p. p.table ≡ identifier_of text.now table) }
    ensures whole { IfOk result (λ p. p.whole ≡ text.now) }
    ensures query { IfOk result (λ p. p.query ≡ query_bytes text.now (body_of body.now)) }
    ensures refused { OnErr result (memory.new.refused ≡ true) }
{
    Ok(Parts {
        name: identifier(memory, text, name)?,
        table: identifier(memory, text, table)?,
        whole: memory.text(text)?,
        query: memory.text(query_text(text, body))?,
    })
}

// The view that is to be made.
pub(crate) fn new_view(
    memory: &mut Requests,
    text: &str,
    view: Box<ViewDefinition>,
) -> Result<NewView, Memory>
    requires { ViewIn text.now (view_of view.value) }
    ensures value { IfOk result (IsViewOf text.now (view_of view.value)) }
    ensures refused { OnErr result (memory.new.refused ≡ true) }
{
    let parts = parts_of(memory, text, view.name, view.table, &view.body)?;
    let view = Box::into_inner(view);
    Ok(NewView {
        name: parts.name,
        table: parts.table,
        query: parts.query,
        unless_there: view.unless_there.is_some(),
        backfill: is_backfilled(text, &view.properties),
        repeated: repeated_in(text, &view.properties),
        body: Query {
            text: parts.whole,
            tree: WrittenQuery {
                lets: memory.empty(),
                tabular: view.body.query,
            },
        },
    })
}

// The export that is to be made, under the name that the symbol is.
pub(crate) fn new_export(
    memory: &mut Requests,
    text: &str,
    name: Symbol,
    export: Box<ExportDefinition>,
) -> Result<NewExport, Memory>
    requires name { IsPiece text.now name }
    requires parts { ExportIn text.now (export_of export.value) }
    ensures value { IfOk result (IsExportOf text.now name (export_of export.value)) }
    ensures refused { OnErr result (memory.new.refused ≡ true) }
{
    let parts = parts_of(memory, text, Name::Word(name), export.table, &export.body)?;
    let export = Box::into_inner(export);
    Ok(NewExport {
        name: parts.name,
        table: parts.table,
        query: parts.query,
        body: Query {
            text: parts.whole,
            tree: WrittenQuery {
                lets: memory.empty(),
                tabular: export.body.query,
            },
        },
    })
}
