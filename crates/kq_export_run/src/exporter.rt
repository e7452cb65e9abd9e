// The exporter of session 0.
ghost use Rattle.std.specs.Prelude.{◌≡◌, ◌<◌, [], None, length, nat_eq, position};
ghost use Rattle.std.specs.Cmp.Lexicographic.{pointwise};
ghost use mathlib.Core.List.{IsPrefix};
ghost use Rattle.kq_catalog_journal.specs.History.{cursor as cursor_of, log};
ghost use Rattle.kq_export_interface.specs.Due.{reply_of};
ghost use Rattle.kq_export_ranges.specs.Exported.{IsDefined, IsExported};
ghost use Rattle.kq_export_ranges.specs.Exports.{end_of, export_numbered};
ghost use Rattle.kq_export_run.specs.declared.definition.Definition.{Definition as Held};
ghost use Rattle.kq_export_run.specs.Held.{export_of, exports_in, state_of};
ghost use Rattle.kq_export_run.specs.Serving.{DefinesSo, HoldsSo, IsWrittenFor, PutsRange, RunsSo, there_of};

use crate::definition::{Definition, bound};
use crate::seen::Seen;
use crate::written::{Written, write_range};
use kq_catalog::Snapshot;
use kq_export_interface::{Exporter, unsupported};
use kq_export_ranges::{ExportRange, Ledger};
use kq_read_commands::{Export, Identifier, NewExport};
use kq_reply::{Refusal, Reply};
use kq_value::Text;
use kq_world::Artefacts;
use std::alloc::Global;
use std::marker::Model;

// The most exports.
const MOST: usize = 64;

/// It exports into artefacts.
///
/// Contracts see the exports that it holds with the ranges that they have exported, what was put, how often a put has failed, and
/// the history of the last snapshot that it was asked over. What was put is one artefact for each range, in order, with what the
/// export's query gives over the records of the range; the ranges of an export are consecutive (`IsExported`).
#[derive(Drop)]
pub struct ArtefactExporter<A: Artefacts> {
    ledger: Ledger<A>,
    defined: Vec<Definition>,
    seen: Seen,
}

impl<A: Artefacts> Model for ArtefactExporter<A> {
    ghost use Rattle.std.specs.Coded.{codes};
    ghost use Rattle.kq_value.specs.contracts.value.Value as cell;
    ghost use Rattle.kq_plan_expressions.specs.contracts.expr.Expr as expr;
    ghost use Rattle.kq_export_run.specs.Held.{AreHeld, ExporterState, history_of, state_of};

    ghost Value = { ExporterState };

    ghost coded = { Prim.hlevel (codes, cell.the_row.coded, expr.the_row.coded) };

    ghost view = { λ e. state_of e.defined.items e.ledger.ranges e.ledger.puts e.ledger.faults (history_of e.seen) };

    ghost invariant = { λ e. AreHeld (history_of e.seen) e.defined.items e.ledger.ranges e.ledger.puts };
}

impl<A: Artefacts> ArtefactExporter<A> {
    /// No exports yet, over artefacts into which nothing was put.
    pub fn new(alloc: Global, artefacts: A) -> ArtefactExporter<A>
        requires { A.kept artefacts ≡ [] }
        ensures { result ≡ state_of [] [] [] (A.faults artefacts) [] }
    {
        ArtefactExporter {
            ledger: Ledger::new(artefacts),
            defined: Vec::new(alloc),
            seen: Seen::start(),
        }
    }

    /// The artefacts, which hold what the exports say.
    pub fn close(self) -> A
        ensures kept { A.kept result ≡ self.puts }
        ensures faults { A.faults result ≡ self.faults }
        ensures exported { IsExported self.seen (exports_in self) self.puts }
    {
        self.ledger.close()
    }

    /// The number of exports.
    pub fn export_count(&self) -> usize
        ensures count { result ≡ length self.now.defined }
        ensures exported { IsExported self.now.seen (exports_in self.now) self.now.puts }
    {
        self.defined.len()
    }

    // The number of the export of a name.
    fn number_of(&self, name: &Text) -> Option<usize>
        ensures { result ≡ export_numbered name.now (exports_in self.now).defined }
    {
        number_in(self.defined.as_slice(), name.as_str())
    }

    // Holds the export, where its text is good.
    fn define(&mut self, snapshot: &Snapshot, export: &NewExport) -> Result<Reply, Refusal>
        requires { IsPrefix self.old.seen snapshot.now.history }
        ensures { DefinesSo snapshot.now.history self.old self.new export.now (reply_of result) }
    {
        let table = &export.table;
        let Some((number, stood)) = snapshot.table(&table.text) else {
            return Err(Refusal::Unknown {
                at: table.at as u64,
            });
        };
        let definition = bound(snapshot, export, number, stood)?;
        self.hold(snapshot, definition, export.name.at)
    }

    // Holds the export unless one of its name stands, or there are as many as may be. `at` is the place of the name.
    fn hold(
        &mut self,
        snapshot: &Snapshot,
        definition: Definition,
        at: usize,
    ) -> Result<Reply, Refusal>
        requires goes_on { IsPrefix self.old.seen snapshot.now.history }
        requires defined { IsDefined (log snapshot.now.history) (export_of definition) }
        requires start { definition.end ≡ 0 }
        ensures { let e = export_of definition in HoldsSo snapshot.now.history self.old self.new at e (there_of (exports_in self.old) e.name) (reply_of result) }
    {
        match self.number_of(&definition.name) {
            Some(number) => {
                if self.defined[number].is_same(&definition) {
                    Ok(Reply::Exporting)
                } else {
                    Err(Refusal::Exists { at: at as u64 })
                }
            }
            None => self.add(snapshot, definition, at),
        }
    }

    // Holds an export of a new name, unless there are as many as may be.
    fn add(
        &mut self,
        snapshot: &Snapshot,
        definition: Definition,
        at: usize,
    ) -> Result<Reply, Refusal>
        requires goes_on { IsPrefix self.old.seen snapshot.now.history }
        requires defined { IsDefined (log snapshot.now.history) (export_of definition) }
        requires start { definition.end ≡ 0 }
        requires new { export_numbered definition.name (exports_in self.old).defined ≡ None }
        ensures { HoldsSo snapshot.now.history self.old self.new at (export_of definition) None (reply_of result) }
    {
        if self.defined.len() >= MOST {
            return Err(Refusal::Full { limit: MOST as u64 });
        }
        self.defined.push(definition)?;
        self.seen = Seen::at(snapshot);
        Ok(Reply::Exporting)
    }

    // Exports what came since the last range.
    fn run(&mut self, snapshot: &Snapshot, name: &Identifier) -> Result<Reply, Refusal>
        requires { IsPrefix self.old.seen snapshot.now.history }
        ensures { RunsSo snapshot.now.history self.old self.new name.now (reply_of result) }
    {
        let Some(number) = self.number_of(&name.text) else {
            return Err(Refusal::Unknown { at: name.at as u64 });
        };
        let to = snapshot.cursor();
        let definition = &self.defined[number];
        if definition.end == to {
            return Ok(Reply::Nothing);
        }
        let written = write_range(snapshot, definition, to)?;
        self.put(snapshot, number, to, written)
    }

    // Puts the artefact of the range up to a cursor. The range is exported only where that went well.
    fn put(
        &mut self,
        snapshot: &Snapshot,
        number: usize,
        to: u64,
        written: Written,
    ) -> Result<Reply, Refusal>
        requires goes_on { IsPrefix self.old.seen snapshot.now.history }
        requires number { number < length self.old.defined }
        requires to { to ≡ cursor_of snapshot.now.history }
        requires ahead { end_of number (exports_in self.old) < to }
        requires written { IsWrittenFor snapshot.now.history (exports_in self.old) number to written }
        ensures { PutsRange snapshot.now.history self.old self.new number to written.rows (reply_of result) }
    {
        let above = self.defined[number].end;
        let range = ExportRange {
            export: number,
            above,
            to,
        };
        match self
            .ledger
            .put(&range, written.name.as_str(), written.bytes.as_slice())
        {
            Ok(()) => {
                self.defined[number].end = to;
                self.seen = Seen::at(snapshot);
                Ok(Reply::Exported {
                    from: above + 1,
                    to,
                    rows: written.rows,
                })
            }
            Err(_) => Err(Refusal::ArtefactFault),
        }
    }
}

// Where the first export of a name stands.
fn number_in(defined: &[Definition], name: &str) -> Option<usize>
    ensures { result ≡ position (λ (d : Held). pointwise nat_eq d.name name.now) defined.now }
{
    defined
        .iter()
        .position(|definition| definition.name.as_str() == name)
}

impl<A: Artefacts> Exporter for ArtefactExporter<A> {
    ghost use Rattle.kq_export_run.specs.Held.{told_of};

    ghost told = { told_of };

    fn export(&mut self, snapshot: &Snapshot, asked: &Export) -> Result<Reply, Refusal> {
        if let Some(at) = unsupported(asked) {
            return Err(Refusal::Unsupported { at });
        }
        match asked {
            Export::Define(export) => self.define(snapshot, export),
            Export::Run(name) => self.run(snapshot, name),
        }
    }
}
