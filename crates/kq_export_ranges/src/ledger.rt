// The ranges that were exported, and what was put for them.
ghost use Rattle.std.specs.Prelude.{◌≡◌, ◌<◌, []};
ghost use Rattle.kq_world.specs.Outside.{HasCause};
ghost use Rattle.kq_export_ranges.specs.Ranges.{end_in};
ghost use Rattle.kq_export_ranges.specs.Ledgers.{Commits, IsKept};

use crate::range::ExportRange;
use kq_world::{Artefacts, Failed, Recorded};
use std::marker::Model;

/// The ranges that were exported, over the artefacts into which they went.
///
/// Contracts see the ranges, what was put, which is one artefact for each range, and how often a put has failed. The ranges
/// of each export follow on each other from cursor 0 on (`IsKept`).
#[derive(Drop)]
pub struct Ledger<A: Artefacts> {
    artefacts: A,
    ranges: Recorded<ExportRange>,
}

impl<A: Artefacts> Model for Ledger<A> {
    ghost use Rattle.std.specs.Coded.{codes};
    ghost use Rattle.kq_export_ranges.specs.Ledgers.{IsKept, LedgerView};

    ghost Value = { LedgerView };

    ghost coded = { Prim.hlevel codes };

    ghost view = { λ l. record { ranges = l.ranges; puts = A.kept l.artefacts; faults = A.faults l.artefacts } };

    ghost invariant = { λ l. IsKept l.ranges (A.kept l.artefacts) };
}

impl<A: Artefacts> Ledger<A> {
    /// No ranges yet, over artefacts into which nothing was put.
    pub fn new(artefacts: A) -> Ledger<A>
        requires { A.kept artefacts ≡ [] }
        ensures { result ≡ record { ranges = []; puts = []; faults = A.faults artefacts } }
    {
        Ledger {
            artefacts,
            ranges: Recorded::new(),
        }
    }

    /// Puts the artefact of the next range of an export. The range is exported only where that went well: else what was
    /// exported and put is as it was.
    pub fn put(&mut self, range: &ExportRange, name: &str, bytes: &[u8]) -> Result<(), Failed>
        requires begins { range.now.above ≡ end_in range.now.export self.old.ranges }
        requires ahead { range.now.above < range.now.to }
        ensures commits { Commits self.old self.new result range.now name.now bytes.now }
        ensures cause { HasCause self.old.faults self.new.faults result }
    {
        match self.artefacts.put(name, bytes) {
            Ok(()) => {
                self.ranges.push(range);
                Ok(())
            }
            Err(Failed) => Err(Failed),
        }
    }

    /// The artefacts, into which one was put for each range.
    pub fn close(self) -> A
        ensures kept { A.kept result ≡ self.puts }
        ensures faults { A.faults result ≡ self.faults }
        ensures ranges { IsKept self.ranges self.puts }
    {
        self.artefacts
    }
}
