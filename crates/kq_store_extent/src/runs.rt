// Ids by runs.
ghost use Rattle.std.specs.Prelude.{◌≡◌, ◌↔◌, ◌<◌, ◌≤◌, ◌++◌, [], IfSome, IsNone, OnOk, Some, length, map, slice_get};
ghost use Rattle.std.specs.List.{All};
ghost use Rattle.kq_store_column.specs.Bounds.{AreBounds};
ghost use Rattle.kq_store_extent.specs.Cells.{cursor_of};

use crate::run::Run;
use kq_value::{Memory, RecordId};
use std::alloc::Global;
use std::marker::Model;

// The ids of records, one run after another. Contracts see the list of the ids.
#[derive(Drop)]
pub(crate) struct Runs {
    runs: Vec<Run>,
}

impl Model for Runs {
    ghost use Rattle.std.specs.Prelude.{List};
    ghost use Rattle.std.specs.List.{All};
    ghost use Rattle.std.specs.Coded.{coded_list};
    ghost use Rattle.kq_value.specs.declared.record_id.RecordId.{RecordId as Id};
    ghost use Rattle.kq_value.specs.contracts.record_id.RecordId as id;
    ghost use Rattle.kq_store_extent.specs.Runs.{ids_by, IsInRange};

    ghost Value = { List Id };

    ghost coded = { coded_list id.the_row.coded };

    ghost view = { λ r. ids_by r.runs.items };

    ghost invariant = { λ r. All IsInRange r.runs.items };
}

impl Runs {
    ghost use Rattle.kq_store_extent.specs.Runs.{ids_by, IsInRange};

    pub fn new(alloc: Global) -> Runs
        ensures { result ≡ [] }
    {
        Runs {
            runs: Vec::new(alloc),
        }
    }

    pub fn from_vec(runs: Vec<Run>) -> Runs
        requires { All IsInRange runs.items }
        ensures { result ≡ ids_by runs.items }
    {
        Runs { runs }
    }

    /// Adds the ids of others behind these.
    pub fn extend(&mut self, others: &Runs) -> Result<(), Memory>
        ensures { OnOk result (self.new ≡ self.old ++ others.now) }
    {
        self.runs.extend_from_slice(others.runs.as_slice())?;
        Ok(())
    }

    pub fn id_of(&self, index: usize) -> RecordId
        requires { index < length self.now }
        ensures { slice_get self.now index ≡ Some result }
    {
        let mut rest = index as u64;
        for run in &self.runs {
            if rest < run.count {
                return RecordId {
                    cursor: run.cursor,
                    ordinal: run.first + rest,
                };
            }
            rest -= run.count;
        }
        unreachable!()
    }

    /// The least and the greatest cursor of the ids.
    pub fn cursors(&self) -> Option<(u64, u64)>
        ensures none { IsNone result ↔ (self.now ≡ []) }
        ensures bounds { IfSome result (λ cursors. AreBounds ◌≤◌ (map cursor_of self.now) cursors.0 cursors.1) }
    {
        let mut cursors: Option<(u64, u64)> = None;
        for run in &self.runs {
            if run.count == 0 {
                continue;
            }
            cursors = Some(match cursors {
                None => (run.cursor, run.cursor),
                Some((least, greatest)) => (run.cursor.min(least), run.cursor.max(greatest)),
            });
        }
        cursors
    }
}
