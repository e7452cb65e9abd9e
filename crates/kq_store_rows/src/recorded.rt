// Rows that contracts alone see.
ghost use Rattle.std.specs.Prelude.{◌≡◌, ◌↔◌, ◌<◌, ◌^◌, [], IsTrue, length};

use crate::rows::Rows;
use crate::seen::Seen;
use std::marker::Model;

/// Rows of which the program keeps their number, and contracts see their list: what an event says of the rows that lie elsewhere.
#[derive(Drop)]
pub struct RecordedRows {
    seen: Seen,
    count: u64,
}

impl Model for RecordedRows {
    ghost use Rattle.std.specs.Prelude.{◌≡◌, ◌<◌, ◌^◌, List, length};
    ghost use Rattle.kq_value.specs.declared.value.Value.{Value as Cell};
    ghost use Rattle.std.specs.Coded.{coded_list};
    ghost use Rattle.kq_value.specs.contracts.value.Value as cell;

    ghost Value = { List (List Cell) };

    ghost coded = { coded_list (coded_list cell.the_row.coded) };

    ghost view = { λ r. r.seen.0 };

    ghost invariant = { λ r. (r.count ≡ length r.seen.0) × (r.count < 2 ^ 63) };
}

impl RecordedRows {
    pub fn of(rows: &Rows) -> RecordedRows
        ensures { result ≡ rows.now }
    {
        RecordedRows {
            seen: Seen::of(rows),
            count: rows.len() as u64,
        }
    }

    pub fn len(&self) -> u64
        ensures count { result ≡ length self.now }
        ensures small { result < 2 ^ 63 }
    {
        self.count
    }

    pub fn is_empty(&self) -> bool
        ensures { IsTrue result ↔ (self.now ≡ []) }
    {
        self.count == 0
    }

    pub fn copy(&self) -> RecordedRows
        ensures { result ≡ self.now }
    {
        RecordedRows {
            seen: self.seen.copy(),
            count: self.count,
        }
    }
}
