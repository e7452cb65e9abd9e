// Rows as contracts saw them once.
ghost use Rattle.std.specs.Prelude.{◌≡◌};

use crate::columns::Columns;
use std::marker::Model;
use std::snapshot::Snapshot;

// Rows of which the program keeps nothing, and how often they were copied.
#[cycle(seen)]
#[derive(Drop)]
pub(crate) struct Seen {
    source: Source,
}

#[cycle(seen)]
#[derive(Drop)]
enum Source {
    Columns(Snapshot<Columns>),
    Copy(Snapshot<Seen>),
}

impl Model for Seen {
    ghost use Rattle.std.specs.Prelude.{ℕ, List};
    ghost use Rattle.kq_value.specs.declared.value.Value.{Value as Cell};
    ghost use Rattle.std.specs.Coded.{coded_list, coded_ℕ, coded×};
    ghost use Rattle.kq_value.specs.contracts.value.Value as cell;

    ghost Value = { List (List Cell) × ℕ };

    ghost coded = { coded× (coded_list (coded_list cell.the_row.coded)) coded_ℕ };

    ghost use Rattle.kq_store_extent.specs.SeenRows.{seen_from};

    ghost view = { λ s. seen_from s.source };

    ghost size = { λ s. s.1 };

    ghost use Rattle.std.proofs.Common.{arith};

    ghost size_decreases = { λ a h. Prim.grind arith };
}

impl Seen {
    pub(crate) fn of(columns: &Columns) -> Seen
        ensures { result.0 ≡ columns.now }
    {
        Seen {
            source: Source::Columns(Snapshot::of(columns)),
        }
    }

    pub(crate) fn copy(&self) -> Seen
        ensures { result.0 ≡ self.now.0 }
    {
        Seen {
            source: Source::Copy(Snapshot::of(self)),
        }
    }
}
