// What a cascade runs on.
ghost use Rattle.std.specs.Prelude.{◌≡◌, All, IfOk};
ghost use Rattle.kq_catalog_journal.specs.Enabled.{enabled};
ghost use Rattle.kq_catalog_journal.specs.Force.{IsStanding};
ghost use Rattle.kq_policy_cascade.specs.Lent.{HoldsRows};
ghost use Rattle.kq_policy_cascade.specs.Queried.{AnswersEntry};
ghost use Rattle.kq_catalog_journal.specs.Typed.{IsLead};
ghost use Rattle.kq_value.specs.Typed.{HasTypes};

use crate::batch::BatchRows;
use kq_catalog_journal::Due;
use kq_store_extent::TableExtents;
use kq_store_rows::{Cause, Rows};
use kq_value::{Field, Memory};
use std::alloc::Global;

/// Why the query of an entry gives no rows.
#[derive(Clone, Copy, PartialEq, Eq)]
pub enum QueryFault {
    Fails(Cause),
    Memory,
}

impl From<Memory> for QueryFault {
    ghost use Rattle.std.specs.Prelude.{◌≡◌};
    ghost use Rattle.kq_policy_cascade.specs.declared.tables.QueryFault.TheVariants as fault;

    ghost from_gives = { λ _ f. f ≡ fault.Memory };

    fn from(_error: Memory) -> QueryFault {
        QueryFault::Memory
    }
}

/// The tables with their update policies, and the queries of the entries, as they are right before a commit.
pub trait Tables {
    ghost use Rattle.std.specs.Prelude.{List, Result};
    ghost use Rattle.kq_catalog_journal.specs.Force.{Rules};
    ghost use Rattle.kq_catalog_journal.specs.declared.policy.Due.{Due as Standing};
    ghost use Rattle.kq_store_rows.specs.declared.cause.Cause.{Cause as Reason};
    ghost use Rattle.kq_value.specs.declared.value.Value.{Value as Cell};

    /// The columns of each table, and the entries of each table's policy.
    ghost rules: { Self → Rules };

    /// What the query of an entry may give where its source is these rows alone, and every other table its records right before the commit, each cut
    /// to the columns that it had when the entry was set: rows, or the cause for which it gives none.
    ghost gives: { Self → Standing → List (List Cell) → Result (List (List Cell)) Reason → Type 0 };

    /// The enabled entries of all policies: targets in the order of their creation, and entries in array order.
    fn dues(&self) -> &[Due]
        ensures { result.now ≡ enabled (rules self.now).policies };

    fn columns(&self, table: u32) -> &[Field]
        ensures { result.now ≡ (rules self.now).columns table };

    /// Lays out rows of a table as an extent, once for all queries that are run over them.
    fn lay_out(&self, alloc: Global, table: u32, rows: &Rows) -> Result<TableExtents, Memory>
        requires { All (HasTypes ((rules self.now).columns table)) rows.now }
        ensures { IfOk result (λ held. HoldsRows held rows.now) };

    /// Runs the query of an entry over a batch of its source. The rows that it gives lack no column of the target's but the last ones.
    fn run(&self, alloc: Global, due: Due, batch: &BatchRows) -> Result<Rows, QueryFault>
        requires standing { IsStanding (rules self.now).policies due }
        requires typed { All (HasTypes ((rules self.now).columns due.source)) batch.now.rows }
        ensures answer { AnswersEntry (gives self.now due batch.now.rows) result }
        ensures typed { IfOk result (All (IsLead ((rules self.now).columns due.target))) };
}
