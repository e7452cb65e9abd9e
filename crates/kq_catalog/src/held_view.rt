// Views with their parts.
ghost use Rattle.std.specs.Prelude.{◌≡◌, IfOk};
ghost use Rattle.kq_catalog.specs.Views.{folded_view, new_view};

use kq_catalog_journal::{SharedView, View};
use kq_run_shards::Parted;
use kq_value::Memory;
use std::marker::Model;

// A view with the cursor that made it, the cursor up to which it is materialized, and its part.
#[derive(Drop)]
pub(crate) struct HeldView {
    view: SharedView,
    made: u64,
    cursor: u64,
    part: Parted,
}

impl Model for HeldView {
    ghost use Rattle.std.specs.Coded.{codes};
    ghost use Rattle.kq_value.specs.contracts.value.Value as cell;
    ghost use Rattle.kq_plan_expressions.specs.contracts.expr.Expr as expr;
    ghost use Rattle.kq_catalog.specs.Views.{HeldView as Seen};

    ghost Value = { Seen };

    ghost coded = { Prim.hlevel (codes, cell.the_row.coded, expr.the_row.coded) };

    ghost view = { λ h. record { view = h.view; made = h.made; cursor = h.cursor; part = h.part } };
}

impl HeldView {
    // A view before any fold: its part is that of no records, and it is materialized up to its base.
    pub(crate) fn new(view: SharedView, made: u64, part: Parted) -> HeldView
        ensures { result ≡ new_view made view part }
    {
        HeldView {
            made,
            cursor: view.get().base,
            part,
            view,
        }
    }

    pub(crate) fn view(&self) -> &View
        ensures { result.now ≡ self.now.view }
    {
        self.view.get()
    }

    pub(crate) fn made(&self) -> u64
        ensures { result ≡ self.now.made }
    {
        self.made
    }

    pub(crate) fn cursor(&self) -> u64
        ensures { result ≡ self.now.cursor }
    {
        self.cursor
    }

    pub(crate) fn part(&self) -> &Parted
        ensures { result.now ≡ self.now.part }
    {
        &self.part
    }

    // The view with the part up to a later cursor.
    pub(crate) fn folded(&self, to: u64, part: Parted) -> Result<HeldView, Memory>
        ensures { IfOk result (λ h. h ≡ folded_view to part self.now) }
    {
        Ok(HeldView {
            view: self.view.share()?,
            made: self.made,
            cursor: to,
            part,
        })
    }
}
