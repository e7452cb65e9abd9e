// Views.
ghost use Rattle.std.specs.Prelude.{◌≡◌, IfOk};

use kq_plan::Plan;
use kq_value::{Memory, Text};
use std::alloc::Global;
use std::marker::Model;
use std::sync::Arc;

/// A materialized view: its name, the number of the table that it reads, its query with the query's text, and the cursor above
/// which it covers the table's records. It never changes.
#[derive(Drop)]
pub struct View {
    pub name: Text,
    pub source: u32,
    pub body: Plan,
    pub text: Text,
    pub base: u64,
}

/// A handle of a view, which its copies share. Contracts see the view.
#[derive(Drop)]
pub struct SharedView {
    view: Arc<View, Global>,
}

impl Model for SharedView {
    ghost use Rattle.std.specs.Arc.{arc_value};
    ghost use Rattle.std.specs.Coded.{codes};
    ghost use Rattle.kq_value.specs.contracts.value.Value as cell;
    ghost use Rattle.kq_run_plan.specs.kq_plan_expressions.Expr as expr;
    ghost use Rattle.kq_catalog_journal.specs.declared.view.View.{View as Seen};

    ghost Value = { Seen };

    ghost coded = { Prim.hlevel (codes, cell.the_row.coded, expr.the_row.coded) };

    ghost view = { λ s. arc_value s.view };
}

impl SharedView {
    pub fn new(alloc: Global, view: View) -> Result<SharedView, Memory>
        ensures { IfOk result (λ s. s ≡ view) }
    {
        Ok(SharedView {
            view: Arc::new(alloc, view)?,
        })
    }

    pub fn get(&self) -> &View
        ensures { result.now ≡ self.now }
    {
        &self.view
    }

    /// A second handle of the same view.
    pub fn share(&self) -> Result<SharedView, Memory>
        ensures { IfOk result (λ s. s ≡ self.now) }
    {
        let view = Arc::try_clone(&self.view)?;
        Ok(SharedView { view })
    }
}
