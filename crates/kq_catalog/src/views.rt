// The views by number and by name.
ghost use Rattle.std.specs.Prelude.{◌≡◌, ◌<◌, ◌++◌, ◌∷◌, ◌^◌, [], IfOk, IfSome, None, Some, length, slice_get};
ghost use Rattle.kq_catalog_journal.specs.Edits.{changed};
ghost use Rattle.kq_catalog_indexes.specs.Places.{place_of};
ghost use Rattle.kq_catalog.specs.Views.{folded_view, names_held, with_new};

use crate::held_view::HeldView;
use kq_catalog_indexes::Names;
use kq_run_shards::Parted;
use kq_store_shared_lists::SharedList;
use kq_value::{Memory, Text};
use std::alloc::Global;
use std::marker::Model;
use std::sync::Arc;

// The views in the order of their creation. Copies share them.
#[derive(Drop)]
pub(crate) struct Views {
    held: SharedList<HeldView>,
    names: Arc<Names, Global>,
}

impl Model for Views {
    ghost use Rattle.std.specs.Prelude.{◌≡◌, List};
    ghost use Rattle.std.specs.Arc.{arc_value};
    ghost use Rattle.std.specs.Coded.{codes};
    ghost use Rattle.kq_value.specs.contracts.value.Value as cell;
    ghost use Rattle.kq_plan_expressions.specs.contracts.expr.Expr as expr;
    ghost use Rattle.kq_catalog.specs.Views.{HeldView as Seen, names_held};

    ghost Value = { List Seen };

    ghost coded = { Prim.hlevel (codes, cell.the_row.coded, expr.the_row.coded) };

    ghost view = { λ v. v.held };

    // the names are the views'
    ghost invariant = { λ v. arc_value v.names ≡ names_held v.held };
}

impl Views {
    pub(crate) fn new(alloc: Global) -> Result<Views, Memory>
        ensures { IfOk result (λ views. views ≡ []) }
    {
        Ok(Views {
            held: SharedList::new(alloc),
            names: Arc::new(alloc, Names::new(alloc))?,
        })
    }

    pub(crate) fn len(&self) -> usize
        ensures { result ≡ length self.now }
    {
        self.held.len()
    }

    // The view of a number.
    pub(crate) fn get(&self, number: u32) -> &HeldView
        requires { number < length self.now }
        ensures { slice_get self.now number ≡ Some result.now }
    {
        self.held.get(number as usize)
    }

    // The number of the view of a name.
    pub(crate) fn find(&self, name: &Text) -> Option<u32>
        ensures { result ≡ place_of name.now (names_held self.now) }
    {
        self.names.find(name)
    }

    // The views, and the new one where there is one.
    pub(crate) fn with_new(&self, alloc: Global, view: Option<HeldView>) -> Result<Views, Memory>
        requires new { IfSome view (λ v. place_of v.view.name (names_held self.now) ≡ None) }
        requires few { length self.now < 2 ^ 32 }
        ensures { IfOk result (λ views. views ≡ with_new self.now view) }
    {
        match view {
            Some(view) => self.with_view(alloc, view),
            None => self.share(),
        }
    }

    fn with_view(&self, alloc: Global, view: HeldView) -> Result<Views, Memory>
        requires new { place_of view.view.name (names_held self.now) ≡ None }
        requires few { length self.now < 2 ^ 32 }
        ensures { IfOk result (λ views. views ≡ self.now ++ view ∷ []) }
    {
        let names = Arc::new(alloc, self.names.with(&view.view().name)?)?;
        let mut held = self.held.share()?;
        held.push(Arc::new(alloc, view)?)?;
        Ok(Views { held, names })
    }

    // The views after a fold of one.
    pub(crate) fn with_fold(
        &self,
        alloc: Global,
        number: u32,
        to: u64,
        part: Parted,
    ) -> Result<Views, Memory>
        requires { number < length self.now }
        ensures { IfOk result (λ views. views ≡ changed (folded_view to part) number self.now) }
    {
        let at = number as usize;
        let folded = self.held.get(at).folded(to, part)?;
        let mut held = self.held.share()?;
        held.set(at, Arc::new(alloc, folded)?)?;
        let names = Arc::try_clone(&self.names)?;
        Ok(Views { held, names })
    }

    pub(crate) fn share(&self) -> Result<Views, Memory>
        ensures { IfOk result (λ views. views ≡ self.now) }
    {
        let held = self.held.share()?;
        let names = Arc::try_clone(&self.names)?;
        Ok(Views { held, names })
    }
}
