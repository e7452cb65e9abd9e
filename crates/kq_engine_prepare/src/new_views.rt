// What a view that is to be made is due, over a snapshot.
ghost use Rattle.std.specs.Prelude.{◌≡◌, ◌<◌, IfErr, IfOk, Some, length};
ghost use Rattle.kq_read_commands.specs.declared.command.Change.TheVariants as changes;
ghost use Rattle.kq_engine_prepare.specs.Due.{IsDueByLog, IsNamedDue, IsUntakenDue, IsUnviewedDue, IsViewDue, IsViewMade, refusal_for};
ghost use Rattle.kq_engine_prepare.specs.Found.{Finds, OffersView, Stands};
ghost use Rattle.kq_view_body.specs.kq_run_gather.Bodies.{IsViewBody};
ghost use Rattle.kq_catalog_journal.specs.History.{log, table_numbered, tables};
ghost use Rattle.kq_plan.specs.Plans.{planned_of};
ghost use Rattle.kq_reply.specs.declared.refusal.Refusal.TheVariants as refusals;

use crate::changes::has_room;
use crate::found::{Found, Offer};
use kq_catalog::{Intent, Snapshot};
use kq_catalog_journal::{SharedView, Table, View};
use kq_engine_query::QueryScope;
use kq_plan::Plan;
use kq_read_commands::NewView;
use kq_reply::{Refusal, Reply};
use kq_value::Memory;
use kq_view_body::{ViewFault, bind_body};
use kq_view_fold::empty_part;

// A view of a good text. Its body is bound here.
pub(crate) fn create_view(snapshot: &Snapshot, view: &NewView) -> Result<Found, Refusal>
    ensures due { Finds (IsDueByLog snapshot.now.limits (log snapshot.now.history) (changes.CreateView view.now)) result }
    ensures offers { IfOk result OffersView }
    ensures memory { IfErr result (λ r. r ≡ refusals.Memory → Stands (table_numbered view.now.table.text (tables (log snapshot.now.history)))) }
{
    let name = &view.table;
    let Some((number, table)) = snapshot.table(&name.text) else {
        return Err(Refusal::Unknown { at: name.at as u64 });
    };
    bind(snapshot, view, number, table)
}

// Over a table that stands.
fn bind(snapshot: &Snapshot, view: &NewView, number: u32, table: &Table) -> Result<Found, Refusal>
    requires { table_numbered view.now.table.text (tables (log snapshot.now.history)) ≡ Some (record { number = number; table = table.now }) }
    ensures due { Finds (IsViewDue snapshot.now.limits (log snapshot.now.history) view.now (Some (record { number = number; table = table.now }))) result }
    ensures offers { IfOk result OffersView }
{
    let alloc = snapshot.allocator();
    let names = QueryScope::new(snapshot)?;
    let body = &view.body;
    match bind_body(
        alloc,
        body.text.as_str(),
        &body.tree,
        &view.table.text,
        &names,
    ) {
        Ok(plan) => name_view(snapshot, view, number, plan),
        Err(fault) => Err(refusal(fault)),
    }
}

fn refusal(fault: ViewFault) -> Refusal
    ensures { result ≡ refusal_for fault }
{
    match fault {
        ViewFault::Unsupported { at } => Refusal::Unsupported { at: at as u64 },
        ViewFault::Unknown { at } => Refusal::Unknown { at: at as u64 },
        ViewFault::Mistyped { at } => Refusal::Mistyped { at: at as u64 },
        ViewFault::BadView { at } => Refusal::BadView { at: at as u64 },
        ViewFault::Memory => Refusal::Memory,
    }
}

// The body is bound.
fn name_view(snapshot: &Snapshot, view: &NewView, number: u32, plan: Plan) -> Result<Found, Refusal>
    requires { IsViewBody (planned_of plan) }
    ensures due { Finds (IsNamedDue snapshot.now.limits (log snapshot.now.history) view.now number (planned_of plan)) result }
    ensures offers { IfOk result OffersView }
{
    let name = &view.name;
    match snapshot.view(&name.text) {
        Some((stood, _)) if view.unless_there => Ok(Found::Says(Reply::Kept {
            cursor: snapshot.view_made(stood),
        })),
        Some(_) => Err(Refusal::Exists { at: name.at as u64 }),
        None => make_unless_table(snapshot, view, number, plan),
    }
}

// No view has the name.
fn make_unless_table(
    snapshot: &Snapshot,
    view: &NewView,
    number: u32,
    plan: Plan,
) -> Result<Found, Refusal>
    requires { IsViewBody (planned_of plan) }
    ensures due { Finds (IsUnviewedDue snapshot.now.limits (log snapshot.now.history) view.now number (planned_of plan)) result }
    ensures offers { IfOk result OffersView }
{
    let name = &view.name;
    match snapshot.table(&name.text) {
        Some(_) => Err(Refusal::Exists { at: name.at as u64 }),
        None => make(snapshot, view, number, plan),
    }
}

// Nothing has the name.
fn make(snapshot: &Snapshot, view: &NewView, number: u32, plan: Plan) -> Result<Found, Refusal>
    requires { IsViewBody (planned_of plan) }
    ensures due { Finds (IsUntakenDue snapshot.now.limits (log snapshot.now.history) view.now number (planned_of plan)) result }
    ensures offers { IfOk result OffersView }
{
    let limits = snapshot.limits();
    if snapshot.view_count() as u64 >= limits.views {
        return Err(Refusal::Full {
            limit: limits.views,
        });
    }
    if !has_room(snapshot) {
        return Err(Refusal::Full {
            limit: limits.commits,
        });
    }
    let part = empty_part(snapshot.allocator(), &plan)?;
    let made = new_view(snapshot, view, number, plan)?;
    let intent = Intent::CreateView {
        view: SharedView::new(snapshot.allocator(), made)?,
        part,
    };
    Ok(Found::Commits(Offer {
        intent,
        unless: None,
    }))
}

fn new_view(snapshot: &Snapshot, view: &NewView, number: u32, body: Plan) -> Result<View, Memory>
    requires { length (log snapshot.now.history) < snapshot.now.limits.commits }
    ensures { IfOk result (λ v. IsViewMade (log snapshot.now.history) view.now number (planned_of body) v) }
{
    let base = if view.backfill {
        0
    } else {
        snapshot.cursor() + 1
    };
    Ok(View {
        name: view.name.text.clone_in()?,
        source: number,
        body,
        text: view.query.clone_in()?,
        base,
    })
}
