// The leaves and the moments of a plan.
ghost use Rattle.std.specs.Prelude.{◌≡◌, map};
ghost use Rattle.std.specs.List.{list_any};
ghost use Rattle.kq_export_binder.specs.Bodies as form;
ghost use Rattle.kq_plan.specs.Plans.{doing_of, planned_of, stepping_of};

use kq_plan::{LeafKind, Plan, Step, Work};
use kq_policy_moments::work_asks;
use kq_value::Text;

fn reads_other(work: &Work, table: &Text) -> bool
    ensures { result ≡ form.reads_other table.now (doing_of work.now) }
{
    match work {
        Work::Leaf(LeafKind::Table, name) => !name.same(table),
        Work::Leaf(LeafKind::View, _) => true,
        Work::Leaf(LeafKind::Part, _) => true,
        _ => false,
    }
}

fn is_foreign(step: &Step, table: &Text) -> bool
    ensures { result ≡ form.is_foreign table.now (stepping_of step.now) }
{
    reads_other(&step.work, table) || work_asks(&step.work)
}

fn some_is_foreign(steps: &[Step], table: &Text) -> bool
    ensures { result ≡ list_any (form.is_foreign table.now) (map stepping_of steps.now) }
{
    for step in steps {
        if is_foreign(step, table) {
            return true;
        }
    }
    false
}

// Whether the leaves of a plan are the table alone, and no step asks for the moment of a command. Takes no memory.
pub(crate) fn is_export_body(plan: &Plan, table: &Text) -> bool
    ensures { result ≡ form.is_export_body table.now (planned_of plan.now) }
{
    !some_is_foreign(plan.steps.as_slice(), table)
}
