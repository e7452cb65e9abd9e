// What the steps of a policy's plan may be.
ghost use Rattle.std.specs.Prelude.{◌≡◌, ◌↔◌, IsTrue, map};
ghost use Rattle.std.specs.List.{list_any};
ghost use Rattle.kq_policy_entries.specs.Policies as the;
ghost use Rattle.kq_policy_moments.specs.kq_catalog_journal.PolicyBodies.{IsPolicyBody};
ghost use Rattle.kq_policy_moments.specs.kq_catalog_journal.PolicyBodies as form;
ghost use Rattle.kq_plan.specs.Plans.{planned_of, stepping_of};

use kq_plan::{LeafKind, Plan, Step, Work};
use kq_policy_moments::work_asks;
use kq_value::Text;

fn reads_view(step: &Step) -> bool
    ensures { result ≡ form.reads_view (stepping_of step.now) }
{
    match &step.work {
        Work::Leaf(LeafKind::View, _) => true,
        Work::Leaf(LeafKind::Part, _) => true,
        _ => false,
    }
}

fn some_reads_view(steps: &[Step]) -> bool
    ensures { result ≡ list_any form.reads_view (map stepping_of steps.now) }
{
    for step in steps {
        if reads_view(step) {
            return true;
        }
    }
    false
}

fn reads_table(step: &Step, table: &Text) -> bool
    ensures { result ≡ the.reads_table table.now (stepping_of step.now) }
{
    match &step.work {
        Work::Leaf(LeafKind::Table, name) => name.same(table),
        _ => false,
    }
}

fn some_reads_table(steps: &[Step], table: &Text) -> bool
    ensures { result ≡ list_any (the.reads_table table.now) (map stepping_of steps.now) }
{
    for step in steps {
        if reads_table(step, table) {
            return true;
        }
    }
    false
}

fn some_asks_moment(steps: &[Step]) -> bool
    ensures { result ≡ list_any form.asks_moment (map stepping_of steps.now) }
{
    for step in steps {
        if work_asks(&step.work) {
            return true;
        }
    }
    false
}

// Whether the leaves of a plan are tables alone, the source among them, and no step asks for the moment of a command. Takes no memory.
pub(crate) fn is_policy_body(plan: &Plan, source: &Text) -> bool
    ensures { IsTrue result ↔ IsPolicyBody source.now (planned_of plan.now) }
{
    let steps = plan.steps.as_slice();
    if some_reads_view(steps) || some_asks_moment(steps) {
        return false;
    }
    some_reads_table(steps, source)
}
