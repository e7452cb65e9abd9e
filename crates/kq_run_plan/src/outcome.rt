// What the steps of a plan gave.
ghost use Rattle.std.specs.Prelude.{◌≡◌, [], IfOk};
ghost use Rattle.kq_run_plan.specs.Outcomes.{is_fault, outcome_at, rows_of, order_of, cells_of};

use kq_run_scan::Held;
use kq_store_rows::Rows;
use kq_value::{Memory, Value};
use std::alloc::Global;

/// What a step of a plan gave, or the plan as a whole.
#[derive(Drop)]
pub enum Outcome {
    /// Rows, and whether they are in an order that the query asked for.
    Table { ordered: bool, rows: Held },
    /// The cell of a scalar let.
    Cell(Value),
    /// A result was outside its type, at the stage of this number.
    Overflow { stage: u32 },
    /// More rows than this were asked for.
    Full { limit: u64 },
}

impl Outcome {
    /// Whether it ends its plan.
    pub fn is_fault(&self) -> bool
        ensures { result ≡ is_fault self.now }
    {
        matches!(self, Outcome::Overflow { .. } | Outcome::Full { .. })
    }
}

// The rows of the step with this number.
pub(crate) fn rows_at<'a>(done: &'a [Outcome], i: usize, none: &'a Held) -> &'a Held
    requires { none.now ≡ [] }
    ensures { result.now ≡ rows_of done.now i }
{
    match done.get(i) {
        Some(Outcome::Table { rows, .. }) => rows,
        _ => none,
    }
}

pub(crate) fn order_at(done: &[Outcome], i: usize) -> bool
    ensures { result ≡ order_of done.now i }
{
    match done.get(i) {
        Some(Outcome::Table { ordered, .. }) => *ordered,
        _ => true,
    }
}

// The cells of the scalar lets.
pub(crate) fn cells(alloc: Global, done: &[Outcome]) -> Result<Vec<Value>, Memory>
    ensures { IfOk result (λ vs. vs.items ≡ cells_of done.now) }
{
    let mut cells = Vec::new(alloc);
    for outcome in done {
        if let Outcome::Cell(value) = outcome {
            cells.push(value.clone_in()?)?;
        }
    }
    Ok(cells)
}

pub(crate) fn take_out(alloc: Global, done: Vec<Outcome>, i: usize) -> Outcome
    ensures { result ≡ outcome_at done.items i }
{
    let mut done = done;
    if i < done.len() {
        done.swap_remove(i)
    } else {
        Outcome::Table {
            ordered: true,
            rows: Held::own(Rows::new(alloc)),
        }
    }
}
