// Plans and their steps.

use crate::work::Work;
use kq_plan_expressions::Field;

/// One step: the number of its stage in the text, from 1, what it does, and the columns of its rows. The step of a scalar let has
/// one column, that of its cell.
#[derive(Drop)]
pub struct Step {
    pub stage: u32,
    pub work: Work,
    pub columns: Vec<Field>,
}

/// Steps in the order of their evaluation, and the number of the one whose rows are the answer. A step names those whose rows it
/// takes by their numbers, from 0, which are less than its own; several may take the rows of one.
#[derive(Drop)]
pub struct Plan {
    pub steps: Vec<Step>,
    pub output: usize,
}
