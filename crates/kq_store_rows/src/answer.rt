// Answers.
use crate::rows::Rows;
use kq_value::Schema;

/// What a query gives: its columns and its rows, and whether their order is part of it.
#[derive(Drop)]
pub struct Answer {
    pub schema: Schema,
    pub ordered: bool,
    pub rows: Rows,
}
