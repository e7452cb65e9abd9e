// Row operators that rows go through.
use kq_run_row_operators::Operator;
use kq_value::Value;

/// Row operators, one behind another, with the cells of the scalar lets and the ticks of the command's moment.
#[derive(Clone, Copy)]
pub struct Pipeline<'a> {
    pub operators: &'a [Operator<'a>],
    pub lets: &'a [Value],
    pub moment: i64,
}
