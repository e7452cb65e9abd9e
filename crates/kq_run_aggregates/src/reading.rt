// Columns of numbers, and the cells that the numbers stand for.
ghost use Rattle.std.specs.Prelude.{◌≡◌, map, IfSome};
ghost use Rattle.kq_store_column_view.specs.Vectors.{cells_of};
ghost use Rattle.kq_run_aggregates.specs.Alone.{cell_as};

use kq_store_column_view::Vector;
use kq_value::Value;

/// What the numbers of a column stand for.
#[derive(Clone, Copy)]
pub enum Reading {
    Long,
    Moment,
    Span,
}

impl Reading {
    pub fn cell(self, number: i64) -> Value
        ensures { result ≡ cell_as self number }
    {
        match self {
            Reading::Long => Value::Long(number),
            Reading::Moment => Value::Moment(number),
            Reading::Span => Value::Span(number),
        }
    }
}

/// The numbers of a column, and what they stand for, where it is known to have nothing else.
pub fn numbers_in<'a>(column: &'a Vector<'_>) -> Option<(Reading, &'a [i64])>
    ensures { IfSome result (λ read. cells_of column.now ≡ map (cell_as read.0) read.1.now) }
{
    if let Some(longs) = column.longs() {
        return Some((Reading::Long, longs));
    }
    if let Some(ticks) = column.moments() {
        return Some((Reading::Moment, ticks));
    }
    match column.spans() {
        Some(ticks) => Some((Reading::Span, ticks)),
        None => None,
    }
}
