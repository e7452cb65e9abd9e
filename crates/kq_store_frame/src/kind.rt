// Kinds of cells that are numbers.
ghost use Rattle.std.specs.Prelude.{◌≡◌, map, IfSome};
ghost use Rattle.kq_store_frame.specs.Series.{cell_by};
ghost use Rattle.kq_store_column_view.specs.Vectors.{cells_of};

use kq_store_column_view::Vector;
use kq_value::Value;

/// A kind of cells, each of which is a number and none null.
#[derive(Clone, Copy, Drop)]
pub enum Kind {
    Long,
    Moment,
    Span,
}

impl Kind {
    /// The kind of a column, where the code knows that all its cells are of one.
    pub fn of(column: &Vector) -> Option<Kind> {
        if column.longs().is_some() {
            return Some(Kind::Long);
        }
        if column.moments().is_some() {
            return Some(Kind::Moment);
        }
        if column.spans().is_some() {
            return Some(Kind::Span);
        }
        None
    }

    /// The numbers of a column, where the code knows that its cells are of this kind.
    pub fn numbers_in<'v>(self, column: &'v Vector) -> Option<&'v [i64]>
        ensures { IfSome result (λ numbers. cells_of column.now ≡ map (cell_by self) numbers.now) }
    {
        match self {
            Kind::Long => column.longs(),
            Kind::Moment => column.moments(),
            Kind::Span => column.spans(),
        }
    }

    pub(crate) fn cell(self, number: i64) -> Value
        ensures { result ≡ cell_by self number }
    {
        match self {
            Kind::Long => Value::Long(number),
            Kind::Moment => Value::Moment(number),
            Kind::Span => Value::Span(number),
        }
    }

    pub(crate) fn lent(self, numbers: &[i64]) -> Vector<'_>
        ensures { cells_of result ≡ map (cell_by self) numbers.now }
    {
        match self {
            Kind::Long => Vector::LentLongs(numbers),
            Kind::Moment => Vector::LentMoments(numbers),
            Kind::Span => Vector::LentSpans(numbers),
        }
    }
}
