// What numbers stand for.
/// The kind of cells that hold numbers.
#[derive(Clone, Copy)]
pub enum Number {
    Longs,
    /// Datetimes, as ticks.
    Moments,
    /// Timespans, as ticks.
    Spans,
}
