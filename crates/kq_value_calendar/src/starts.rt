// Where the units of datetimes start.
ghost use Rattle.std.specs.Prelude.{◌≡◌, IfErr};
ghost use Rattle.kq_value.specs.Computed.{Answers};
ghost use Rattle.kq_value.specs.declared.fault.EvalFault.TheVariants.{Overflow};
ghost use Rattle.kq_value_calendar.specs.Calendar.{start, start_of_day, start_of_week, start_of_month, start_of_year};

use crate::range::{is_datetime, moment};
use kq_value::{EvalFault, Ty, Value};
use kq_value_time::{Unit, start_of};

/// The first tick of the day that holds a datetime; null of any other value, as of a null.
pub fn start_of_day(v: &Value) -> Result<Value, EvalFault>
    ensures answers { Answers (start_of_day v.now) result }
    ensures fault { IfErr result (λ e. e ≡ Overflow) }
{
    start(Unit::Day, v)
}

/// As `start_of_day`, of the week, which starts on Sunday. The start of the first week is an overflow.
pub fn start_of_week(v: &Value) -> Result<Value, EvalFault>
    ensures answers { Answers (start_of_week v.now) result }
    ensures fault { IfErr result (λ e. e ≡ Overflow) }
{
    start(Unit::Week, v)
}

/// As `start_of_day`, of the month.
pub fn start_of_month(v: &Value) -> Result<Value, EvalFault>
    ensures answers { Answers (start_of_month v.now) result }
    ensures fault { IfErr result (λ e. e ≡ Overflow) }
{
    start(Unit::Month, v)
}

/// As `start_of_day`, of the year.
pub fn start_of_year(v: &Value) -> Result<Value, EvalFault>
    ensures answers { Answers (start_of_year v.now) result }
    ensures fault { IfErr result (λ e. e ≡ Overflow) }
{
    start(Unit::Year, v)
}

fn start(unit: Unit, v: &Value) -> Result<Value, EvalFault>
    ensures answers { Answers (start unit v.now) result }
    ensures fault { IfErr result (λ e. e ≡ Overflow) }
{
    match v {
        Value::Moment(ticks) if is_datetime(*ticks) => moment(start_of(unit, *ticks)),
        _ => Ok(Value::Null(Ty::Moment)),
    }
}
