// The range of datetimes.
ghost use Rattle.std.specs.Prelude.{◌≡◌, IfErr};
ghost use Rattle.kq_value.specs.Computed.{Answers};
ghost use Rattle.kq_value.specs.declared.fault.EvalFault.TheVariants.{Overflow};
ghost use Rattle.kq_value_time.specs.kq_value_formats.Datetimes.{is_moment};
ghost use Rattle.kq_value_calendar.specs.Calendar.{moment_of};

use kq_value::{EvalFault, LAST_MOMENT, Value};

pub(crate) fn is_datetime(ticks: i64) -> bool
    ensures { result ≡ is_moment ticks }
{
    0 <= ticks && ticks <= LAST_MOMENT
}

pub(crate) fn moment(ticks: i64) -> Result<Value, EvalFault>
    ensures answers { Answers (moment_of ticks) result }
    ensures fault { IfErr result (λ e. e ≡ Overflow) }
{
    if is_datetime(ticks) {
        Ok(Value::Moment(ticks))
    } else {
        Err(EvalFault::Overflow)
    }
}
