// Many rows at once, each of one number or of no cell, over states of one form.
ghost use Rattle.std.specs.Prelude.{◌≡◌, ◌<◌, [], ◌∷◌, OnOk, OnErr, length, map, replicate};
ghost use Rattle.std.specs.List.{All};
ghost use Rattle.kq_run_aggregates.specs.Alone.{alone, cell_as, each_alone};
ghost use Rattle.kq_run_aggregates.specs.Holds.{counted, extreme, summed};
ghost use Rattle.kq_run_aggregates.specs.Steps.{ChangesAt, MayRefuse, Steps, TakesIn, TakesInUpTo, kept_at};
ghost use Rattle.kq_run_aggregates.specs.Tables.{side_kind};
ghost use Rattle.kq_run_aggregates.specs.declared.kind.Kind.TheVariants as kind;

use crate::count::Count;
use crate::kind::Side;
use crate::reading::Reading;
use crate::sum::Sum;
use crate::taken::offer_number;
use kq_value::{Memory, Value};

// A row of no cells for each of the groups.
pub(crate) fn count_each(counts: &mut Vec<Count>, groups: &[u32]) -> Result<(), Memory>
    requires { All (λ g. g < length counts.old.items) groups.now }
    ensures long { length counts.new.items ≡ length counts.old.items }
    ensures ok { OnOk result (TakesIn kind.Count groups.now (replicate (length groups.now) []) (map counted counts.old.items) (map counted counts.new.items)) }
    ensures err { OnErr result (TakesInUpTo kind.Count groups.now (replicate (length groups.now) []) (map counted counts.old.items) (map counted counts.new.items)) }
{
    for (i, group) in groups.iter().enumerate() {
        count_at(counts, *group as usize)?;
    }
    Ok(())
}

fn count_at(counts: &mut Vec<Count>, group: usize) -> Result<(), Memory>
    requires { group < length counts.old.items }
    ensures long { length counts.new.items ≡ length counts.old.items }
    ensures ok { OnOk result (ChangesAt group (Steps kind.Count []) (map counted counts.old.items) (map counted counts.new.items)) }
    ensures err { OnErr result ((map counted counts.new.items ≡ map counted counts.old.items) × MayRefuse (kept_at (map counted counts.old.items) group)) }
{
    counts[group].step()
}

// A row of a number for each of the groups.
pub(crate) fn sum_each(
    sums: &mut Vec<Sum>,
    groups: &[u32],
    reading: Reading,
    numbers: &[i64],
) -> Result<(), Memory>
    requires along { length groups.now ≡ length numbers.now }
    requires known { All (λ g. g < length sums.old.items) groups.now }
    ensures ok { OnOk result (TakesIn kind.Sum groups.now (each_alone (map (cell_as reading) numbers.now)) (map summed sums.old.items) (map summed sums.new.items)) }
    ensures err { OnErr result (TakesInUpTo kind.Sum groups.now (each_alone (map (cell_as reading) numbers.now)) (map summed sums.old.items) (map summed sums.new.items)) }
{
    for (i, group) in groups.iter().enumerate() {
        sum_at(sums, *group as usize, reading, numbers[i])?;
    }
    Ok(())
}

fn sum_at(sums: &mut Vec<Sum>, group: usize, reading: Reading, number: i64) -> Result<(), Memory>
    requires { group < length sums.old.items }
    ensures long { length sums.new.items ≡ length sums.old.items }
    ensures ok { OnOk result (ChangesAt group (Steps kind.Sum (alone (cell_as reading number))) (map summed sums.old.items) (map summed sums.new.items)) }
    ensures err { OnErr result ((map summed sums.new.items ≡ map summed sums.old.items) × MayRefuse (kept_at (map summed sums.old.items) group)) }
{
    sums[group].step_number(number)
}

// The same for the least and the greatest.
pub(crate) fn offer_each(
    values: &mut Vec<Option<Value>>,
    side: Side,
    groups: &[u32],
    reading: Reading,
    numbers: &[i64],
)
    requires along { length groups.now ≡ length numbers.now }
    requires known { All (λ g. g < length values.old.items) groups.now }
    ensures { TakesIn (side_kind side) groups.now (each_alone (map (cell_as reading) numbers.now)) (map extreme values.old.items) (map extreme values.new.items) }
{
    for (i, group) in groups.iter().enumerate() {
        offer_at(values, side, *group as usize, reading, numbers[i]);
    }
}

fn offer_at(
    values: &mut Vec<Option<Value>>,
    side: Side,
    group: usize,
    reading: Reading,
    number: i64,
)
    requires { group < length values.old.items }
    ensures long { length values.new.items ≡ length values.old.items }
    ensures value { ChangesAt group (Steps (side_kind side) (alone (cell_as reading number))) (map extreme values.old.items) (map extreme values.new.items) }
{
    offer_number(&mut values[group], side, reading, number);
}
