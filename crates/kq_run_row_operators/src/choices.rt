// The places of rows that a condition keeps.
ghost use Rattle.std.specs.Prelude.{◌≡◌, ◌<◌, ◌+◌, ◌^◌, IfOk, get_or, length, map};
ghost use Rattle.std.specs.List.{All};

use kq_value::Memory;
use std::alloc::Global;

// The places that stand so far behind these.
pub(crate) fn shifted(alloc: Global, places: &[usize], from: usize) -> Result<Vec<usize>, Memory>
    requires { All (λ p. from + p < 2 ^ 63) places.now }
    ensures { IfOk result (λ shifted. shifted.items ≡ map (λ p. from + p) places.now) }
{
    let mut shifted = Vec::with_capacity(alloc, places.len())?;
    for place in places {
        shifted.push(from + *place)?;
    }
    Ok(shifted)
}

// Of these places those with these numbers.
pub(crate) fn chosen_of(
    alloc: Global,
    places: &[usize],
    numbers: &[usize],
) -> Result<Vec<usize>, Memory>
    requires { All (λ n. n < length places.now) numbers.now }
    ensures { IfOk result (λ chosen. chosen.items ≡ map (λ n. get_or places.now n 0) numbers.now) }
{
    let mut chosen = Vec::with_capacity(alloc, numbers.len())?;
    for number in numbers {
        chosen.push(places[*number])?;
    }
    Ok(chosen)
}
