// Names that stand twice among named things.
ghost use Rattle.std.specs.Prelude.{◌≡◌, ◌<◌, IfErr, IfOk, List, ℕ, length, map};
ghost use Rattle.kq_value_text_sets.specs.Names.{is_among as stands_among, repeat_of};

use kq_value::{Memory, Text};
use std::alloc::Global;
use std::collections::BTreeSet;

// no table has more columns, so that want of memory never takes the place of a table's own refusal
const FEW: usize = 256;

/// What has a name.
pub trait Named {
    ghost name_of: { Self → List ℕ };

    fn name(&self) -> &Text
        ensures { result.now ≡ name_of self.now };
}

/// The place, from 0, of the first item whose name stands before it too. Takes no memory for 256 items or fewer, and
/// above that for the names that stand before that place.
pub fn repeated_name<T: Named>(alloc: Global, items: &[T]) -> Result<Option<usize>, Memory>
    ensures place { IfOk result (λ place. place ≡ repeat_of (map T.name_of items.now)) }
    ensures memory { IfErr result (λ _. 256 < length items.now) }
{
    if items.len() <= FEW {
        return Ok(repeated_among_few(items));
    }
    repeated_among_many(alloc, items)
}

fn repeated_among_few<T: Named>(items: &[T]) -> Option<usize>
    ensures { result ≡ repeat_of (map T.name_of items.now) }
{
    for (i, item) in items.iter().enumerate() {
        if is_among(item.name(), &items[..i]) {
            return Some(i);
        }
    }
    None
}

fn is_among<T: Named>(name: &Text, items: &[T]) -> bool
    ensures { result ≡ stands_among name.now (map T.name_of items.now) }
{
    for item in items {
        if item.name().same(name) {
            return true;
        }
    }
    false
}

fn repeated_among_many<T: Named>(alloc: Global, items: &[T]) -> Result<Option<usize>, Memory>
    ensures { IfOk result (λ place. place ≡ repeat_of (map T.name_of items.now)) }
{
    let mut seen = BTreeSet::new(alloc);
    for (i, item) in items.iter().enumerate() {
        if !seen.insert(item.name().as_str())? {
            return Ok(Some(i));
        }
    }
    Ok(None)
}
