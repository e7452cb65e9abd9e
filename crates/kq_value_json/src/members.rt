// Looking into a dynamic.
ghost use Rattle.std.specs.Prelude.{◌≡◌, option_map};
ghost use Rattle.kq_value.specs.Seen.{tree_of};
ghost use Rattle.kq_value_formats.specs.Members as members;
ghost use Rattle.kq_value_json.specs.Places.{place_of};

use kq_value::Dyn;

/// The value at a key of a bag, and none of any other dynamic.
pub fn at_key<'a>(value: &'a Dyn, key: &str) -> Option<&'a Dyn>
    ensures { option_map (λ d. tree_of d.now) result ≡ members.at_key (tree_of value.now) key.now }
{
    match value {
        Dyn::Bag(members) => members.get(key),
        _ => None,
    }
}

/// The item at an index of an array, from 0, or from the end where it is negative, -1 being the last; and none of any other dynamic.
pub fn at_index(value: &Dyn, index: i64) -> Option<&Dyn>
    ensures { option_map (λ d. tree_of d.now) result ≡ members.at_index (tree_of value.now) index }
{
    match value {
        Dyn::List(items) => items.as_slice().get(place(items.len(), index)?),
        _ => None,
    }
}

fn place(len: usize, index: i64) -> Option<usize>
    ensures { result ≡ place_of len index }
{
    if index < 0 {
        len.checked_sub(index.unsigned_abs() as usize)
    } else {
        Some(index as usize)
    }
}
