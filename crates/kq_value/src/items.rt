// What the lists of this crate have in common.
ghost use Rattle.std.specs.Prelude.{◌≡◌, ◌≤◌, [], ◌∷◌, ◌++◌, IfOk, OnOk, OnErr, length, vec_capacity};

use crate::Memory;

// Adds an item, and drops it where memory is wanting.
pub(crate) fn push_to<T: Drop>(items: &mut Vec<T>, item: T) -> Result<(), Memory>
    ensures ok { OnOk result (items.new.items ≡ items.old.items ++ item ∷ []) }
    ensures err { OnErr result (items.new.items ≡ items.old.items) }
{
    items.push(item)?;
    Ok(())
}

// A copy, where copies are equal.
pub(crate) fn copy_of<T: Clone>(items: &Vec<T>) -> Result<Vec<T>, Memory>
    ensures { IfOk result (λ v. ((x y : T) → T.is_clone x y → y ≡ x) → v.items ≡ items.now.items) }
{
    Vec::from_clones(*items.allocator(), items.as_slice())
}

// No items yet, with room for as many as there are.
pub(crate) fn room_for<T>(items: &Vec<T>) -> Result<Vec<T>, Memory>
    ensures empty { IfOk result (λ v. v.items ≡ []) }
    ensures room { IfOk result (λ v. length items.now.items ≤ vec_capacity v) }
{
    Vec::with_capacity(*items.allocator(), items.len())
}

// Makes room for one item where there are none yet. A push would make room for four, and many bags that are made by pushes keep the one.
pub(crate) fn room_for_first<T>(items: &mut Vec<T>) -> Result<(), Memory>
    ensures { items.new.items ≡ items.old.items }
{
    if items.is_empty() {
        items.reserve_exact(1)?;
    }
    Ok(())
}
