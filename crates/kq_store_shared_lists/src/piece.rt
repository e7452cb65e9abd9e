// Pieces of lists, which nothing changes once they stand.
ghost use Rattle.std.specs.Prelude.{◌≡◌, ◌++◌, ◌<◌, ◌^◌, ◌+◌, ◌∷◌, [], length, map, take, drop, IfOk, slice_set};
ghost use Rattle.std.specs.Arc.{arc_value};
ghost use Rattle.kq_store_shared_lists.specs.Pieces.{piece_items, HasCounts};
ghost use Rattle.kq_store_shared_lists.specs.Standing.{StandsAt};

use crate::Memory;
use std::alloc::Global;
use std::sync::Arc;

// Items in order. The number is how many stand on the left.
#[derive(Drop)]
pub(crate) enum Piece<T> {
    Leaf(Vec<Arc<T, Global>>),
    Pair(Arc<Piece<T>, Global>, usize, Arc<Piece<T>, Global>),
}

impl<T: Drop> Piece<T> {
    // Some items in a row, from a place on.
    pub(crate) fn slice_from(&self, at: usize) -> &[Arc<T, Global>]
        requires counts { HasCounts self.now }
        requires within { at < length (piece_items self.now) }
        ensures some { 0 < length result.now }
        ensures items { StandsAt (piece_items self.now) at (map arc_value result.now) }
    {
        match self {
            Piece::Leaf(handles) => handles.as_slice().split_at(at).1,
            Piece::Pair(left, count, right) => {
                if at < *count {
                    left.slice_from(at)
                } else {
                    right.slice_from(at - *count)
                }
            }
        }
    }

    // A piece with another item at a place, which shares all that it can.
    pub(crate) fn with_item(
        &self,
        alloc: Global,
        at: usize,
        item: Arc<T, Global>,
    ) -> Result<Arc<Piece<T>, Global>, Memory>
        requires counts { HasCounts self.now }
        requires within { at < length (piece_items self.now) }
        ensures counts { IfOk result (λ p. HasCounts (arc_value p)) }
        ensures items { IfOk result (λ p. piece_items (arc_value p) ≡ slice_set (piece_items self.now) at (arc_value item)) }
    {
        match self {
            Piece::Leaf(handles) => leaf(alloc, handles_with(alloc, handles.as_slice(), at, item)?),
            Piece::Pair(left, count, right) => {
                if at < *count {
                    let left = left.with_item(alloc, at, item)?;
                    Ok(pair(alloc, left, *count, Arc::try_clone(right)?)?)
                } else {
                    let left = Arc::try_clone(left)?;
                    let right = right.with_item(alloc, at - *count, item)?;
                    Ok(pair(alloc, left, *count, right)?)
                }
            }
        }
    }
}

// A piece of these items.
pub(crate) fn leaf<T: Drop>(
    alloc: Global,
    handles: Vec<Arc<T, Global>>,
) -> Result<Arc<Piece<T>, Global>, Memory>
    ensures counts { IfOk result (λ p. HasCounts (arc_value p)) }
    ensures items { IfOk result (λ p. piece_items (arc_value p) ≡ map arc_value handles.items) }
{
    Ok(Arc::new(alloc, Piece::Leaf(handles))?)
}

// A piece of two.
pub(crate) fn pair<T: Drop>(
    alloc: Global,
    left: Arc<Piece<T>, Global>,
    count: usize,
    right: Arc<Piece<T>, Global>,
) -> Result<Arc<Piece<T>, Global>, Memory>
    requires count { count ≡ length (piece_items (arc_value left)) }
    requires left { HasCounts (arc_value left) }
    requires right { HasCounts (arc_value right) }
    ensures counts { IfOk result (λ p. HasCounts (arc_value p)) }
    ensures items { IfOk result (λ p. piece_items (arc_value p) ≡ piece_items (arc_value left) ++ piece_items (arc_value right)) }
{
    Ok(Arc::new(alloc, Piece::Pair(left, count, right))?)
}

// The same handles, in a vector with this much room in all, or as much as they take.
pub(crate) fn shared_handles<T: Drop>(
    alloc: Global,
    handles: &[Arc<T, Global>],
    room: usize,
) -> Result<Vec<Arc<T, Global>>, Memory>
    ensures { IfOk result (λ v. map arc_value v.items ≡ map arc_value handles.now) }
{
    let mut all = Vec::with_capacity(alloc, handles.len().max(room))?;
    for handle in handles {
        all.push(Arc::try_clone(handle)?)?;
    }
    Ok(all)
}

// The same handles, but for one.
fn handles_with<T: Drop>(
    alloc: Global,
    handles: &[Arc<T, Global>],
    at: usize,
    item: Arc<T, Global>,
) -> Result<Vec<Arc<T, Global>>, Memory>
    requires { at < length handles.now }
    ensures { IfOk result (λ v. map arc_value v.items ≡ slice_set (map arc_value handles.now) at (arc_value item)) }
{
    let mut all = shared_handles(alloc, handles, 0)?;
    all[at] = item;
    Ok(all)
}
