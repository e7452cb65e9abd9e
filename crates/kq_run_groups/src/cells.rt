// The cells of a key, lent.
ghost use Rattle.std.specs.Prelude.{◌≡◌, ◌↔◌, IsTrue};
ghost use Rattle.std.specs.Cmp.Lexicographic.{pointwise};
ghost use Rattle.kq_value.specs.Values.{is_same};
ghost use Rattle.kq_run_groups.specs.Keys.{key_hash};

use kq_value::Value;

// Which multiples are spread over all bits: 2^64 by the golden ratio.
const SPREAD: u64 = 0x9e37_79b9_7f4a_7c15;

pub(crate) fn hash(key: &[Value]) -> u64
    ensures { result ≡ key_hash key.now }
{
    let mut state: u64 = 0;
    for cell in key {
        state = state.wrapping_mul(SPREAD).wrapping_add(cell.hash64());
    }
    state
}

// Whether the two have the same cells in the same order.
pub(crate) fn same_cells(a: &[Value], b: &[Value]) -> bool
    ensures { IsTrue result ↔ (a.now ≡ b.now) }
{
    are_same(a, b)
}

fn are_same(a: &[Value], b: &[Value]) -> bool
    ensures { result ≡ pointwise is_same a.now b.now }
{
    if a.len() != b.len() {
        return false;
    }
    for i in 0..a.len() {
        if !a[i].same(&b[i]) {
            return false;
        }
    }
    true
}
