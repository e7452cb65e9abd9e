// Operators on two longs.
ghost use Rattle.std.specs.Prelude.{◌≡◌, ◌≢◌, ℤ, IfSome, IfNone, refl};
ghost use Rattle.kq_value.specs.Computed.{Computed, Is};
ghost use Rattle.kq_value.specs.declared.value.Value.{Value as Seen};
ghost use Rattle.kq_value.specs.declared.value.Value.TheVariants.{Long, Bool as Truth};
ghost use Rattle.kq_eval_kernels.specs.declared.number.Number.{Number as Kind};
ghost use Rattle.kq_eval_kernels.specs.declared.number.Number.TheVariants as kind;
ghost use Rattle.kq_eval_kernels.specs.Numbers.{of_kind};

/// An operator on two longs, where it gives a long.
pub trait LongOperator {
    ghost operator: { Seen → Seen → Computed Seen };

    fn at(a: i64, b: i64) -> Option<i64>
        ensures long { IfSome result (λ z. operator (Long a) (Long b) ≡ Is (Long z)) }
        ensures none { IfNone result ((z : ℤ) → operator (Long a) (Long b) ≢ Is (Long z)) };
}

/// A test of two longs, and so of the numbers in any two cells of one kind.
pub trait LongTest {
    ghost test: { Seen → Seen → Seen };

    fn at(a: i64, b: i64) -> bool
        ensures { test (Long a) (Long b) ≡ Truth result };

    ghost kinds: { (k : Kind) (a b : ℤ) → test (of_kind k a) (of_kind k b) ≡ test (Long a) (Long b) };
}

pub struct Plus;

impl LongOperator for Plus {
    ghost use Rattle.kq_value_arithmetic.specs.Arithmetic.{plus};

    ghost operator = { plus };

    fn at(a: i64, b: i64) -> Option<i64> {
        a.checked_add(b)
    }
}

pub struct Minus;

impl LongOperator for Minus {
    ghost use Rattle.kq_value_arithmetic.specs.Arithmetic.{minus};

    ghost operator = { minus };

    fn at(a: i64, b: i64) -> Option<i64> {
        a.checked_sub(b)
    }
}

pub struct Times;

impl LongOperator for Times {
    ghost use Rattle.kq_value_arithmetic.specs.Arithmetic.{times};

    ghost operator = { times };

    fn at(a: i64, b: i64) -> Option<i64> {
        a.checked_mul(b)
    }
}

pub struct Remainder;

impl LongOperator for Remainder {
    ghost use Rattle.kq_value_arithmetic.specs.Arithmetic.{remainder};

    ghost operator = { remainder };

    fn at(a: i64, b: i64) -> Option<i64> {
        if b == 0 {
            None
        } else {
            Some(a.wrapping_rem_euclid(b))
        }
    }
}

pub struct Less;

impl LongTest for Less {
    ghost use Rattle.kq_value_arithmetic.specs.Comparing.{less};

    ghost test = { less };

    ghost kinds = { elim [ kind.Longs ↦ λ a b. refl | kind.Moments ↦ λ a b. refl | kind.Spans ↦ λ a b. refl ] };

    fn at(a: i64, b: i64) -> bool {
        a.cmp(&b).is_lt()
    }
}

pub struct AtMost;

impl LongTest for AtMost {
    ghost use Rattle.kq_value_arithmetic.specs.Comparing.{at_most};

    ghost test = { at_most };

    ghost kinds = { elim [ kind.Longs ↦ λ a b. refl | kind.Moments ↦ λ a b. refl | kind.Spans ↦ λ a b. refl ] };

    fn at(a: i64, b: i64) -> bool {
        a.cmp(&b).is_le()
    }
}

pub struct Greater;

impl LongTest for Greater {
    ghost use Rattle.kq_value_arithmetic.specs.Comparing.{greater};

    ghost test = { greater };

    ghost kinds = { elim [ kind.Longs ↦ λ a b. refl | kind.Moments ↦ λ a b. refl | kind.Spans ↦ λ a b. refl ] };

    fn at(a: i64, b: i64) -> bool {
        a.cmp(&b).is_gt()
    }
}

pub struct AtLeast;

impl LongTest for AtLeast {
    ghost use Rattle.kq_value_arithmetic.specs.Comparing.{at_least};

    ghost test = { at_least };

    ghost kinds = { elim [ kind.Longs ↦ λ a b. refl | kind.Moments ↦ λ a b. refl | kind.Spans ↦ λ a b. refl ] };

    fn at(a: i64, b: i64) -> bool {
        a.cmp(&b).is_ge()
    }
}

pub struct Equal;

impl LongTest for Equal {
    ghost use Rattle.kq_value_arithmetic.specs.Comparing.{equal};

    ghost test = { equal };

    ghost kinds = { elim [ kind.Longs ↦ λ a b. refl | kind.Moments ↦ λ a b. refl | kind.Spans ↦ λ a b. refl ] };

    fn at(a: i64, b: i64) -> bool {
        a.cmp(&b).is_eq()
    }
}

pub struct Unequal;

impl LongTest for Unequal {
    ghost use Rattle.kq_value_arithmetic.specs.Comparing.{unequal};

    ghost test = { unequal };

    ghost kinds = { elim [ kind.Longs ↦ λ a b. refl | kind.Moments ↦ λ a b. refl | kind.Spans ↦ λ a b. refl ] };

    fn at(a: i64, b: i64) -> bool {
        a.cmp(&b).is_ne()
    }
}
