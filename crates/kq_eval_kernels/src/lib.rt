//! Kernels: the operators of `kq_value_arithmetic` over two columns of longs at once, or over a column of numbers beside one number, as far as they
//! give longs or truths; tests beside one number also of datetimes and of timespans. Where a pair gives neither, as an overflow or a null, there is
//! no column, and the pairs are left to be gone through one by one; so are nulls and the other types.
#![tactic(auto)]

mod beside;
mod number;
mod operators;
mod zip;

pub use beside::{longs_beside, tests_beside};
pub use number::Number;
pub use operators::{
    AtLeast, AtMost, Equal, Greater, Less, LongOperator, LongTest, Minus, Plus, Remainder, Times,
    Unequal,
};
pub use zip::{zip_longs, zip_tests};
