// What names may stand for.

use kq_value::Field;

/// The text that the symbols of a tree stand in, and the scalar lets before it, in order: `Expr::Cell` numbers them from 0.
#[derive(Clone, Copy)]
pub struct Scope<'a> {
    pub text: &'a str,
    pub lets: &'a [Field],
}
