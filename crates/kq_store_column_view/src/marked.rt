// Numbers with marks of nulls.
ghost use Rattle.kq_store_column_view.specs.Numbers.{AreNumbers};

use kq_value::Ty;

/// Numbers of one type, lent, with a mark for each that says whether it is null; or without marks, where none is.
#[derive(Clone, Copy)]
pub struct MarkedNumbers<'a> {
    pub ty: Ty,
    pub numbers: &'a [i64],
    pub nulls: &'a [bool],
    pub ghost are: { AreNumbers ty nulls.now numbers.now },
}
