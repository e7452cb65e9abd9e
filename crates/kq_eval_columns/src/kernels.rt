// Functions of two columns at once, as far as kernels decide them.
ghost use Rattle.std.specs.Prelude.{◌≡◌, length, map, IfOk, IfSome};
ghost use Rattle.kq_value.specs.Computed.{Is};
ghost use Rattle.kq_value.specs.declared.value.Value.TheVariants.{Long, Bool as Truth};
ghost use Rattle.kq_eval_kernels.specs.Pairs.{each_two, without_overflow};
ghost use Rattle.kq_store_column_view.specs.Vectors.{cells_of};
ghost use Rattle.kq_eval_columns.specs.Seen.{paired};

use crate::beside::of_one;
use crate::truths::{Both, Either, TruthOperator, zip_truths};
use kq_eval_kernels::{
    AtLeast, AtMost, Equal, Greater, Less, LongOperator, LongTest, Minus, Plus, Remainder, Times,
    Unequal, zip_longs, zip_tests,
};
use kq_plan_functions::Function;
use kq_store_column_view::Vector;
use kq_value::Memory;
use std::alloc::Global;

/// The values of a function at two columns, as far as both go, where a kernel decides them all.
pub fn of_two<'a>(
    alloc: Global,
    function: Function,
    a: &Vector<'a>,
    b: &Vector,
) -> Result<Option<Vector<'a>>, Memory>
    requires { length (cells_of a.now) ≡ length (cells_of b.now) }
    ensures { IfOk result (λ o. IfSome o (λ c. each_two (paired function) (cells_of a.now) (cells_of b.now) ≡ Is (cells_of c))) }
{
    if let Some((value, _)) = b.same() {
        return of_one(alloc, function, a, value);
    }
    if let Some(xs) = a.longs() {
        if let Some(ys) = b.longs() {
            return of_longs(alloc, function, xs, ys);
        }
    }
    if let Some(xs) = a.truths() {
        if let Some(ys) = b.truths() {
            return of_truths(alloc, function, xs, ys);
        }
    }
    Ok(None)
}

fn of_longs<'v>(
    alloc: Global,
    function: Function,
    xs: &[i64],
    ys: &[i64],
) -> Result<Option<Vector<'v>>, Memory>
    ensures { IfOk result (λ o. IfSome o (λ c. each_two (paired function) (map Long xs.now) (map Long ys.now) ≡ Is (cells_of c))) }
{
    match function {
        Function::Add => longs_by::<Plus>(alloc, xs, ys),
        Function::Subtract => longs_by::<Minus>(alloc, xs, ys),
        Function::Multiply => longs_by::<Times>(alloc, xs, ys),
        Function::Remainder => longs_by::<Remainder>(alloc, xs, ys),
        Function::Equal => tests_by::<Equal>(alloc, xs, ys),
        Function::Unequal => tests_by::<Unequal>(alloc, xs, ys),
        Function::Less => tests_by::<Less>(alloc, xs, ys),
        Function::AtMost => tests_by::<AtMost>(alloc, xs, ys),
        Function::Greater => tests_by::<Greater>(alloc, xs, ys),
        Function::AtLeast => tests_by::<AtLeast>(alloc, xs, ys),
        _ => Ok(None),
    }
}

fn longs_by<'v, O: LongOperator>(
    alloc: Global,
    xs: &[i64],
    ys: &[i64],
) -> Result<Option<Vector<'v>>, Memory>
    ensures { IfOk result (λ o. IfSome o (λ c. each_two O.operator (map Long xs.now) (map Long ys.now) ≡ Is (cells_of c))) }
{
    match zip_longs::<O>(alloc, xs, ys)? {
        Some(longs) => Ok(Some(Vector::Longs(longs))),
        None => Ok(None),
    }
}

fn tests_by<'v, T: LongTest>(
    alloc: Global,
    xs: &[i64],
    ys: &[i64],
) -> Result<Option<Vector<'v>>, Memory>
    ensures { IfOk result (λ o. IfSome o (λ c. each_two (without_overflow T.test) (map Long xs.now) (map Long ys.now) ≡ Is (cells_of c))) }
{
    Ok(Some(Vector::Truths(zip_tests::<T>(alloc, xs, ys)?)))
}

fn of_truths<'v>(
    alloc: Global,
    function: Function,
    xs: &[bool],
    ys: &[bool],
) -> Result<Option<Vector<'v>>, Memory>
    ensures { IfOk result (λ o. IfSome o (λ c. each_two (paired function) (map Truth xs.now) (map Truth ys.now) ≡ Is (cells_of c))) }
{
    match function {
        Function::And => truths_by::<Both>(alloc, xs, ys),
        Function::Or => truths_by::<Either>(alloc, xs, ys),
        _ => Ok(None),
    }
}

fn truths_by<'v, O: TruthOperator>(
    alloc: Global,
    xs: &[bool],
    ys: &[bool],
) -> Result<Option<Vector<'v>>, Memory>
    ensures { IfOk result (λ o. IfSome o (λ c. each_two (without_overflow O.operator) (map Truth xs.now) (map Truth ys.now) ≡ Is (cells_of c))) }
{
    Ok(Some(Vector::Truths(zip_truths::<O>(alloc, xs, ys)?)))
}
