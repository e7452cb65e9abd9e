// Some of the places by tests, and columns put together by them.
ghost use Rattle.std.specs.Prelude.{◌≡◌, ◌++◌, ◌∷◌, [], not, map, IfOk};
ghost use Rattle.kq_value.specs.declared.value.Value.TheVariants.{Long};
ghost use Rattle.kq_value_arithmetic.specs.Logic.{is_yes as the_is_yes};
ghost use Rattle.kq_eval_columns.specs.Choices.{picked, merged, is_present as the_is_present};
ghost use Rattle.kq_store_column_view.specs.Vectors.{cells_of};
ghost use Rattle.kq_eval_columns.specs.Vectors.{rows_at};
ghost use Rattle.kq_eval_columns.specs.Seen.{merged_by};

use kq_eval_row::empty_test;
use kq_store_column_view::Vector;
use kq_value::{Memory, Value};
use kq_value_arithmetic::is_yes;
use std::alloc::Global;

/// Tests of rows, and the values of those with a true test.
#[derive(Drop)]
pub struct Branch<'a> {
    pub tests: Vec<bool>,
    pub values: Vector<'a>,
}

/// Whether each cell is true.
#[tactic(auto, using(crate::proofs::Picking::truths_back))]
pub fn truths(alloc: Global, vector: Vector) -> Result<Vec<bool>, Memory>
    ensures { IfOk result (λ ts. ts.items ≡ map the_is_yes (cells_of vector.entry)) }
{
    match vector {
        Vector::Truths(truths) => Ok(truths),
        others => truths_by_cells(alloc, &others),
    }
}

#[tactic(auto, using(crate::proofs::Picking::map_more))]
fn truths_by_cells(alloc: Global, vector: &Vector) -> Result<Vec<bool>, Memory>
    ensures { IfOk result (λ ts. ts.items ≡ map the_is_yes (cells_of vector.now)) }
{
    let mut truths = Vec::with_capacity(alloc, vector.len())?;
    for i in 0..vector.len() {
        truths.push(is_yes(&vector.cell(i)?))?;
    }
    Ok(truths)
}

/// Which cells are neither null nor empty, and these.
pub fn present_branch<'v>(alloc: Global, vector: Vector) -> Result<Branch<'v>, Memory>
    ensures tests { IfOk result (λ b. b.tests.items ≡ map the_is_present (cells_of vector.entry)) }
    ensures values { IfOk result (λ b. cells_of b.values ≡ picked b.tests.items (cells_of vector.entry)) }
{
    present_cells(alloc, &vector)
}

fn present_cells<'v>(alloc: Global, vector: &Vector) -> Result<Branch<'v>, Memory>
    ensures tests { IfOk result (λ b. b.tests.items ≡ map the_is_present (cells_of vector.now)) }
    ensures values { IfOk result (λ b. cells_of b.values ≡ picked b.tests.items (cells_of vector.now)) }
{
    let tests = presences(alloc, vector)?;
    let values = picked_cells(alloc, &tests, vector)?;
    Ok(Branch { tests, values })
}

#[tactic(auto, using(crate::proofs::Picking::map_more))]
fn presences(alloc: Global, vector: &Vector) -> Result<Vec<bool>, Memory>
    ensures { IfOk result (λ ts. ts.items ≡ map the_is_present (cells_of vector.now)) }
{
    let mut tests = Vec::with_capacity(alloc, vector.len())?;
    for i in 0..vector.len() {
        tests.push(is_present(&vector.cell(i)?))?;
    }
    Ok(tests)
}

fn is_present(value: &Value) -> bool
    ensures { result ≡ the_is_present value.now }
{
    !is_yes(&empty_test(value))
}

/// The places of the rows with a true test.
#[tactic(auto, using(crate::proofs::Picking::rows_picked))]
pub fn picked_places(
    alloc: Global,
    tests: &[bool],
    columns: &[Vector],
    places: &[usize],
) -> Result<Vec<usize>, Memory>
    ensures { IfOk result (λ v. rows_at columns.now v.items ≡ picked tests.now (rows_at columns.now places.now)) }
{
    let _ = columns;
    picked_items(alloc, tests, places)
}

/// The places of the rows with a false test.
pub fn other_places(
    alloc: Global,
    tests: &[bool],
    columns: &[Vector],
    places: &[usize],
) -> Result<Vec<usize>, Memory>
    ensures { IfOk result (λ v. rows_at columns.now v.items ≡ picked (map not tests.now) (rows_at columns.now places.now)) }
{
    let others = negated(alloc, tests)?;
    picked_places(alloc, &others, columns, places)
}

/// Puts a branch behind the others, and gives the places of the rows with a false test.
pub fn put_branch<'a>(
    alloc: Global,
    branches: &mut Vec<Branch<'a>>,
    branch: Branch<'a>,
    columns: &[Vector],
    places: &[usize],
) -> Result<Vec<usize>, Memory>
    ensures branches { IfOk result (λ v. branches.new.items ≡ branches.old.items ++ branch.entry ∷ []) }
    ensures left { IfOk result (λ v. rows_at columns.now v.items ≡ picked (map not branch.entry.tests.items) (rows_at columns.now places.now)) }
{
    let left = other_places(alloc, &branch.tests, columns, places)?;
    branches.push(branch)?;
    Ok(left)
}

fn negated(alloc: Global, tests: &[bool]) -> Result<Vec<bool>, Memory>
    ensures { IfOk result (λ ts. ts.items ≡ map not tests.now) }
{
    Ok(tests.iter().map(|t| !*t).collect(alloc)?)
}

fn picked_items<T: Copy>(alloc: Global, tests: &[bool], items: &[T]) -> Result<Vec<T>, Memory>
    ensures { IfOk result (λ v. v.items ≡ picked tests.now items.now) }
{
    let n = tests.len().min(items.len());
    let mut found = Vec::with_capacity(alloc, n)?;
    for i in 0..n {
        if tests[i] {
            found.push(items[i])?;
        }
    }
    Ok(found)
}

fn picked_cells<'v>(alloc: Global, tests: &[bool], vector: &Vector) -> Result<Vector<'v>, Memory>
    ensures { IfOk result (λ c. cells_of c ≡ picked tests.now (cells_of vector.now)) }
{
    let n = tests.len().min(vector.len());
    let mut found = Vec::with_capacity(alloc, n)?;
    for i in 0..n {
        if tests[i] {
            found.push(vector.cell(i)?)?;
        }
    }
    Ok(Vector::Cells(found))
}

/// The values of each branch where its tests are true, and else those of the next ones, with the last behind all.
pub fn merged_all<'a>(
    alloc: Global,
    branches: Vec<Branch<'a>>,
    last: Vector<'a>,
) -> Result<Vector<'a>, Memory>
    ensures { IfOk result (λ c. cells_of c ≡ merged_by branches.entry.items (cells_of last.entry)) }
{
    let mut before = branches;
    let mut whole = last;
    while let Some(branch) = before.pop() {
        whole = merged_branch(alloc, branch, whole)?;
    }
    Ok(whole)
}

fn merged_branch<'a>(
    alloc: Global,
    branch: Branch<'a>,
    others: Vector<'a>,
) -> Result<Vector<'a>, Memory>
    ensures { IfOk result (λ c. cells_of c ≡ merged branch.entry.tests.items (cells_of branch.entry.values) (cells_of others.entry)) }
{
    merged_values(alloc, &branch.tests, &branch.values, &others)
}

fn merged_values<'v>(
    alloc: Global,
    tests: &[bool],
    ys: &Vector,
    zs: &Vector,
) -> Result<Vector<'v>, Memory>
    ensures { IfOk result (λ c. cells_of c ≡ merged tests.now (cells_of ys.now) (cells_of zs.now)) }
{
    match (ys, zs) {
        (Vector::Longs(ys), Vector::Longs(zs)) => merged_longs(alloc, tests, ys, zs),
        (y, z) => merged_cells(alloc, tests, y, z),
    }
}

#[tactic(auto, using(crate::proofs::Picking::merged_mapped))]
fn merged_longs<'v>(
    alloc: Global,
    tests: &[bool],
    ys: &[i64],
    zs: &[i64],
) -> Result<Vector<'v>, Memory>
    ensures { IfOk result (λ c. cells_of c ≡ merged tests.now (map Long ys.now) (map Long zs.now)) }
{
    Ok(Vector::Longs(merged_items(alloc, tests, ys, zs)?))
}

#[tactic(auto, using(crate::proofs::Picking::merged_first, crate::proofs::Picking::merged_second, crate::proofs::Picking::merged_no_first, crate::proofs::Picking::merged_no_second, crate::proofs::Picking::merged_end))]
fn merged_items<T: Copy>(
    alloc: Global,
    tests: &[bool],
    ys: &[T],
    zs: &[T],
) -> Result<Vec<T>, Memory>
    ensures { IfOk result (λ v. v.items ≡ merged tests.now ys.now zs.now) }
{
    let mut all = Vec::with_capacity(alloc, tests.len())?;
    let mut i = 0;
    let mut j = 0;
    for k in 0..tests.len() {
        if tests[k] {
            if i >= ys.len() {
                return Ok(all);
            }
            all.push(ys[i])?;
            i += 1;
        } else {
            if j >= zs.len() {
                return Ok(all);
            }
            all.push(zs[j])?;
            j += 1;
        }
    }
    Ok(all)
}

#[tactic(auto, using(crate::proofs::Picking::merged_first_cell, crate::proofs::Picking::merged_second_cell, crate::proofs::Picking::merged_no_first, crate::proofs::Picking::merged_no_second, crate::proofs::Picking::merged_end))]
fn merged_cells<'v>(
    alloc: Global,
    tests: &[bool],
    y: &Vector,
    z: &Vector,
) -> Result<Vector<'v>, Memory>
    ensures { IfOk result (λ c. cells_of c ≡ merged tests.now (cells_of y.now) (cells_of z.now)) }
{
    let mut all = Vec::with_capacity(alloc, tests.len())?;
    let mut i = 0;
    let mut j = 0;
    for k in 0..tests.len() {
        if tests[k] {
            if i >= y.len() {
                return Ok(Vector::Cells(all));
            }
            all.push(y.cell(i)?)?;
            i += 1;
        } else {
            if j >= z.len() {
                return Ok(Vector::Cells(all));
            }
            all.push(z.cell(j)?)?;
            j += 1;
        }
    }
    Ok(Vector::Cells(all))
}
