// Members of dynamics, where they lie.
ghost use Rattle.std.specs.Prelude.{◌≡◌, map, IfOk, IfSome, option_map};
ghost use Rattle.kq_value.specs.declared.value.Value.TheVariants.{Dynamic};
ghost use Rattle.kq_value.specs.Computed.{Is};
ghost use Rattle.kq_plan_functions.specs.declared.function.Function.TheVariants.{Member};
ghost use Rattle.kq_store_column_view.specs.Vectors.{cells_of, dynamic_of, member_at};
ghost use Rattle.kq_eval_columns.specs.Seen.{beside_one, cells_in_parts};

use kq_store_column_view::{Vector, members_of_bags, parts_at};
use kq_value::{Dyn, Memory, Value};
use std::alloc::Global;

/// The members of the dynamics of a column that lie elsewhere, where the value is a key.
pub fn members_of<'a>(
    alloc: Global,
    column: &Vector<'a>,
    key: &Value,
) -> Result<Option<Vector<'a>>, Memory>
    ensures { IfOk result (λ o. IfSome o (λ c. beside_one Member key.now (cells_of column.now) ≡ map Is (cells_of c))) }
{
    match key {
        Value::Text(key) => members_at(alloc, column, key.as_str()),
        _ => Ok(None),
    }
}

fn members_at<'a>(
    alloc: Global,
    column: &Vector<'a>,
    key: &str,
) -> Result<Option<Vector<'a>>, Memory>
    ensures { IfOk result (λ o. IfSome o (λ c. cells_of c ≡ map (member_at key.now) (cells_of column.now))) }
{
    match column {
        Vector::LentCells(cells) => Ok(Some(Vector::Parts(parts_of(alloc, cells, key)?))),
        Vector::Placed(cells, places) => parts_at(alloc, cells, key, places),
        Vector::Bags(bags, places) => members_of_bags(alloc, *bags, key, places),
        Vector::Parts(parts) => Ok(Some(Vector::Parts(parts_of_parts(alloc, parts, key)?))),
        _ => Ok(None),
    }
}

#[tactic(auto, using(crate::proofs::Rows::map_more))]
fn parts_of<'a>(
    alloc: Global,
    cells: &'a [Value],
    key: &str,
) -> Result<Vec<Option<&'a Dyn>>, Memory>
    ensures { IfOk result (λ ps. cells_in_parts ps.items ≡ map (member_at key.now) cells.now) }
{
    let mut parts = Vec::with_capacity(alloc, cells.len())?;
    for cell in cells {
        parts.push(part_of(cell, key))?;
    }
    Ok(parts)
}

#[tactic(auto, using(crate::proofs::Rows::map_more))]
fn parts_of_parts<'a>(
    alloc: Global,
    whole: &[Option<&'a Dyn>],
    key: &str,
) -> Result<Vec<Option<&'a Dyn>>, Memory>
    ensures { IfOk result (λ ps. cells_in_parts ps.items ≡ map (member_at key.now) (cells_in_parts whole.now)) }
{
    let mut parts = Vec::with_capacity(alloc, whole.len())?;
    for i in 0..whole.len() {
        parts.push(part_of_part(whole[i], key))?;
    }
    Ok(parts)
}

// The value at a key, where the cell is a bag that has it.
fn part_of<'a>(cell: &'a Value, key: &str) -> Option<&'a Dyn>
    ensures { dynamic_of (option_map (λ d. d.now) result) ≡ member_at key.now cell.now }
{
    match cell {
        Value::Dynamic(dynamic) => part_in(dynamic.as_dyn(), key),
        _ => None,
    }
}

fn part_of_part<'a>(part: Option<&'a Dyn>, key: &str) -> Option<&'a Dyn>
    ensures { dynamic_of (option_map (λ d. d.now) result) ≡ member_at key.now (dynamic_of (option_map (λ d. d.now) part.entry)) }
{
    match part {
        Some(dynamic) => part_in(dynamic, key),
        None => None,
    }
}

fn part_in<'a>(dynamic: &'a Dyn, key: &str) -> Option<&'a Dyn>
    ensures { dynamic_of (option_map (λ d. d.now) result) ≡ member_at key.now (Dynamic dynamic.now) }
{
    match dynamic {
        Dyn::Bag(members) => members.get(key),
        _ => None,
    }
}
