// The shards of groups.
ghost use Rattle.std.specs.Prelude.{◌≡◌, ◌<◌, ◌≤◌, List, ◌∷◌, ◌%◌, IfOk, length, map, replicate};
ghost use Rattle.std.specs.List.{All, filter};
ghost use Rattle.std.specs.Arc.{arc_value};
ghost use Rattle.kq_value.specs.Computed.{Answers};
ghost use Rattle.kq_store_rows.specs.Chunks.{row_at};
ghost use Rattle.kq_value.specs.Same.{times};
ghost use Rattle.kq_run_groups.specs.Groups.{HasAllGroups, shape_of};
ghost use Rattle.kq_run_shards.specs.Shards.{AreFinishable, AreFolded, AreShards, FoldsShard, IsShard, is_in, rows_in};

use kq_run_groups::{Aggregated, Groups};
use kq_store_rows::Rows;
use kq_value::{EvalFault, Memory, Value};
use std::alloc::Global;
use std::sync::Arc;

// How many shards there are.
pub(crate) const SHARDS: usize = 64;

fn shard_of(hash: u64) -> usize
    ensures { result ≡ hash % 64 }
{
    (hash % SHARDS as u64) as usize
}

// The numbers of the groups whose keys belong to a shard.
fn numbers_in(alloc: Global, groups: &Groups, shard: usize) -> Result<Vec<u32>, Memory>
    ensures within { IfOk result (λ v. All (λ n. n < length groups.now.keys) v.items) }
    ensures keys { IfOk result (λ v. map (row_at groups.now.keys) v.items ≡ filter (is_in shard) groups.now.keys) }
    ensures once { IfOk result (λ v. (k : List Value) → times k (map (row_at groups.now.keys) v.items) ≤ 1) }
{
    let mut numbers = Vec::new(alloc);
    for group in 0..groups.len() {
        if shard_of(groups.hash_at(group)) == shard {
            numbers.push(group as u32)?;
        }
    }
    Ok(numbers)
}

// The shards of no rows: the first has the groups that are there over no rows too, and the others have none.
pub(crate) fn empty_shards(
    alloc: Global,
    first: Arc<Groups, Global>,
    none: &Arc<Groups, Global>,
) -> Result<Vec<Arc<Groups, Global>>, Memory>
    ensures { IfOk result (λ v. map arc_value v.items ≡ arc_value first ∷ replicate 63 (arc_value none.now)) }
{
    let mut shards = Vec::with_capacity(alloc, SHARDS)?;
    shards.push(first)?;
    for _shard in 1..SHARDS {
        shards.push(Arc::try_clone(none)?)?;
    }
    Ok(shards)
}

// The same shards again.
pub(crate) fn shared_shards(
    alloc: Global,
    shards: &[Arc<Groups, Global>],
) -> Result<Vec<Arc<Groups, Global>>, Memory>
    ensures { IfOk result (λ v. map arc_value v.items ≡ map arc_value shards.now) }
{
    let mut all = Vec::with_capacity(alloc, shards.len())?;
    for shard in shards {
        all.push(Arc::try_clone(shard)?)?;
    }
    Ok(all)
}

// A shard with those of the groups that belong to it: the same one where there are none.
fn folded_shard(
    alloc: Global,
    width: usize,
    aggregates: &[Aggregated],
    shard: usize,
    old: &Arc<Groups, Global>,
    delta: &Groups,
) -> Result<Arc<Groups, Global>, Memory>
    requires old { IsShard width aggregates.now shard (arc_value old.now) }
    requires whole { HasAllGroups delta.now }
    requires width { delta.now.width ≡ width }
    requires shapes { map shape_of delta.now.states ≡ aggregates.now }
    ensures { IfOk result (λ new. FoldsShard width aggregates.now shard delta.now (arc_value old.now) (arc_value new)) }
{
    let numbers = numbers_in(alloc, delta, shard)?;
    let untouched = numbers.is_empty();
    if untouched {
        return Ok(Arc::try_clone(old)?);
    }
    let mut groups = Groups::none(alloc, width, aggregates)?;
    groups.merge(alloc, old)?;
    groups.merge_at(alloc, delta, numbers.as_slice())?;
    Ok(Arc::new(alloc, groups)?)
}

// The shards with the groups.
pub(crate) fn folded_shards(
    alloc: Global,
    width: usize,
    aggregates: &[Aggregated],
    shards: &[Arc<Groups, Global>],
    delta: &Groups,
) -> Result<Vec<Arc<Groups, Global>>, Memory>
    requires shards { AreShards width aggregates.now (map arc_value shards.now) }
    requires whole { HasAllGroups delta.now }
    requires width { delta.now.width ≡ width }
    requires shapes { map shape_of delta.now.states ≡ aggregates.now }
    ensures { IfOk result (λ v. AreFolded width aggregates.now delta.now (map arc_value shards.now) (map arc_value v.items)) }
{
    let mut all = Vec::with_capacity(alloc, SHARDS)?;
    for (shard, old) in shards.iter().enumerate() {
        all.push(folded_shard(alloc, width, aggregates, shard, old, delta)?)?;
    }
    Ok(all)
}

// The rows of the shards, one shard after another.
pub(crate) fn rows_of(alloc: Global, shards: &[Arc<Groups, Global>]) -> Result<Rows, EvalFault>
    requires { AreFinishable (map arc_value shards.now) }
    ensures { Answers (rows_in (map arc_value shards.now)) result }
{
    let mut rows = Rows::new(alloc);
    for shard in shards {
        rows.append(shard.rows(alloc)?)?;
    }
    Ok(rows)
}
