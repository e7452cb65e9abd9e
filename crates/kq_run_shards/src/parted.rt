// Groups in shards.
ghost use Rattle.std.specs.Prelude.{◌≡◌, ◌++◌, List, IfOk, length, map};
ghost use Rattle.std.specs.Arc.{arc_value};
ghost use Rattle.kq_value.specs.Computed.{Answers};
ghost use Rattle.kq_run_groups.specs.Groups.{HasAllGroups, Stands, Starts, rows_from, shape_of};
ghost use Rattle.kq_run_groups.specs.Merges.{Merges};
ghost use Rattle.kq_run_shards.specs.Shards.{AreGrouped, IsOfRows};

use crate::shards::{empty_shards, folded_shards, rows_of, shared_shards};
use kq_run_groups::{Aggregated, Groups};
use kq_store_rows::Rows;
use kq_value::{EvalFault, Memory, Value};
use std::alloc::Global;
use std::marker::Model;
use std::sync::Arc;

/// Groups of rows by their keys, in 64 shards that copies share. Contracts see the groups of all shards, one shard after another, as those of
/// `Groups`.
#[derive(Drop)]
pub struct Parted {
    width: usize,
    aggregates: Arc<Vec<Aggregated>, Global>,
    shards: Vec<Arc<Groups, Global>>,
}

impl Model for Parted {
    ghost use Rattle.std.specs.Prelude.{map};
    ghost use Rattle.std.specs.Arc.{arc_value};
    ghost use Rattle.std.specs.Coded.{codes};
    ghost use Rattle.kq_value.specs.contracts.value.Value as value;
    ghost use Rattle.kq_run_groups.specs.Groups.{Grouping};
    ghost use Rattle.kq_run_shards.specs.Shards.{AreShards, all_of};

    ghost Value = { Grouping };

    ghost coded = { Prim.hlevel (codes, value.the_row.coded) };

    ghost view = { λ p. all_of p.width (arc_value p.aggregates).items (map arc_value p.shards.items) };

    // each key is in the shard of its hash
    ghost invariant = { λ p. AreShards p.width (arc_value p.aggregates).items (map arc_value p.shards.items) };
}

impl Parted {
    /// Groups of no rows. Keys have so many cells; where they have none, there is the one empty key.
    pub fn empty(alloc: Global, width: usize, aggregates: Vec<Aggregated>) -> Result<Parted, Memory>
        ensures { IfOk result (Starts width aggregates.items) }
    {
        let first = Groups::new(alloc, width, aggregates.as_slice())?;
        let none = Groups::none(alloc, width, aggregates.as_slice())?;
        let first = Arc::new(alloc, first)?;
        let none = Arc::new(alloc, none)?;
        let shards = empty_shards(alloc, first, &none)?;
        let aggregates = Arc::new(alloc, aggregates)?;
        Ok(Parted {
            width,
            aggregates,
            shards,
        })
    }

    /// The groups of both, key by key: the rows of the others come after those here. Shards that none of the others belongs to are shared.
    pub fn folded(&self, alloc: Global, delta: &Groups) -> Result<Parted, Memory>
        requires whole { HasAllGroups delta.now }
        requires width { delta.now.width ≡ self.now.width }
        requires shapes { map shape_of delta.now.states ≡ map shape_of self.now.states }
        ensures { IfOk result (Merges delta.now self.now) }
    {
        let shards = folded_shards(
            alloc,
            self.width,
            self.aggregates.as_slice(),
            self.shards.as_slice(),
            delta,
        )?;
        Ok(Parted {
            width: self.width,
            aggregates: Arc::try_clone(&self.aggregates)?,
            shards,
        })
    }

    /// A second one of the same groups, which shares all shards.
    pub fn share(&self) -> Result<Parted, Memory>
        ensures { IfOk result (λ p. p ≡ self.now) }
    {
        let alloc = *self.shards.allocator();
        Ok(Parted {
            width: self.width,
            aggregates: Arc::try_clone(&self.aggregates)?,
            shards: shared_shards(alloc, self.shards.as_slice())?,
        })
    }

    /// A row for each group: its key, and then the cells of the aggregates in order.
    pub fn rows(&self, alloc: Global) -> Result<Rows, EvalFault>
        requires { IsOfRows self.now }
        ensures rows { Answers (rows_from self.now.states self.now.keys 0) result }
        ensures grouped { AreGrouped self.now result }
    {
        rows_of(alloc, self.shards.as_slice())
    }
}
