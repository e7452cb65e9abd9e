// What a look finds.
use kq_catalog::{Intent, Merging, Parted};
use kq_reply::Reply;
use kq_value::Tags;

/// A table, which goes by its number, with the cursor of the commit that had last made or widened it when rows were read for
/// it, and tags of which none may stand on its extents. `looked` are the tables that the queries of update policies looked into
/// for what came of the rows, and `alone` says that no entry was in force for the table, so that nothing came of the rows but
/// their own batch.
#[derive(Drop)]
pub struct Barring {
    pub table: u32,
    pub widened: u64,
    pub tags: Tags,
    pub looked: Vec<u32>,
    pub alone: bool,
}

/// A commit that was found due, and what bars it where it is made later.
#[derive(Drop)]
pub struct Offer {
    pub intent: Intent,
    pub unless: Option<Barring>,
}

/// The part of a view, which goes by its number, up to a cursor.
#[derive(Drop)]
pub struct Folding {
    pub view: u32,
    pub to: u64,
    pub part: Parted,
}

/// What was found of a command on a snapshot, or of what keeps the catalogue up.
#[derive(Drop)]
pub enum Found {
    /// The reply, which the snapshot tells whole.
    Says(Reply),
    /// The commit that is due while no tag bars it and one more is allowed: until a commit disturbs what came of its rows, and further on where they
    /// come
    /// alone, then as now, into a table that wasn't widened.
    Commits(Offer),
    /// The merge of the extents that were picked, which is due while the first of them is in its table.
    Merges(Merging),
    /// The fold of a view, which is due while the view isn't materialized as far.
    Folds(Folding),
    /// Nothing: the catalogue alone tells what is due.
    Pending,
}
