// What commits are made from.
use kq_catalog_journal::{Entries, Failures, SharedView};
use kq_run_shards::Parted;
use kq_store_extent::Draft;
use kq_value::{Schema, Text};

/// What a commit is to make, with the extents that its batches become.
#[derive(Drop)]
pub enum Intent {
    CreateTable {
        name: Text,
        schema: Schema,
    },
    /// The entries of a table's update policy. The table goes by its number.
    SetPolicy {
        table: u32,
        entries: Entries,
    },
    /// A view, and its part, which is that of no records.
    CreateView {
        view: SharedView,
        part: Parted,
    },
    /// Further columns of a table, which goes by its number.
    AlterMerge {
        table: u32,
        columns: Schema,
    },
    /// A part for each batch, in the order of the cascade, the source's first.
    Ingest {
        parts: Vec<Part>,
        failures: Failures,
    },
}

/// Rows for a table, by its number.
#[derive(Drop)]
pub struct Part {
    pub table: u32,
    pub draft: Draft,
}
