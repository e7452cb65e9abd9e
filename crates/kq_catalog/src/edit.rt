// Edits.
use kq_catalog_journal::Table;
use kq_store_extent::Extent;
use kq_value::Schema;
use std::alloc::Global;
use std::sync::Arc;

// One step of a commit. Columns and an extent go with the number of their table.
#[derive(Drop)]
pub(crate) enum Change {
    PutTable(Arc<Table, Global>),
    PutColumns {
        table: u32,
        cursor: u64,
        columns: Schema,
    },
    PutExtent {
        table: u32,
        extent: Arc<Extent, Global>,
    },
}
