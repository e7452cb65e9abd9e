// Records.
use crate::record_id::RecordId;
use crate::row::Row;

/// A record of a table: its row, under the name that it keeps.
#[derive(Drop)]
pub struct Record {
    pub id: RecordId,
    pub row: Row,
}
