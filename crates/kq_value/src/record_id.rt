// What names a record.
ghost use Rattle.std.specs.Prelude.{◌≡◌, ◌↔◌, IsTrue};

/// What names a record of a table for good: the cursor of the commit that gave the record, and its number from 0 among all rows that this commit
/// gives its table.
#[derive(Clone, Copy)]
pub struct RecordId {
    pub cursor: u64,
    pub ordinal: u64,
}

impl RecordId {
    ghost use Rattle.kq_value.specs.RecordIds.{same_id};

    pub fn same(self, other: RecordId) -> bool
        ensures same { IsTrue result ↔ (self ≡ other) }
        ensures test { result ≡ same_id self other }
    {
        self.cursor == other.cursor && self.ordinal == other.ordinal
    }
}
