// Tables.
ghost use Rattle.std.specs.Prelude.{◌≡◌, IfOk};

use kq_value::{Memory, Schema, Text};

/// A table with its present columns, the cursor of the commit that made it, and that of the last commit that made or
/// widened it.
#[derive(Drop)]
pub struct Table {
    pub name: Text,
    pub schema: Schema,
    pub made: u64,
    pub widened: u64,
}

impl Table {
    pub fn clone_in(&self) -> Result<Table, Memory>
        ensures { IfOk result (λ t. t ≡ self.now) }
    {
        Ok(Table {
            name: self.name.clone_in()?,
            schema: self.schema.clone_in()?,
            made: self.made,
            widened: self.widened,
        })
    }
}
