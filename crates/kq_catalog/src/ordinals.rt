// The ordinals of the rows that one commit gives tables.
ghost use Rattle.std.specs.Prelude.{◌≡◌, ◌+◌, ◌<◌, ◌^◌, ℕ, OnOk, nat_eq, if◌then◌else◌};
ghost use Rattle.kq_catalog.specs.Edits.{count_given};

use kq_value::Memory;
use std::collections::HashMap;

// The number of rows that a table was given, by its number. It is the ordinal of the next one.
pub(crate) fn rows_given(given: &HashMap<u32, u64>, table: u32) -> u64
    ensures { result ≡ count_given given.now table }
{
    given.get(&table).copied().unwrap_or(0)
}

// Counts so many rows more of a table.
pub(crate) fn give_rows(given: &mut HashMap<u32, u64>, table: u32, rows: u64) -> Result<(), Memory>
    requires { count_given given.old table + rows < 2 ^ 64 }
    ensures { OnOk result ((t : ℕ) → count_given given.new t ≡ count_given given.old t + (if nat_eq table t then rows else 0)) }
{
    let before = rows_given(given, table);
    given.insert(table, before + rows)?;
    Ok(())
}
