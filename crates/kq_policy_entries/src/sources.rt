// The sources of a policy among the tables that were found.
ghost use Rattle.std.specs.Prelude.{◌≡◌, OnOk, IfOk, true, false};
ghost use Rattle.kq_policy_entries.specs.Search.{AddsSources, HasSource, marked_with, open_with};

use kq_catalog_journal::Entry;
use kq_value::Memory;

// Adds the sources of a policy that weren't found before to those that are still to be gone through. It stops where one is the target.
pub(crate) fn add_sources(
    policy: &[Entry],
    target: u32,
    marked: &mut Vec<bool>,
    open: &mut Vec<u32>,
) -> Result<bool, Memory>
    ensures found { IfOk result (λ found. found ≡ true → HasSource policy.now target) }
    ensures added { IfOk result (λ found. found ≡ false → AddsSources policy.now target marked.old.items open.old.items marked.new.items open.new.items) }
{
    for entry in policy {
        if entry.source == target {
            return Ok(true);
        }
        add(entry.source, marked, open)?;
    }
    Ok(false)
}

fn add(table: u32, marked: &mut Vec<bool>, open: &mut Vec<u32>) -> Result<(), Memory>
    ensures marks { OnOk result (marked.new.items ≡ marked_with marked.old.items table) }
    ensures opens { OnOk result (open.new.items ≡ open_with marked.old.items open.old.items table) }
{
    let at = table as usize;
    if at < marked.len() && !marked[at] {
        open.push(table)?;
        marked[at] = true;
    }
    Ok(())
}
